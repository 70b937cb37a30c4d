// Stores: who holds the blocks of all pairs. Their interfaces, what they refuse, and the table.
#![tactic(auto)]

pub mod beside;
pub mod blocks;
pub mod outs;
pub mod rolls;
pub mod stores;
pub mod tables;

pub use beside::Beside;
pub use blocks::block_or_zero;
pub use outs::next_out;
pub use rolls::Roll;
pub use stores::{ReadStore, WriteStore};
pub use tables::{Table, check_table};
