// Block kinds: what a pair may hold.
#![tactic(auto)]

pub mod bits;
pub mod blocks;
pub mod kinds;
pub mod padded;
pub mod texts;
pub mod xor;

pub use blocks::Block;
pub use kinds::BlockKind;
pub use texts::byte_digits;
