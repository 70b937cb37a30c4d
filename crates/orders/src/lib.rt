// Orders as bytes, and answers as lines of text.
#![tactic(auto)]

pub mod lines;
pub mod records;

pub use lines::{LONGEST, Reply, lay_line};
pub use records::{Order, Record, read_record};
