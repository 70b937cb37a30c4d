// Whole sessions: the orders that bytes hold, made on a book, and the lines that answer them.
#![tactic(auto)]

mod performs;
mod reads;
pub mod replaces;
pub mod requests;
pub mod sessions;
mod texts;

pub use replaces::replace;
pub use requests::Step;
pub use sessions::{LIMIT, transcribe};
