// Lists of calls on a book, and what its client is promised over every one of them.
#![tactic(auto)]

pub mod racks;
pub mod retires;
pub mod serves;
pub mod texts;
pub mod turns;

pub use racks::Rack;
pub use retires::retire;
pub use serves::{carry_on, serve};
pub use turns::{Answer, Call, Sort, Turn};
