// Reports in text on what a store or an image holds.
#![tactic(auto)]

pub mod digits;
pub mod pairs;
pub mod reports;

pub use digits::hex_text;
pub use pairs::pair_lines;
pub use reports::{inspect, report};
