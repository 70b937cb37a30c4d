// The code of the pair book: sizes, pairs and places, sets of stations, and the sum rules.
#![tactic(auto)]

pub mod marks;
pub mod places;
pub mod sizes;
pub mod theorems;

pub use marks::Marks;
pub use places::{Pair, pair_at, place};
pub use sizes::Size;
pub use theorems::{examples_stand, rebuild_stands};
