// Lost blocks from the others, over any store for reading: recovery of a pair, both rows of two lost stations, patterns.
#![tactic(auto)]

pub mod absent;
mod admits;
mod areas;
mod noted;
pub mod patterns;
pub mod rebuilds;
pub mod recovery;
mod rows;
mod sums;
mod walks;

pub use absent::{
    absent_marks, absent_marks_beside, count_absent, count_absent_beside, few_absent,
};
pub use admits::admit_data;
pub use areas::{admit_area, work_length};
pub use patterns::{Impulse, pattern};
pub use rebuilds::{rebuild_two, rebuild_two_beside};
pub use recovery::{recover, recover_beside};
