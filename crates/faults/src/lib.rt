// Refusals: what each one says.
#![tactic(auto)]

pub mod faults;

pub use faults::{Fault, Layer};
