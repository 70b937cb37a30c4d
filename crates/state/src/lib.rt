// What a book means, and what its calls answer and leave: the definitions, the record of the filling, and lemmas.
#![tactic(auto)]

pub mod records;

pub use records::{Filling, fills, marks};
