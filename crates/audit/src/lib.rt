// The audit of any store for reading: the first broken rule.
#![tactic(auto)]

pub mod audits;

pub use audits::{Verdict, audit, audit_beside, first_absent, first_absent_beside, is_absent};
