// Trials: what the code, stores and audits do on examples, each compared with a plain way that shares nothing with them.
#![tactic(auto)]

#[cfg(test)]
mod audits;
#[cfg(test)]
mod fault_trials;
#[cfg(test)]
mod images;
#[cfg(test)]
mod kind_trials;
#[cfg(test)]
mod marks;
#[cfg(test)]
mod places;
#[cfg(test)]
mod reports;
#[cfg(test)]
mod samples;
#[cfg(test)]
mod sizes;
