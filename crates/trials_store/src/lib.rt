// Trials of the stores for writing on examples: what they refuse, and what a put, a take out and a bring in change.
#![tactic(auto)]

#[cfg(test)]
mod calls;
#[cfg(test)]
mod image_trials;
#[cfg(test)]
mod samples;
#[cfg(test)]
mod table_trials;
