// Trials of recovery, patterns and show on examples. The lawful blocks come from tables of patterns that were found by
// plain elimination over the sum rules.
#![tactic(auto)]

#[cfg(test)]
mod areas;
#[cfg(test)]
mod beside_trials;
#[cfg(test)]
mod lawful;
#[cfg(test)]
mod loss_trials;
#[cfg(test)]
mod named_trials;
#[cfg(test)]
mod pattern_trials;
#[cfg(test)]
mod recover_trials;
#[cfg(test)]
mod refusal_trials;
#[cfg(test)]
mod show_trials;
