// Trials of records, lines and whole sessions on examples.
#![tactic(auto)]

#[cfg(test)]
mod fault_trials;
#[cfg(test)]
mod limit_trials;
#[cfg(test)]
mod line_trials;
#[cfg(test)]
mod loss_trials;
#[cfg(test)]
mod record_trials;
#[cfg(test)]
mod scripts;
