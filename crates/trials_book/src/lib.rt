// Trials of the book on examples: what each call refuses, tickets that are handed back, and lists of calls.
#![tactic(auto)]

#[cfg(test)]
mod lists;
#[cfg(test)]
mod plays;
#[cfg(test)]
mod refusals;
#[cfg(test)]
mod returns;
#[cfg(test)]
mod tickets;
