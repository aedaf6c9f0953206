//! Tests of the crates of rules and their rewritings.
#![tactic(auto)]

#[cfg(test)]
mod live;
#[cfg(test)]
mod matching;
#[cfg(test)]
mod messages;
#[cfg(test)]
mod numbers;
#[cfg(test)]
mod prints;
#[cfg(test)]
mod rewriting;
#[cfg(test)]
mod rule_files;
#[cfg(test)]
mod selections;
#[cfg(test)]
mod trees;
