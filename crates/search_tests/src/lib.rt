//! Tests of the searches over tasks, and of all least corrections.
#![tactic(auto)]

#[cfg(test)]
mod both_searches;
#[cfg(test)]
mod listings;
#[cfg(test)]
mod shared_lists;
