//! Tests of the language's crates over one another: tokens, programs, their texts, and what they
//! give.
#![tactic(auto)]

#[cfg(test)]
mod copies;
#[cfg(test)]
mod layout;
#[cfg(test)]
mod levels;
#[cfg(test)]
mod limits;
#[cfg(test)]
mod programs;
#[cfg(test)]
mod reading;
#[cfg(test)]
mod runs;
#[cfg(test)]
mod tokens;
#[cfg(test)]
mod typing;
