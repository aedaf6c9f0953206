//! Tests of picked inputs over devices in memory.
#![tactic(auto)]

#[cfg(test)]
mod many;
#[cfg(test)]
mod picks;
#[cfg(test)]
mod requests;
