//! Tests of classes over devices in memory.
#![tactic(auto)]

#[cfg(test)]
mod classes;
#[cfg(test)]
mod devices;
#[cfg(test)]
mod lists;
#[cfg(test)]
mod requests;
