//! Tests of devices that are slow or fail, and of commands that store what they keep.
#![tactic(auto)]

#[cfg(test)]
mod devices;
#[cfg(test)]
mod slow;
#[cfg(test)]
mod stores;
