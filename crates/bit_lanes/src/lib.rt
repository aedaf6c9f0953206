//! Many inputs at once: a logic whose bits are truth tables over six variables, and the values of
//! up to 64 cases as such bits.
#![tactic(auto)]

mod columns;
mod lanes;
mod laws;
mod tables;
mod values;

pub use lanes::Lanes;
pub use laws::{lanes_are_few, lanes_are_numbers};
pub use values::lane_values;
