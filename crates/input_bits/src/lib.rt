//! Inputs as bits: new variables for the values of an input, what the ranges of parameters fix of
//! them, inputs by cases, and the input that truth values spell.
#![tactic(auto)]

mod cases;
mod decode;
mod fresh;
mod item_ranges;
pub mod laws;
mod numbers;
mod parts;
mod ranges;
mod splitting;

pub use cases::{InputCase, input_case};
pub use decode::{bits_for, decode_values};
pub use fresh::fresh_values;
pub use numbers::{integer, natural};
pub use parts::Split;
pub use ranges::{Ranged, ranged_value};
pub use splitting::{cases_count, splits};
