//! Values as bits all of which are known: the values that they are under all truth values of the
//! variables.
#![tactic(auto)]

pub mod numbers;
pub mod values;

pub use values::known_value;
