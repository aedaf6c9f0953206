//! Circuits on lists of words with a length, over any logic.
#![tactic(auto)]

pub mod choices;
pub mod compare;
pub mod constants;
pub mod decoder;
pub mod items;
pub mod joins;
pub mod lengths;
pub mod lists;
pub mod parts;
pub mod places;
pub mod ranges;
pub mod repeats;
pub mod shifts;
pub mod slices;

pub use bit_words::NoMemory;
