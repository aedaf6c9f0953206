//! The language's operations on lists and texts as words of bits, over any logic.
#![tactic(auto)]

pub mod items;
pub mod joins;
pub mod literals;
pub mod members;
pub mod ranges;
pub mod repeats;
pub mod slices;
pub mod turns;
pub mod views;
