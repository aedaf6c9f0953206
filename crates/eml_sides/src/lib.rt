//! The two sides of a rule, read from their tokens.
#![tactic(auto)]

mod laws;
mod metas;
mod operator_sets;
mod sides;
mod sights;
mod singles;

pub use laws::{left_sides_are_spelled, right_sides_are_spelled};
pub use sides::{left_side, right_side};
pub use sights::rule_terminals;
use std::alloc::AllocError;

/// Want of memory, where a call has no other refusal.
pub type NoMemory = AllocError;
