//! The selections of a weighted tree, level by level: those of cost 0, of cost 1, and so on.
#![tactic(auto)]

mod counting;
mod laws;
mod levels;
mod listing;
mod rows;

pub use counting::COUNT_MOST;
pub use laws::{levels_are_live, levels_rise, selections_have_levels};
pub use levels::Levels;
use std::alloc::AllocError;

/// Want of memory, where a call has no other refusal.
pub type NoMemory = AllocError;
