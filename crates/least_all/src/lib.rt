//! All corrections of one cost that agree with the reference, each program once.
#![tactic(auto)]

mod answer;
mod laws;
mod listing;
mod walk;

pub use answer::{Best, Selections};
pub use laws::best_programs_are_listed;
use std::alloc::AllocError;
pub use walk::{count_live, list_best};

/// Want of memory, where a call has no other refusal.
pub type NoMemory = AllocError;
