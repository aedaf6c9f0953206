//! The search about a task, by solver.
#![tactic(auto)]

mod ruled;
mod whole;

use std::alloc::AllocError;
pub use whole::search;

/// Want of memory, where a call has no other refusal.
pub type NoMemory = AllocError;
