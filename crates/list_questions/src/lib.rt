//! The questions of a search, answered for a task by trying all selections and all inputs.
#![tactic(auto)]

mod questions;
mod table;
mod trial;

pub use questions::ListQuestions;
use std::alloc::AllocError;

/// Want of memory, where a call has no other refusal.
pub type NoMemory = AllocError;
