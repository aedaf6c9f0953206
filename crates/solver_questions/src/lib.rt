//! The questions of a search about a task, answered by a solver over formulas.
#![tactic(auto)]

mod questions;
mod reply;

pub use questions::{SolverQuestions, Told};
use std::alloc::AllocError;

/// Want of memory, where a call has no other refusal.
pub type NoMemory = AllocError;
