//! Literals, clauses, formulas, and logs of clauses that follow.
#![tactic(auto)]

pub mod answer;
pub mod clause;
pub mod formula;
pub mod hints;
pub mod laws;
pub mod lit;
pub mod lits;
pub mod log;
pub mod solved;
pub mod truths;

use std::alloc::AllocError;

/// Want of memory.
pub type NoMemory = AllocError;
