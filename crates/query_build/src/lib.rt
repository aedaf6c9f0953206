//! The questions of a search as formulas: how each is stated, and how an answer is read off truth
//! values.
#![tactic(auto)]

mod building;
mod compared;
mod goals;
mod inputs;

pub use building::{decode_case, decode_selection, formula};
use std::alloc::AllocError;

/// Want of memory, where a call has no other refusal.
pub type NoMemory = AllocError;
