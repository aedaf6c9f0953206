//! What is at fault in the rules of an error model that were read.
#![tactic(auto)]

mod laws;
mod limits;
mod meanings;
mod metas;
mod nodes;
mod parts;

pub use laws::{primes_without_fault, small_without_fault};
pub use limits::limit_line;
pub use meanings::{MeaningFault, meaning_fault};
use std::alloc::AllocError;

/// Want of memory, where a call has no other refusal.
pub type NoMemory = AllocError;
