//! The instances of a rule's right side: how many there are, each by its number, and those that are
//! alternatives.
#![tactic(auto)]

mod adding;
mod counting;
mod filling;
mod listing;
mod roots;
mod scope;
mod search;
mod standings;

pub use filling::instance;
pub use listing::{Alternative, alternatives};
pub use roots::Resolved;
pub use scope::TypedScope;
pub use standings::{Standing, Substitution};
use std::alloc::AllocError;

/// Want of memory, where a call has no other refusal.
pub type NoMemory = AllocError;
