//! What a search about a task leaves, and the certificate of what it found.
#![tactic(auto)]

mod alone;
mod limits;
mod outcome;
mod places;
mod writing;

pub use alone::sessions_text;
pub use outcome::Search;
pub use places::is_refuted;
use std::alloc::AllocError;
pub use writing::certificate;

/// Want of memory, where a call has no other refusal.
pub type NoMemory = AllocError;
