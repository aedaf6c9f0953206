//! The judge of certificates, whatever wrote them.
#![tactic(auto)]

mod anew;
mod difference;
mod form;
mod laws;
mod look;
mod trial;
mod verdict;

pub use laws::{right_as_it_stands, right_is_accepted};
use std::alloc::AllocError;
pub use trial::judge;
pub use verdict::{Shown, Verdict};

/// Want of memory, where a call has no other refusal.
pub type NoMemory = AllocError;
