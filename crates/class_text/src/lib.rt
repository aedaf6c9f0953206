//! The texts of a class of submissions: the list of its files, and the report of its entries.
#![tactic(auto)]

mod entry;
mod laws;
mod listing;
mod report;

pub use entry::Entry;
pub use laws::one_listing;
pub use listing::{ListFault, read_list};
pub use report::class_text;
use std::alloc::AllocError;

/// Want of memory, where a call has no other refusal.
pub type NoMemory = AllocError;
