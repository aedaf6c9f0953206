//! The command `all`, over files and an output: every least correction of a submission.
#![tactic(auto)]

mod command;
mod listing;
mod report;
mod words;

pub use command::all;
use std::alloc::AllocError;
pub use words::AllWords;

/// Want of memory, where a call has no other refusal.
pub type NoMemory = AllocError;
