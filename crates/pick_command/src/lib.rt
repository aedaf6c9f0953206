//! The command `pick`, over files and an output: few inputs that show the faults of submissions.
#![tactic(auto)]

mod command;
mod files;
mod report;
mod request;
mod weighing;
mod words;

pub use command::pick;
use std::alloc::AllocError;
pub use words::PickWords;

/// Want of memory, where a call has no other refusal.
pub type NoMemory = AllocError;
