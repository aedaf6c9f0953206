//! A class of submissions, from the words of a command line to the report that is written.
#![tactic(auto)]

mod grading;
mod reading;
mod top;
mod words;

pub use class_run::{ClassStatus, class_exit, class_number};
use std::alloc::AllocError;
pub use top::class_top;

/// Want of memory, where a call has no other refusal.
pub type NoMemory = AllocError;
