//! The command `check`, over files and an output: a certificate is judged from its text and the
//! sources alone.
#![tactic(auto)]

mod checking;
mod command;
mod words;
mod writing;

pub use command::check;
use std::alloc::AllocError;
pub use words::CheckWords;

/// Want of memory, where a call has no other refusal.
pub type NoMemory = AllocError;
