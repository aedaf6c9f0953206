//! A class of submissions over files and an output: its four files, its listed files and their
//! entries, whatever grades a file.
#![tactic(auto)]

mod entries;
mod files;
mod find;
mod grader;
mod run;
mod status;
mod stop;
mod writing;

pub use files::{ClassFiles, SharedTexts};
pub use grader::Grader;
pub use run::run_class;
pub use status::{ClassStatus, class_exit, class_number};
use std::alloc::AllocError;
pub use stop::ClassStop;
pub use writing::say;

/// Want of memory, where a call has no other refusal.
pub type NoMemory = AllocError;
