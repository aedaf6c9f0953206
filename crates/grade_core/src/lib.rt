//! The command `grade`, over files and an output; and the answer to a task.
#![tactic(auto)]

mod command;
mod failing;
mod grading;
mod run;
mod words;
mod writing;

pub use command::{grade, report_texts};
pub use grading::{Graded, answer_status, grade_texts};
pub use run::{Run, answer};
use std::alloc::AllocError;
pub use words::GradeWords;
pub use writing::answer_text;

/// Want of memory, where a call has no other refusal.
pub type NoMemory = AllocError;
