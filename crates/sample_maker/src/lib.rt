//! Large inputs to be graded, each made from a number.
#![tactic(auto)]

mod program;
mod sample_text;
mod texts;

pub use sample_text::SampleText;
use std::alloc::AllocError;
pub use texts::{SampleTexts, sample};

/// Want of memory, where a call has no other refusal.
pub type NoMemory = AllocError;
