//! Rules of error models, read from their file.
#![tactic(auto)]

mod heads;
mod laws;
mod reading;
mod rule_error;
mod rule_lines;
mod tokens;

pub use laws::{not_read_and_refused, one_of_nine, one_reading, one_refusal, read_or_refused};
pub use reading::read_rules;
pub use rule_error::RuleError;
use std::alloc::AllocError;

/// Want of memory, where a call has no other refusal.
pub type NoMemory = AllocError;
