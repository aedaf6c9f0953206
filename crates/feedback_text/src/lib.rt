//! The answer to a task, and its report.
#![tactic(auto)]

mod answer;
mod edits;
mod failures;
mod holes;
mod laws;
mod reports;
mod texts;

pub use answer::{Answer, Failure};
pub use edits::rule_lines;
pub use holes::Hole;
pub use laws::{edits_are_by_rules, edits_are_in_order, messages_are_filled, one_report};
pub use reports::{correction_lines, edit_lines, report};
use std::alloc::AllocError;

/// Want of memory, where a call has no other refusal.
pub type NoMemory = AllocError;
