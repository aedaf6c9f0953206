//! Commands that read files: what their texts decide, and how the call ends that writes it.
#![tactic(auto)]

mod ending;
mod lines;
mod report;

pub use ending::{end, end_at_once};
pub use lines::Lines;
pub use report::Report;
