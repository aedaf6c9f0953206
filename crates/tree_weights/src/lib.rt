//! Weighted trees of programs without rules, and how much weighted programs weigh.
#![tactic(auto)]

mod amounts;
mod calls;
mod frame;
mod laws;
mod lift_expressions;
mod lift_statements;
mod locals;
mod loops;
mod program;
mod program_weight;
mod weighing;

pub use laws::roots_have_types;
pub use lift_statements::lift;
pub use program_weight::weight;
use std::alloc::AllocError;

/// Want of memory, where a call has no other refusal.
pub type NoMemory = AllocError;
