//! A test picker: of the inputs within the bounds, few that show the faults of programs.
#![tactic(auto)]

mod blocks;
mod compared;
mod laws;
mod marking;
mod picking;
mod program;
mod search;
mod typed_list;

pub use input_space::case_at;
pub use laws::{marks_stay, one_choice};
pub use picking::{Picked, pick};
use std::alloc::AllocError;
pub use typed_list::{Marks, Typed, TypedList};

/// Want of memory, where a call has no other refusal.
pub type NoMemory = AllocError;
