//! The inputs within the bounds; cases: lists of values, as texts too; what is graded; and the
//! questions that a solver is asked about it.
#![tactic(auto)]

mod case;
mod counting;
mod laws;
mod numbers;
mod pieces;
mod places;
mod printing;
mod reading;
mod session;
mod task;
mod within;

pub use case::{Case, CaseError, Cases};
pub use counting::{MOST_COUNTED, inputs_count};
pub use laws::{inputs_fit, one_case, printed_is_read, some_input, within_is_membership};
pub use places::case_at;
pub use printing::{print_case, print_value, print_values};
pub use reading::read_case;
pub use session::{Query, Session, Sessions};
use std::alloc::AllocError;
pub use task::{Task, TaskParts};
pub use within::{compares, in_bounds, is_within, param_type, signature};

/// Want of memory, where a call has no other refusal.
pub type NoMemory = AllocError;
