//! Expressions read from their tokens, exactly as the grammar spells them.
#![tactic(auto)]

mod expressions;
mod forms;
mod joints;
mod longest;
mod program_forms;
mod terminals;
mod terms;
mod words;

pub use expressions::{behind_closing, behind_colon, expression};
pub use forms::Forms;
pub use joints::Joint;
pub use longest::{ExprError, one_expression, read_expr};
use std::alloc::AllocError;
pub use terminals::{Terminal, terminals_of};
pub use terms::Bracket;
pub use words::Word;

/// Want of memory, where a call has no other refusal.
pub type NoMemory = AllocError;
