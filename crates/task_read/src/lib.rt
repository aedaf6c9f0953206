//! Readers of the sources of a task: what they spell, or the first refusal.
#![tactic(auto)]

mod bounds;
mod entry;
mod error;
mod laws;
mod parts;
mod program;
mod refusal;
mod rules;
mod task;

pub use bounds::read_task_bounds;
pub use entry::{entry_line, result_type};
pub use error::TaskError;
pub use laws::{
    not_task_and_refused, not_typed_and_refused, one_program_refusal, one_task, one_task_refusal,
    one_typed_program, rules_are_proper, task_or_refused, tasks_are_sound, typed_or_refused,
};
pub use program::read_program;
pub use refusal::refusal_text;
pub use task::read_task;
