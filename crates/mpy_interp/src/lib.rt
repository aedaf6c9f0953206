//! What a program gives on its arguments.
#![tactic(auto)]

mod apply;
mod assignments;
mod calls;
mod completion;
mod eval;
mod exec;
mod frame;
mod machine;
mod operand;
mod program;
mod shortcuts;

pub use program::run;
