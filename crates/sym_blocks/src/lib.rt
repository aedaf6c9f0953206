//! Statements of weighted programs as bits, over any logic.
#![tactic(auto)]

pub mod body;
pub mod each;
pub mod evaluation;
pub mod exec;
pub mod leaves;
pub mod operations;
pub mod sides;

pub use body::Body;
pub use exec::exec_block;
