//! How large a program may be.
#![tactic(auto)]

mod limits;

pub use limits::{limit_line, statements_count};
