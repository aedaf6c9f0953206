//! The sources of a command: which files it reads, and their texts, fetched in order.
#![tactic(auto)]

mod fetch;
mod file;
mod stop;

pub use fetch::fetch_all;
pub use file::{File, limit_of};
pub use stop::{Stop, refused};
