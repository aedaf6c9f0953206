//! The commands `sat` and `unsat`, over files and an output: whether values satisfy a formula in
//! DIMACS CNF, and whether a proof shows that none do.
#![tactic(auto)]

mod judging;
mod sat_command;
mod solving;
mod unsat_command;
mod words;
mod writing;

pub use sat_command::sat;
use std::alloc::AllocError;
pub use unsat_command::unsat;
pub use words::{SatWords, UnsatWords};

/// Want of memory, where a call has no other refusal.
pub type NoMemory = AllocError;
