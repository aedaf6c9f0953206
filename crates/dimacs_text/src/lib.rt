//! Formulas and proofs as texts: DIMACS CNF in one profile, and the lines of a log.
#![tactic(auto)]

mod cnf;
mod draft;
mod error;
mod header;
mod heading;
mod laws;
mod lines;
mod proof;
mod signed;
mod tidy;

pub use cnf::read_cnf;
pub use error::CnfError;
pub use laws::{kept_is_true, one_cnf};
pub use proof::{read_proof, write_proof};
use std::alloc::AllocError;

/// Want of memory, where a call has no other refusal.
pub type NoMemory = AllocError;
