//! The text of what a grader claims: the claim, its selection, the cases, and for each question its
//! formula and what was derived from it. Such a text is read and written.
#![tactic(auto)]

mod cases;
mod cert;
mod choices;
mod claims;
mod clauses;
mod draft;
mod laws;
mod queries;
mod reading;
mod writing;

pub use cert::{Cert, CertError, CertParts, Claim, case_line};
pub use laws::{case_by_line, one_cert};
pub use reading::read_cert;
use std::alloc::AllocError;
pub use writing::{write_cert, write_parts};

/// Want of memory, where a call has no other refusal.
pub type NoMemory = AllocError;
