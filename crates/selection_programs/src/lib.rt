//! The programs that the selections of a weighted program make: a law, the contract of a function
//! without a body.
#![tactic(auto)]

mod laws;

pub use laws::selections_make_programs;
