//! A solver of formulas that learns: it decides and propagates, and logs from each conflict the
//! clause of the decisions that took part in it.
#![tactic(auto)]

mod explain;
mod solver;

pub use solver::solve;
