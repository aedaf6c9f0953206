//! A plain solver of formulas: it decides, propagates, and takes decisions back.
#![tactic(auto)]

mod explain;
mod occurrences;
mod propagate;
mod search;
mod solver;
mod trail;

pub use solver::solve;
