//! The formula of a graph of gates and a goal.
#![tactic(auto)]

pub mod build;
