//! The types of a program's names and results.
#![tactic(auto)]

mod broken;
mod check;
mod collect;
mod inflow;
mod known;
mod listed;
mod rules;
mod slots;
mod solve;
mod table;

pub use check::check_types;
pub use known::Known;
pub use listed::FactList;
pub use rules::type_in;
