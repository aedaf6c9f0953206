//! What a choice of members costs, as bits over any logic.
#![tactic(auto)]

mod costs;
mod counters;
mod members;
mod notation;

pub use costs::{cost_reaches, sym_cost};
