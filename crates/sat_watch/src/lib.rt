//! The state of a solver that learns: the literals that are true with their levels, two watched
//! literals a clause, and the clauses by their greatest variable.
#![tactic(auto)]

pub mod known;
pub mod laws;
pub mod listing;
pub mod propagate;
pub mod search;
pub mod trail;
pub mod watches;
