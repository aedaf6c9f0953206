//! The answers of a solver.

use crate::log::Log;
use crate::truths::Truths;

/// What a solver found out about a formula, and the clauses that it derived meanwhile.
#[derive(Drop)]
pub enum Solved {
    /// These values satisfy the formula.
    Holds(Truths, Log),
    /// No values do: the log refutes the formula.
    Refuted(Log),
    /// The log has as many steps as were allowed.
    Spent(Log),
    NoMemory,
}
