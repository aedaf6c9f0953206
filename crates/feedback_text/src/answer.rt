//! What is answered for a task.

use choice_tree::Selection;
use input_space::Case;
use mpy_tree::Outcome;

/// An input on which the submission doesn't end as the reference does, which ends there without a
/// fault.
#[derive(Drop)]
pub struct Failure {
    pub case: Case,
    pub gives: Outcome,
    pub wanted: Outcome,
}

/// The answer to a task.
#[derive(Drop)]
pub enum Answer {
    /// The submission agrees with the reference.
    Correct,
    /// The cheapest correction that agrees, by its selection of the task's tree.
    Corrected {
        selection: Selection,
        cost: u32,
        fails: Failure,
    },
    /// No rewriting agrees.
    NoCorrection {
        fails: Failure,
    },
    /// The reference ends by a fault on each input.
    EmptyReference,
    /// As many clauses were logged as the budget allows; no rewriting of a cost below `at_least`
    /// agrees.
    Spent {
        at_least: u32,
        budget: u32,
    },
    /// There was no memory.
    NoMemory,
}
