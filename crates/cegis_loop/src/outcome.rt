//! The answer of a search.

/// What a search for a choice of least cost ends with.
#[derive(Drop)]
pub enum Least<C> {
    /// This choice agrees on all inputs, at this cost, and none that is cheaper does.
    Found { choice: C, cost: u32 },
    /// No choice agrees on all inputs.
    Nothing,
    /// There is no input.
    NoCase,
    /// The budget is spent. No choice of smaller cost agrees on all inputs.
    Spent { at_least: u32 },
    /// Memory lacked.
    NoMemory,
}
