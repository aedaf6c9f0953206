//! The answer to a question.

/// What a question is answered.
#[derive(Drop)]
pub enum Asked<T> {
    /// This was found.
    Found(T),
    /// There is none.
    Nothing,
    /// The budget is spent.
    Spent,
    /// Memory lacked.
    NoMemory,
}
