//! What the rule of hints says of a clause.

/// Whether a clause follows from known clauses by hints.
#[derive(Clone, Copy, PartialEq, Eq)]
pub enum StepAnswer {
    /// A hinted clause came to have only false literals: the clause follows.
    Good,
    /// The hinted clause at this place, counted from 1, has two or more literals that aren't false.
    NotUnit(u32),
    /// Every hinted clause in its turn had a single literal that isn't false.
    NoEnd,
}
