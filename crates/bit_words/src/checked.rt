//! A word with the faults of the operation that made it.

use crate::word::Word;

/// A word, and whether its number leaves the width.
#[derive(Drop)]
pub struct Checked<B: Copy> {
    pub word: Word<B>,
    pub over: B,
}

/// The same of an operation that isn't defined for all numbers.
#[derive(Drop)]
pub struct Partial<B: Copy> {
    pub word: Word<B>,
    pub over: B,
    /// Whether it isn't defined: the divisor is 0, or the exponent is below zero.
    pub fault: B,
}
