//! The levels of the grammar of expressions.
ghost use Rattle.std.specs.Prelude.{◌≡◌};
ghost use Rattle.mpy_tree.specs.Levels.{above, left_level, operator_level, rank, right_level};

use crate::operators::ArithOp;

/// The levels of the grammar of expressions, from the one that binds least.
#[derive(Clone, Copy, PartialEq, Eq, Debug, Drop)]
pub enum Level {
    /// `yes if test else no`
    Conditional,
    /// `a or b`
    Disjunction,
    /// `a and b`
    Conjunction,
    /// `not a`
    Negation,
    /// `a < b` and the other comparisons, one at most
    Comparison,
    /// `a + b` and `a - b`
    Sum,
    /// `a * b`, `a // b` and `a % b`
    Product,
    /// `-a`
    Unary,
    /// `a ** b`
    Power,
    /// `a[i]` and `a[i:j]`
    Postfix,
    /// literals, names, calls, lists, and what stands in parentheses
    Atom,
}

impl Level {
    /// The next level, which binds closer; an atom's is itself.
    pub fn above(self) -> Level
        ensures { result ≡ above self }
    {
        match self {
            Level::Conditional => Level::Disjunction,
            Level::Disjunction => Level::Conjunction,
            Level::Conjunction => Level::Negation,
            Level::Negation => Level::Comparison,
            Level::Comparison => Level::Sum,
            Level::Sum => Level::Product,
            Level::Product => Level::Unary,
            Level::Unary => Level::Power,
            Level::Power => Level::Postfix,
            Level::Postfix | Level::Atom => Level::Atom,
        }
    }

    /// How close the level binds, from 0 for a conditional to 10 for an atom.
    pub fn rank(self) -> u32
        ensures { result ≡ rank self }
    {
        match self {
            Level::Conditional => 0,
            Level::Disjunction => 1,
            Level::Conjunction => 2,
            Level::Negation => 3,
            Level::Comparison => 4,
            Level::Sum => 5,
            Level::Product => 6,
            Level::Unary => 7,
            Level::Power => 8,
            Level::Postfix => 9,
            Level::Atom => 10,
        }
    }

    /// The level of an operator on numbers.
    pub fn of(op: ArithOp) -> Level
        ensures { result ≡ operator_level op }
    {
        match op {
            ArithOp::Add | ArithOp::Sub => Level::Sum,
            ArithOp::Mul | ArithOp::Floor | ArithOp::Rem => Level::Product,
            ArithOp::Power => Level::Power,
        }
    }

    /// The level of what stands left of an operator on numbers.
    pub fn left_of(op: ArithOp) -> Level
        ensures { result ≡ left_level op }
    {
        match op {
            ArithOp::Add | ArithOp::Sub => Level::Sum,
            ArithOp::Mul | ArithOp::Floor | ArithOp::Rem => Level::Product,
            ArithOp::Power => Level::Postfix,
        }
    }

    /// The level of what stands right of an operator on numbers.
    pub fn right_of(op: ArithOp) -> Level
        ensures { result ≡ right_level op }
    {
        match op {
            ArithOp::Add | ArithOp::Sub => Level::Product,
            ArithOp::Mul | ArithOp::Floor | ArithOp::Rem | ArithOp::Power => Level::Unary,
        }
    }
}
