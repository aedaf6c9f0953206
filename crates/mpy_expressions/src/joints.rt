//! The operators that join parts at a level of the grammar.
ghost use Rattle.std.specs.Prelude.{◌≡◌};
ghost use Rattle.mpy_expressions.specs.Joints.{joint_at};

use crate::words::Word;
use mpy_tree::{ArithOp, CmpOp, Level};

/// An operator of programs that joins two parts.
#[derive(Clone, Copy, PartialEq, Eq, Debug, Drop)]
pub enum Joint {
    Or,
    And,
    Arith(ArithOp),
    Cmp(CmpOp),
}

/// The joint of a level that a word is, if it is one.
pub(crate) fn joint_at(level: Level, word: Word) -> Option<Joint>
    ensures { result ≡ joint_at level word }
{
    match (level, word) {
        (Level::Disjunction, Word::Or) => Some(Joint::Or),
        (Level::Conjunction, Word::And) => Some(Joint::And),
        (Level::Sum, Word::Plus) => Some(Joint::Arith(ArithOp::Add)),
        (Level::Sum, Word::Minus) => Some(Joint::Arith(ArithOp::Sub)),
        (Level::Product, Word::Star) => Some(Joint::Arith(ArithOp::Mul)),
        (Level::Product, Word::DoubleSlash) => Some(Joint::Arith(ArithOp::Floor)),
        (Level::Product, Word::Percent) => Some(Joint::Arith(ArithOp::Rem)),
        _ => None,
    }
}
