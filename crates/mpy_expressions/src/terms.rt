//! Expressions made of their parts.
ghost use Rattle.std.specs.Prelude.{◌≡◌, IfOk};
ghost use Rattle.mpy_expressions.specs.Reading.{joined, suffixed};
ghost use Rattle.mpy_expressions.specs.Views.{suffix_of, link_of};

use crate::NoMemory;
use crate::forms::Forms;
use crate::joints::Joint;
use std::alloc::Global;

/// The brackets round elements: those of calls, those of lists, or those of sets.
#[derive(Clone, Copy, PartialEq, Eq, Debug, Drop)]
pub enum Bracket {
    Round,
    Square,
    Curly,
}

/// What joins two parts.
#[derive(Drop)]
pub(crate) enum Link<O> {
    Joint(Joint),
    /// an operator that only some kinds of expression have
    Special(O),
}

/// What stands in brackets behind a value.
#[derive(Drop)]
pub(crate) enum Suffix<T> {
    Index(T),
    Slice(Option<T>, Option<T>),
}

fn joined<T: Forms>(alloc: Global, joint: Joint, a: T, b: T) -> Result<T, NoMemory>
    ensures { IfOk result (λ e. T.plain e ≡ joined T.forms joint (T.plain a) (T.plain b)) }
{
    match joint {
        Joint::Or => T::either(alloc, a, b),
        Joint::And => T::both(alloc, a, b),
        Joint::Arith(op) => T::arith(alloc, op, a, b),
        Joint::Cmp(op) => T::comparison(alloc, op, a, b),
    }
}

pub(crate) fn join<T: Forms>(
    alloc: Global,
    link: Link<T::Operator>,
    a: T,
    b: T,
) -> Result<T, NoMemory>
    ensures { IfOk result
        (λ e. T.plain e ≡ link_of T.forms T.operation link (T.plain a) (T.plain b)) }
{
    match link {
        Link::Joint(joint) => joined(alloc, joint, a, b),
        Link::Special(op) => T::operated(alloc, op, a, b),
    }
}

/// A value with what stands in brackets behind it.
pub(crate) fn with_suffix<T: Forms>(
    alloc: Global,
    value: T,
    suffix: Suffix<T>,
) -> Result<T, NoMemory>
    ensures { IfOk result
        (λ e. T.plain e ≡ suffixed T.forms (T.plain value) (suffix_of T.plain suffix)) }
{
    match suffix {
        Suffix::Index(i) => T::index(alloc, value, i),
        Suffix::Slice(from, to) => T::slice(alloc, value, from, to),
    }
}
