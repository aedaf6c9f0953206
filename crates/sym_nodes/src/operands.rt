//! The parts of a node.

ghost use Rattle.std.specs.Prelude.{◌≡◌, ◌∷◌, [], length};
ghost use Rattle.sym_nodes.specs.Operands.{ty_of, values_of};

use bit_words::word::Word;
use mpy_tree::Ty;
use sym_values::{SymOutcome, SymValue};

/// The values of two parts.
#[derive(Drop)]
pub struct Two<'a, B: Copy> {
    pub first: &'a SymValue<B>,
    pub second: &'a SymValue<B>,
}

/// The value of the only part.
pub fn one_value<B: Copy>(parts: &[SymOutcome<B>]) -> &SymValue<B>
    requires { length parts.now ≡ 1 }
    ensures { values_of parts.now ≡ result.now ∷ [] }
{
    match parts {
        [only] => &only.value,
        _ => unreachable!(),
    }
}

/// The values of the two parts.
pub fn two_values<B: Copy>(parts: &[SymOutcome<B>]) -> Two<'_, B>
    requires { length parts.now ≡ 2 }
    ensures { values_of parts.now ≡ result.first.now ∷ result.second.now ∷ [] }
{
    match parts {
        [first, second] => Two {
            first: &first.value,
            second: &second.value,
        },
        _ => unreachable!(),
    }
}

/// The values of three parts.
#[derive(Drop)]
pub struct Three<'a, B: Copy> {
    pub first: &'a SymValue<B>,
    pub second: &'a SymValue<B>,
    pub third: &'a SymValue<B>,
}

/// The values of the three parts.
pub fn three_values<B: Copy>(parts: &[SymOutcome<B>]) -> Three<'_, B>
    requires { length parts.now ≡ 3 }
    ensures { values_of parts.now
        ≡ result.first.now ∷ result.second.now ∷ result.third.now ∷ [] }
{
    match parts {
        [first, second, third] => Three {
            first: &first.value,
            second: &second.value,
            third: &third.value,
        },
        _ => unreachable!(),
    }
}

/// Two parts.
#[derive(Drop)]
pub struct TwoParts<'a, B: Copy> {
    pub first: &'a SymOutcome<B>,
    pub second: &'a SymOutcome<B>,
}

/// The two parts.
pub fn two_parts<B: Copy>(parts: &[SymOutcome<B>]) -> TwoParts<'_, B>
    requires { length parts.now ≡ 2 }
    ensures { parts.now ≡ result.first.now ∷ result.second.now ∷ [] }
{
    match parts {
        [first, second] => TwoParts { first, second },
        _ => unreachable!(),
    }
}

/// Three parts.
#[derive(Drop)]
pub struct ThreeParts<'a, B: Copy> {
    pub first: &'a SymOutcome<B>,
    pub second: &'a SymOutcome<B>,
    pub third: &'a SymOutcome<B>,
}

/// The three parts.
pub fn three_parts<B: Copy>(parts: &[SymOutcome<B>]) -> ThreeParts<'_, B>
    requires { length parts.now ≡ 3 }
    ensures { parts.now ≡ result.first.now ∷ result.second.now ∷ result.third.now ∷ [] }
{
    match parts {
        [first, second, third] => ThreeParts {
            first,
            second,
            third,
        },
        _ => unreachable!(),
    }
}

/// The word of a number.
pub fn word_of<B: Copy>(a: &SymValue<B>) -> &Word<B>
    requires { ty_of a.now ≡ Ty.Int }
    ensures { a.now ≡ SymValue.Int result.now }
{
    match a {
        SymValue::Int(word) => word,
        _ => unreachable!(),
    }
}

/// The bit of a truth value.
pub fn truth_of<B: Copy>(a: &SymValue<B>) -> B
    requires { ty_of a.now ≡ Ty.Bool }
    ensures { a.now ≡ SymValue.Bool result }
{
    match a {
        SymValue::Bool(bit) => *bit,
        _ => unreachable!(),
    }
}
