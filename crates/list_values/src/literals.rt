//! Lists of given numbers and texts of given characters.

ghost use Rattle.std.specs.Prelude.{◌≡◌, ◌≤◌, ◌<◌, ℕ, Bool, List, [], length, map, take, nat_le};
ghost use Rattle.std.specs.Prelude.{true, false, if◌then◌else◌, IfOk, All, drop, replicate};
ghost use Rattle.mpy_tree.specs.Expressions.{list_of};
ghost use Rattle.mpy_tree.specs.Operations.{text_within};
ghost use Rattle.bit_lists.specs.Lists.{AreWordsIn};
ghost use Rattle.sym_values.specs.Forms.{form_for};
ghost use Rattle.sym_values.specs.Operations.{number_read};
ghost use Rattle.sym_values.specs.Reading.{OutcomeReads, read, sure};
ghost use Rattle.sym_values.specs.Results.{IsOutcomeIn, IsValueIn};

use bit_lists::lengths::{constant_length, count_of};
use bit_words::NoMemory;
use bit_words::bitwise::zeros;
use bit_words::logic::Logic;
use bit_words::words::Words;
use mpy_tree::{Chars, Limits, Ty, Value};
use std::alloc::Global;
use sym_values::constant::{constant_value, zero_value};
use sym_values::{SymOutcome, SymValue};

/// The words, and behind them zeros up to a count.
pub fn padded<L: Logic>(
    alloc: Global,
    g: &L,
    words: Words<L::Bit>,
    width: usize,
    count: usize,
) -> Result<Words<L::Bit>, NoMemory>
    requires within { length words ≤ count }
    requires words { AreWordsIn L.owns g.now width words }
    ensures made { IfOk result (λ r. AreWordsIn L.owns g.now width r) }
    ensures many { IfOk result (λ r. length r ≡ count) }
    ensures front { IfOk result (λ r. take (length words) r ≡ words) }
    ensures zeros { IfOk result (λ r. (vs : List Bool) →
        All (λ w. map (L.reads g.now vs) w ≡ replicate width false) (drop (length words) r)) }
{
    let mut padded = words;
    for _ in padded.len()..count {
        let nothing = zeros(alloc, g, width)?;
        padded.push(nothing)?;
    }
    Ok(padded)
}

/// The words, or none of them where there are more than a count.
fn all_or_none<B: Copy>(alloc: Global, words: &Words<B>, count: usize) -> Result<Words<B>, NoMemory>
    ensures { IfOk result (λ r. r ≡ (if nat_le (length words.now) count then words.now else [])) }
{
    if words.len() <= count {
        words.copy()
    } else {
        Ok(Words::new(alloc))
    }
}

/// The list of these numbers, or Length.
pub fn list_literal<L: Logic>(
    alloc: Global,
    g: &L,
    limits: &Limits,
    numbers: &Words<L::Bit>,
) -> Result<SymOutcome<L::Bit>, NoMemory>
    requires { AreWordsIn L.owns g.now limits.now.width numbers.now }
    ensures made { IfOk result (λ r. IsOutcomeIn L.owns g.now (form_for limits.now Ty.List) r) }
    ensures value { IfOk result (λ r. (vs : List Bool) → OutcomeReads (L.reads g.now vs) r
        (list_of limits.now (map (number_read L.reads g.now vs) numbers.now))) }
{
    let cap = limits.cap as usize;
    let words = all_or_none(alloc, numbers, cap)?;
    let len = constant_length(alloc, g, count_of(&words))?;
    let items = padded(alloc, g, words, limits.width as usize, cap)?;
    let fault = g.constant(numbers.len() > cap);
    Ok(SymOutcome {
        value: SymValue::List { len, items },
        fault,
    })
}

/// A text as constant bits, or an empty one where it is too long.
fn text_or_none<L: Logic>(
    alloc: Global,
    g: &L,
    limits: &Limits,
    text: &Chars,
) -> Result<SymValue<L::Bit>, NoMemory>
    ensures made { IfOk result (λ r. IsValueIn L.owns g.now (form_for limits.now Ty.Text) r) }
    ensures value { IfOk result (λ r. (vs : List Bool) →
        nat_le (length text.now) limits.now.cap ≡ true →
        read (L.reads g.now vs) r ≡ sure (Value.Text text.now)) }
{
    if text.len() > limits.cap as usize {
        let none = zero_value(alloc, g, limits, Ty::Text)?;
        return Ok(none);
    }
    let given = Value::Text(text.copy()?);
    let value = constant_value(alloc, g, limits, &given)?;
    Ok(value)
}

/// The text of these characters, or Length.
pub fn text_literal<L: Logic>(
    alloc: Global,
    g: &L,
    limits: &Limits,
    text: &Chars,
) -> Result<SymOutcome<L::Bit>, NoMemory>
    ensures made { IfOk result (λ r. IsOutcomeIn L.owns g.now (form_for limits.now Ty.Text) r) }
    ensures value { IfOk result (λ r. (vs : List Bool) →
        OutcomeReads (L.reads g.now vs) r (text_within limits.now text.now)) }
{
    let value = text_or_none(alloc, g, limits, text)?;
    let fault = g.constant(text.len() > limits.cap as usize);
    Ok(SymOutcome { value, fault })
}
