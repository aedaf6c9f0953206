//! Cases as texts.
ghost use Rattle.std.specs.Prelude.{◌≡◌, ◌<◌, ◌≤◌, ◌++◌, ℕ, List, Err, IfOk, IfSome, MatchOption};
ghost use Rattle.std.specs.Prelude.{codes, length};
ghost use Rattle.mpy_lexer.specs.TextLiterals.{literal_characters};
ghost use Rattle.mpy_tree.specs.Printing.{truth_text};
ghost use Rattle.mpy_tree.specs.declared.value.Value.{Value as AnyValue};
ghost use Rattle.input_space.specs.Cases.{SpellsCase, SpellsEach, SpellsNumber, SpellsNumbers};
ghost use Rattle.input_space.specs.Cases.{SpellsValue};
ghost use Rattle.clause_base.specs.Readings.{IsReading};
ghost use Rattle.input_space.specs.declared.case.CaseError.TheVariants as case_error;

use crate::NoMemory;
use crate::case::{Case, CaseError};
use crate::numbers::number;
use crate::pieces::{number_len, value_len};
use mpy_lexer::literal_characters;
use mpy_tree::{Chars, Ints, Value, Values};
use std::alloc::Global;

// What stands behind the comma and the space at the front of the text.
fn after_comma(text: &[u8]) -> Option<&[u8]>
    ensures behind { MatchOption result
        ((rest : List ℕ) → text.now ≡ codes ", " ++ rest → ⊥)
        (λ rest. text.now ≡ codes ", " ++ rest.now) }
    ensures shorter { IfSome result (λ rest. length rest.now < length text.now) }
{
    match text {
        [b',', b' ', rest @ ..] => Some(rest),
        _ => None,
    }
}

// The numbers that the text spells, with a comma and a space between each two.
fn read_numbers(alloc: Global, text: &[u8]) -> Result<Option<Ints>, NoMemory>
    ensures { IfOk result (λ o. IsReading (SpellsEach SpellsNumber text.now) o) }
{
    let mut numbers = Vec::new(alloc);
    if text.is_empty() {
        return Ok(Some(Ints::from_vec(numbers)));
    }
    let mut rest = text;
    'pieces: loop {
        let (piece, behind) = rest.split_at(number_len(rest));
        let Some(z) = number(piece) else {
            return Ok(None);
        };
        numbers.push(z)?;
        if behind.is_empty() {
            return Ok(Some(Ints::from_vec(numbers)));
        }
        let Some(next) = after_comma(behind) else {
            return Ok(None);
        };
        rest = next;
    }
}

// What stands between the brackets that the text begins and ends with.
fn between_brackets(text: &[u8]) -> Option<&[u8]>
    ensures { MatchOption result
        ((inner : List ℕ) → text.now ≡ codes "[" ++ inner ++ codes "]" → ⊥)
        (λ inner. text.now ≡ codes "[" ++ inner.now ++ codes "]") }
{
    match text {
        [b'[', inner @ .., b']'] => Some(inner),
        _ => None,
    }
}

// The list that the text spells.
fn read_list(alloc: Global, text: &[u8]) -> Result<Option<Ints>, NoMemory>
    ensures { IfOk result (λ o. IsReading (SpellsNumbers text.now) o) }
{
    match between_brackets(text) {
        Some(inner) => read_numbers(alloc, inner),
        None => Ok(None),
    }
}

// The characters of the text literal that the text is.
fn read_text(alloc: Global, text: &[u8]) -> Result<Option<Chars>, NoMemory>
    ensures { IfOk result (λ o. o ≡ literal_characters text.now) }
{
    let characters = literal_characters(alloc, text)?;
    Ok(characters.map(Chars::from_vec))
}

// The truth value that the text spells.
fn truth(text: &[u8]) -> Option<bool>
    ensures { IsReading (λ b. text.now ≡ truth_text b) result }
{
    if text == b"True".as_slice() {
        Some(true)
    } else if text == b"False".as_slice() {
        Some(false)
    } else {
        None
    }
}

// The value that the text spells.
fn read_value(alloc: Global, text: &[u8]) -> Result<Option<Value>, NoMemory>
    ensures { IfOk result (λ o. IsReading (SpellsValue text.now) o) }
{
    if let Some(characters) = read_text(alloc, text)? {
        return Ok(Some(Value::Text(characters)));
    }
    if let Some(numbers) = read_list(alloc, text)? {
        return Ok(Some(Value::List(numbers)));
    }
    if let Some(b) = truth(text) {
        return Ok(Some(Value::Bool(b)));
    }
    match number(text) {
        Some(z) => Ok(Some(Value::Int(z))),
        None => Ok(None),
    }
}

// The values that the text spells, with a comma and a space between each two.
fn read_values(alloc: Global, text: &[u8]) -> Result<Option<Values>, NoMemory>
    ensures { IfOk result (λ o. IsReading (SpellsCase text.now) o) }
{
    let mut values = Vec::new(alloc);
    if text.is_empty() {
        return Ok(Some(Values::from_vec(values)));
    }
    let mut rest = text;
    'pieces: loop {
        let (piece, behind) = rest.split_at(value_len(rest));
        let Some(v) = read_value(alloc, piece)? else {
            return Ok(None);
        };
        values.push(v)?;
        if behind.is_empty() {
            return Ok(Some(Values::from_vec(values)));
        }
        let Some(next) = after_comma(behind) else {
            return Ok(None);
        };
        rest = next;
    }
}

/// The case that the text spells: values with a comma and a space between each two. A number is
/// decimal and has 32 bits, a text stands in quotes of either kind, and the empty text is the case
/// of no values. `NoCase` comes exactly where the text spells no case.
pub fn read_case(alloc: Global, text: &[u8]) -> Result<Case, CaseError>
    requires { length text.now ≤ 1073741824 }
    ensures read { IfOk result (λ c. SpellsCase text.now c.values) }
    ensures no_case { result ≡ Err case_error.NoCase →
        (vs : List AnyValue) → SpellsCase text.now vs → ⊥ }
{
    match read_values(alloc, text)? {
        Some(values) => Ok(Case { values }),
        None => Err(CaseError::NoCase),
    }
}
