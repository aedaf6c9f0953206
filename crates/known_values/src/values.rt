//! Values all of whose bits are known.

ghost use Rattle.std.specs.Prelude.{◌≡◌, ◌≤◌, Bool, List, length, map, take, IfOk, IfSome};
ghost use Rattle.bit_words.specs.Logic.{OwnsAll};
ghost use Rattle.bit_words.specs.Words.{int_read, nat_read};
ghost use Rattle.sym_values.specs.Forms.{bits_of, joined};
ghost use Rattle.sym_values.specs.Reading.{read, sure};

use crate::numbers::{known_int, known_number};
use bit_words::NoMemory;
use bit_words::bits::Bits;
use bit_words::logic::Logic;
use bit_words::words::Words;
use mpy_tree::{Chars, Ints, Value};
use std::alloc::Global;
use sym_values::SymValue;

/// The length that some bits are known to be, where there are so many items.
fn known_length<L: Logic>(g: &L, len: &Bits<L::Bit>, items: &Words<L::Bit>) -> Option<usize>
    requires { OwnsAll L.owns g.now len.now }
    ensures value { IfSome result (λ n. (vs : List Bool) →
        nat_read L.reads g.now vs len.now ≡ n) }
    ensures within { IfSome result (λ n. n ≤ length items.now) }
{
    let length = known_number(g, len.as_slice())? as usize;
    if length > items.len() {
        return None;
    }
    Some(length)
}

/// The numbers that the first items of a list are known to be.
fn known_ints<L: Logic>(
    alloc: Global,
    g: &L,
    items: &Words<L::Bit>,
    count: usize,
) -> Result<Option<Ints>, NoMemory>
    requires owned { OwnsAll L.owns g.now (joined items.now) }
    requires within { count ≤ length items.now }
    ensures { IfOk result (λ r. IfSome r (λ zs. (vs : List Bool) →
        map (int_read L.reads g.now vs) (take count items.now) ≡ zs)) }
{
    let mut numbers = Vec::new(alloc);
    for i in 0..count {
        match known_int(g, items.at(i).as_slice()) {
            None => return Ok(None),
            Some(number) => numbers.push(number)?,
        }
    }
    Ok(Some(Ints::from_vec(numbers)))
}

/// The character that some bits are known to be.
fn known_character<L: Logic>(g: &L, bits: &[L::Bit]) -> Option<u8>
    requires { OwnsAll L.owns g.now bits.now }
    ensures value { IfSome result (λ n. (vs : List Bool) →
        nat_read L.reads g.now vs bits.now ≡ n) }
    ensures printable { IfSome result (λ n. (32 ≤ n) × (n ≤ 126)) }
{
    let code = known_number(g, bits)?;
    if code < 32 || code > 126 {
        return None;
    }
    Some(code as u8)
}

/// The characters that the first items of a text are known to be.
fn known_characters<L: Logic>(
    alloc: Global,
    g: &L,
    items: &Words<L::Bit>,
    count: usize,
) -> Result<Option<Chars>, NoMemory>
    requires owned { OwnsAll L.owns g.now (joined items.now) }
    requires within { count ≤ length items.now }
    ensures { IfOk result (λ r. IfSome r (λ cs. (vs : List Bool) →
        map (nat_read L.reads g.now vs) (take count items.now) ≡ cs)) }
{
    let mut characters = Vec::new(alloc);
    for i in 0..count {
        match known_character(g, items.at(i).as_slice()) {
            None => return Ok(None),
            Some(character) => characters.push(character)?,
        }
    }
    Ok(Some(Chars::from_vec(characters)))
}

/// The list that a length and items are known to be.
fn known_list<L: Logic>(
    alloc: Global,
    g: &L,
    len: &Bits<L::Bit>,
    items: &Words<L::Bit>,
) -> Result<Option<Value>, NoMemory>
    requires len { OwnsAll L.owns g.now len.now }
    requires items { OwnsAll L.owns g.now (joined items.now) }
    ensures { IfOk result (λ r. IfSome r (λ v. (vs : List Bool) →
        read (L.reads g.now vs) (SymValue.List len.now items.now) ≡ sure v)) }
{
    let Some(count) = known_length(g, len, items) else {
        return Ok(None);
    };
    match known_ints(alloc, g, items, count)? {
        None => Ok(None),
        Some(numbers) => Ok(Some(Value::List(numbers))),
    }
}

/// The text that a length and items are known to be.
fn known_text<L: Logic>(
    alloc: Global,
    g: &L,
    len: &Bits<L::Bit>,
    items: &Words<L::Bit>,
) -> Result<Option<Value>, NoMemory>
    requires len { OwnsAll L.owns g.now len.now }
    requires items { OwnsAll L.owns g.now (joined items.now) }
    ensures { IfOk result (λ r. IfSome r (λ v. (vs : List Bool) →
        read (L.reads g.now vs) (SymValue.Text len.now items.now) ≡ sure v)) }
{
    let Some(count) = known_length(g, len, items) else {
        return Ok(None);
    };
    match known_characters(alloc, g, items, count)? {
        None => Ok(None),
        Some(characters) => Ok(Some(Value::Text(characters))),
    }
}

/// The value that a value as bits is known to be. There is none where one of the bits that count
/// isn't known, and where they spell no value: a length that is too great, or a character outside
/// of those of texts.
#[tactic(auto, using(sym_values::proofs::Held::parts))]
pub fn known_value<L: Logic>(
    alloc: Global,
    g: &L,
    value: &SymValue<L::Bit>,
) -> Result<Option<Value>, NoMemory>
    requires { OwnsAll L.owns g.now (bits_of value.now) }
    ensures { IfOk result (λ r. IfSome r (λ v. (vs : List Bool) →
        read (L.reads g.now vs) value.now ≡ sure v)) }
{
    match value {
        SymValue::Int(word) => Ok(known_int(g, word.as_slice()).map(Value::Int)),
        SymValue::Bool(bit) => Ok(g.known(*bit).map(Value::Bool)),
        SymValue::List { len, items } => {
            let list = known_list(alloc, g, len, items)?;
            Ok(list)
        }
        SymValue::Text { len, items } => {
            let text = known_text(alloc, g, len, items)?;
            Ok(text)
        }
    }
}
