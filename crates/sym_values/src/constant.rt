//! Values as constant bits.

ghost use Rattle.std.specs.Prelude.{◌≡◌, ◌<◌, ◌≤◌, ◌^◌, pos, true, Bool, List, get_or, map, length};
ghost use Rattle.std.specs.Prelude.{replicate, IfOk};
ghost use Rattle.std.specs.List.{list_all};
ghost use Rattle.mpy_tree.specs.Fitting.{type_of, value_fits};
ghost use Rattle.mpy_tree.specs.Operations.{fits, number};
ghost use Rattle.mpy_tree.specs.Printable.{ArePrintable};
ghost use Rattle.bit_words.specs.Results.{IsWordIn};
ghost use Rattle.bit_words.specs.Words.{int_of, nat_of, nat_read};
ghost use Rattle.sym_values.specs.Constants.{padded, zero_of};
ghost use Rattle.sym_values.specs.Forms.{form_for, IntForm};
ghost use Rattle.sym_values.specs.Reading.{read, sure, OutcomeReads};
ghost use Rattle.sym_values.specs.Results.{AreWordsIn, IsOutcomeIn, IsValueIn};

use crate::value::{SymOutcome, SymValue};
use bit_words::NoMemory;
use bit_words::bits::Bits;
use bit_words::logic::Logic;
use bit_words::number::number_word;
use bit_words::word::Word;
use bit_words::words::Words;
use mpy_tree::{Chars, Ints, Limits, Ty, Value};
use std::alloc::Global;

/// A number without a sign, as so many constant bits.
#[tactic(auto, using(crate::proofs::Held::parts))]
fn digits<L: Logic>(
    alloc: Global,
    g: &L,
    number: usize,
    count: usize,
) -> Result<Word<L::Bit>, NoMemory>
    requires { number < 2 ^ count }
    ensures made { IfOk result (λ r. IsWordIn L.owns g.now count r) }
    ensures value { IfOk result (λ r. (vs : List Bool) →
        nat_read L.reads g.now vs r ≡ number) }
{
    let mut bits = Word::new(alloc);
    let mut rest = number;
    for _ in 0..count {
        let digit = g.constant(rest % 2 == 1);
        bits.push(digit)?;
        rest /= 2;
    }
    Ok(bits)
}

/// A length as constant bits.
#[tactic(auto, using(crate::proofs::Held::parts))]
pub fn length_bits<L: Logic>(alloc: Global, g: &L, number: usize) -> Result<Bits<L::Bit>, NoMemory>
    requires { number < 2 ^ 5 }
    ensures made { IfOk result (λ r. IsWordIn L.owns g.now 5 r) }
    ensures value { IfOk result (λ r. (vs : List Bool) → nat_read L.reads g.now vs r ≡ number) }
{
    let word = digits(alloc, g, number, 5)?;
    Ok(Bits::from_vec(word.into_vec()))
}

/// The number at a place, or 0 past the end.
fn number_at(numbers: &[i32], i: usize) -> i32
    ensures { result ≡ get_or numbers.now i (pos 0) }
{
    if i < numbers.len() { numbers[i] } else { 0 }
}

/// The character at a place, or 0 past the end.
fn character_at(characters: &[u8], i: usize) -> usize
    requires { ArePrintable characters.now }
    ensures value { result ≡ get_or characters.now i 0 }
    ensures digits { result < 2 ^ 7 }
{
    if i < characters.len() {
        characters[i] as usize
    } else {
        0
    }
}

/// The items of a list of these numbers, which is padded with 0.
#[tactic(auto, using(crate::proofs::Held::parts))]
fn number_items<L: Logic>(
    alloc: Global,
    g: &L,
    limits: &Limits,
    numbers: &[i32],
) -> Result<Words<L::Bit>, NoMemory>
    requires { list_all (fits limits.now) numbers.now ≡ true }
    ensures made { IfOk result (λ r.
        AreWordsIn L.owns g.now (replicate limits.now.cap limits.now.width) r) }
    ensures value { IfOk result (λ r. (vs : List Bool) →
        map int_of (map (map (L.reads g.now vs)) r)
        ≡ padded (pos 0) limits.now.cap numbers.now) }
{
    let mut items = Words::new(alloc);
    for i in 0..limits.cap as usize {
        let number = number_at(numbers, i);
        let item = number_word(alloc, g, number, limits.width as usize)?;
        items.push(item.word)?;
    }
    Ok(items)
}

/// The items of a text of these characters, which is padded with 0.
#[tactic(auto, using(crate::proofs::Held::parts))]
fn character_items<L: Logic>(
    alloc: Global,
    g: &L,
    limits: &Limits,
    characters: &[u8],
) -> Result<Words<L::Bit>, NoMemory>
    requires { ArePrintable characters.now }
    ensures made { IfOk result (λ r. AreWordsIn L.owns g.now (replicate limits.now.cap 7) r) }
    ensures value { IfOk result (λ r. (vs : List Bool) →
        map nat_of (map (map (L.reads g.now vs)) r)
        ≡ padded 0 limits.now.cap characters.now) }
{
    let mut items = Words::new(alloc);
    for i in 0..limits.cap as usize {
        let character = character_at(characters, i);
        let item = digits(alloc, g, character, 7)?;
        items.push(item)?;
    }
    Ok(items)
}

/// A value that fits the limits, as constant bits.
#[tactic(auto, using(crate::proofs::Held::parts))]
pub fn constant_value<L: Logic>(
    alloc: Global,
    g: &L,
    limits: &Limits,
    value: &Value,
) -> Result<SymValue<L::Bit>, NoMemory>
    requires { value_fits limits.now value.now ≡ true }
    ensures made { IfOk result (λ r.
        IsValueIn L.owns g.now (form_for limits.now (type_of value.now)) r) }
    ensures value { IfOk result (λ r. (vs : List Bool) →
        read (L.reads g.now vs) r ≡ sure value.now) }
{
    match value {
        Value::Int(number) => {
            let number = number_word(alloc, g, *number, limits.width as usize)?;
            Ok(SymValue::Int(number.word))
        }
        Value::Bool(truth) => Ok(SymValue::Bool(g.constant(*truth))),
        Value::List(numbers) => {
            let len = length_bits(alloc, g, numbers.len())?;
            let items = number_items(alloc, g, limits, numbers.items())?;
            Ok(SymValue::List { len, items })
        }
        Value::Text(characters) => {
            let len = length_bits(alloc, g, characters.len())?;
            let items = character_items(alloc, g, limits, characters.bytes())?;
            Ok(SymValue::Text { len, items })
        }
    }
}

/// A given number, or Overflow where it leaves the width.
#[tactic(auto, using(crate::proofs::Held::parts))]
pub fn literal<L: Logic>(
    alloc: Global,
    g: &L,
    limits: &Limits,
    given: i32,
) -> Result<SymOutcome<L::Bit>, NoMemory>
    ensures made { IfOk result (λ r. IsOutcomeIn L.owns g.now (IntForm limits.now.width) r) }
    ensures value { IfOk result (λ r. (vs : List Bool) →
        OutcomeReads (L.reads g.now vs) r (number limits.now given)) }
{
    let word = number_word(alloc, g, given, limits.width as usize)?;
    Ok(SymOutcome {
        value: SymValue::Int(word.word),
        fault: word.over,
    })
}

/// A value of a type: 0, False, or what is empty.
pub fn zero_value<L: Logic>(
    alloc: Global,
    g: &L,
    limits: &Limits,
    ty: Ty,
) -> Result<SymValue<L::Bit>, NoMemory>
    ensures made { IfOk result (λ r. IsValueIn L.owns g.now (form_for limits.now ty) r) }
    ensures value { IfOk result (λ r. (vs : List Bool) →
        read (L.reads g.now vs) r ≡ sure (zero_of ty)) }
{
    let zero = match ty {
        Ty::Int => Value::Int(0),
        Ty::Bool => Value::Bool(false),
        Ty::List => Value::List(Ints::from_vec(Vec::new(alloc))),
        Ty::Text => Value::Text(Chars::from_vec(Vec::new(alloc))),
    };
    let value = constant_value(alloc, g, limits, &zero)?;
    Ok(value)
}
