//! The values that truth values spell.

ghost use Rattle.std.specs.Prelude.{◌≡◌, ◌*◌, ◌+◌, ◌<◌, ◌≤◌, ◌&&◌, IfOk, length, map, Some, None};
ghost use Rattle.std.specs.Prelude.{if◌then◌else◌, nat_le};
ghost use Rattle.bit_words.specs.Later.{values_from};
ghost use Rattle.bit_words.specs.Words.{int_of, nat_of};
ghost use Rattle.input_space.specs.ValueBits.{all_bits_for, bits_for, printable, value_at};
ghost use Rattle.input_space.specs.ValueBits.{values_at, words_from};

use crate::numbers::{integer, natural};
use bit_words::NoMemory;
use clause_base::truths::Truths;
use mpy_tree::{Chars, Ints, Limits, Ty, Value, Values};
use std::alloc::Global;

/// How many bits a character has.
const CHARACTER: usize = 7;

/// How many bits a length has.
const LENGTH: usize = 5;

// The numbers that so many words of a width spell.
fn integers(
    alloc: Global,
    truths: &Truths,
    start: usize,
    width: usize,
    count: usize,
) -> Result<Ints, NoMemory>
    requires some { 0 < width }
    requires short { width ≤ 16 }
    requires within { start + count * width ≤ length truths.now }
    requires few { length truths.now ≤ 2147483647 }
    ensures { IfOk result (λ r. r ≡ map int_of (words_from truths.now start width count)) }
{
    let mut numbers = Vec::new(alloc);
    let mut place = start;
    for _ in 0..count {
        numbers.push(integer(truths, place, width))?;
        place += width;
    }
    Ok(Ints::from_vec(numbers))
}

// The character from 32 to 126 that truth values spell, if they do.
fn character(truths: &Truths, start: usize) -> Option<u8>
    requires within { start + CHARACTER ≤ length truths.now }
    requires few { length truths.now ≤ 2147483647 }
    ensures { result ≡ (if nat_le 32 (nat_of (values_from truths.now start CHARACTER))
        && nat_le (nat_of (values_from truths.now start CHARACTER)) 126
        then Some (nat_of (values_from truths.now start CHARACTER)) else None) }
{
    let code = natural(truths, start, CHARACTER);
    if 32 <= code && code <= 126 {
        Some(code as u8)
    } else {
        None
    }
}

// The text that so many characters spell, if each of them is one.
fn characters(
    alloc: Global,
    truths: &Truths,
    start: usize,
    count: usize,
) -> Result<Option<Chars>, NoMemory>
    requires within { start + count * CHARACTER ≤ length truths.now }
    requires few { length truths.now ≤ 2147483647 }
    ensures { IfOk result (λ o. o ≡ printable (map nat_of
        (words_from truths.now start CHARACTER count))) }
{
    let mut text = Vec::new(alloc);
    let mut place = start;
    for _ in 0..count {
        match character(truths, place) {
            None => return Ok(None),
            Some(code) => text.push(code)?,
        }
        place += CHARACTER;
    }
    Ok(Some(Chars::from_vec(text)))
}

/// How many bits a value of the type has.
pub fn bits_for(limits: &Limits, ty: Ty) -> usize
    ensures { result ≡ bits_for limits.now ty }
{
    match ty {
        Ty::Int => limits.width as usize,
        Ty::Bool => 1,
        Ty::List => LENGTH + limits.cap as usize * limits.width as usize,
        Ty::Text => LENGTH + limits.cap as usize * CHARACTER,
    }
}

// The value of a type from a place on, if one is spelled.
fn decode_value(
    alloc: Global,
    limits: &Limits,
    ty: Ty,
    truths: &Truths,
    start: usize,
) -> Result<Option<Value>, NoMemory>
    requires within { start + bits_for limits.now ty ≤ length truths.now }
    requires few { length truths.now ≤ 2147483647 }
    ensures { IfOk result (λ o. o ≡ value_at limits.now ty truths.now start) }
{
    let width = limits.width as usize;
    match ty {
        Ty::Int => Ok(Some(Value::Int(integer(truths, start, width)))),
        Ty::Bool => Ok(Some(Value::Bool(truths.at(start)))),
        Ty::List => {
            let count = natural(truths, start, LENGTH);
            if count > limits.cap {
                return Ok(None);
            }
            let items = integers(alloc, truths, start + LENGTH, width, count as usize)?;
            Ok(Some(Value::List(items)))
        }
        Ty::Text => {
            let count = natural(truths, start, LENGTH);
            if count > limits.cap {
                return Ok(None);
            }
            match characters(alloc, truths, start + LENGTH, count as usize)? {
                None => Ok(None),
                Some(text) => Ok(Some(Value::Text(text))),
            }
        }
    }
}

/// The values of these types that truth values spell from a place on, if they spell some: where a
/// length is above the limit, or a character within its length is none from 32 to 126, they don't.
pub fn decode_values(
    alloc: Global,
    limits: &Limits,
    types: &[Ty],
    truths: &Truths,
    start: usize,
) -> Result<Option<Values>, NoMemory>
    requires within { start + all_bits_for limits.now types.now ≤ length truths.now }
    requires few { length truths.now ≤ 2147483647 }
    ensures { IfOk result (λ o. o ≡ values_at limits.now types.now truths.now start) }
{
    let mut values = Vec::new(alloc);
    let mut place = start;
    for ty in types {
        match decode_value(alloc, limits, *ty, truths, place)? {
            None => return Ok(None),
            Some(value) => values.push(value)?,
        }
        place += bits_for(limits, *ty);
    }
    Ok(Some(Values::from_vec(values)))
}
