//! Printed values of any type as words of one width.

ghost use Rattle.std.specs.Prelude.{◌≡◌, ◌≤◌, ◌+◌, ◌-◌, ◌*◌, ◌++◌, Bool, List, length, map, take};
ghost use Rattle.std.specs.Prelude.{drop, replicate, IfOk, OnOk};
ghost use Rattle.mpy_tree.specs.declared.limits.Limits.{Limits as AnyLimits};
ghost use Rattle.mpy_tree.specs.declared.typing.Ty.{Ty as AnyType};
ghost use Rattle.bit_words.specs.Results.{IsWordIn};
ghost use Rattle.bit_words.specs.Logic.{OwnsAll};
ghost use Rattle.sym_values.specs.Forms.{bits_of, form_for, form_of, joined};
ghost use Rattle.sym_values.specs.Printed.{cut, kind_of, print_width, room, value_within};
ghost use Rattle.sym_values.specs.Printed.{word_spelled};
ghost use Rattle.sym_values.specs.Reading.{map_bits, read};

use crate::value::SymValue;
use bit_words::NoMemory;
use bit_words::bits::Bits;
use bit_words::logic::Logic;
use bit_words::word::Word;
use bit_words::words::Words;
use mpy_tree::{Limits, Ty};
use std::alloc::Global;

/// How many bits a printed value has: two for its type, and room for the largest one.
pub fn print_width(l: &Limits) -> usize
    ensures { result ≡ print_width l.now }
{
    let list = l.cap as usize * l.width as usize + 5;
    let text = l.cap as usize * 7 + 5;
    2 + list.max(text)
}

/// The number of a type, from 0 in the order Int, Bool, List, Text.
pub fn kind_of(ty: Ty) -> u32
    ensures { result ≡ kind_of ty }
{
    match ty {
        Ty::Int => 0,
        Ty::Bool => 1,
        Ty::List => 2,
        Ty::Text => 3,
    }
}

// The type of a value as bits.
fn type_of<B: Copy>(value: &SymValue<B>) -> Ty
    ensures { (l : AnyLimits) (t : AnyType) → form_of value.now ≡ form_for l t → result ≡ t }
{
    match value {
        SymValue::Int(_) => Ty::Int,
        SymValue::Bool(_) => Ty::Bool,
        SymValue::List { .. } => Ty::List,
        SymValue::Text { .. } => Ty::Text,
    }
}

// Adds the bits of words.
fn push_words<B: Copy>(out: &mut Word<B>, words: &Words<B>) -> Result<(), NoMemory>
    ensures { OnOk result (out.new ≡ out.old ++ joined words.now) }
{
    for i in 0..words.len() {
        let word = words.at(i);
        push_bits(out, word.as_slice())?;
    }
    Ok(())
}

// Adds bits.
fn push_bits<B: Copy>(out: &mut Word<B>, bits: &[B]) -> Result<(), NoMemory>
    ensures { OnOk result (out.new ≡ out.old ++ bits.now) }
{
    for bit in bits {
        out.push(*bit)?;
    }
    Ok(())
}

// Adds the bits of a value, the lowest places first.
fn push_value<B: Copy>(out: &mut Word<B>, value: &SymValue<B>) -> Result<(), NoMemory>
    ensures { OnOk result (out.new ≡ out.old ++ bits_of value.now) }
{
    match value {
        SymValue::Int(word) => push_bits(out, word.as_slice()),
        SymValue::Bool(bit) => out.push(*bit),
        SymValue::List { len, items } => {
            push_bits(out, len.as_slice())?;
            push_words(out, items)
        }
        SymValue::Text { len, items } => {
            push_bits(out, len.as_slice())?;
            push_words(out, items)
        }
    }
}

// Adds a bit as often as a width asks for it.
fn pad<B: Copy>(out: &mut Word<B>, bit: B, width: usize) -> Result<(), NoMemory>
    requires { length out.old ≤ width }
    ensures { OnOk result (out.new ≡ out.old ++ replicate (width - length out.old) bit) }
{
    for _ in out.len()..width {
        out.push(bit)?;
    }
    Ok(())
}

/// A value as the word of a printed value: the number of its type in two bits, its bits, and then
/// zeros.
pub fn printed_word<L: Logic>(
    alloc: Global,
    g: &L,
    limits: &Limits,
    value: &SymValue<L::Bit>,
) -> Result<Word<L::Bit>, NoMemory>
    requires owned { OwnsAll L.owns g.now (bits_of value.now) }
    requires typed { (t : AnyType) × (form_of value.now ≡ form_for limits.now t) }
    ensures made { IfOk result (λ r. IsWordIn L.owns g.now (print_width limits.now) r) }
    ensures value { IfOk result (λ r. (vs : List Bool) →
        word_spelled limits.now (map (L.reads g.now vs) r)
        ≡ read (L.reads g.now vs) value.now) }
{
    let kind = kind_of(type_of(value));
    let mut word = Word::new(alloc);
    word.push(g.constant(kind % 2 == 1))?;
    word.push(g.constant(kind / 2 == 1))?;
    push_value(&mut word, value)?;
    pad(&mut word, g.constant(false), print_width(limits))?;
    Ok(word)
}

// So many bits from a place on, as a word.
fn word_at<B: Copy>(
    alloc: Global,
    bits: &[B],
    from: usize,
    count: usize,
) -> Result<Word<B>, NoMemory>
    requires { from + count ≤ length bits.now }
    ensures { IfOk result (λ r. r ≡ take count (drop from bits.now)) }
{
    let word = Vec::from_slice(alloc, &bits[from..from + count])?;
    Ok(Word::from_vec(word))
}

// So many words of a width from a place on.
fn words_at<B: Copy>(
    alloc: Global,
    bits: &[B],
    from: usize,
    width: usize,
    count: usize,
) -> Result<Words<B>, NoMemory>
    requires { from + count * width ≤ length bits.now }
    ensures { IfOk result (λ r. r ≡ cut width count (drop from bits.now)) }
{
    let mut words = Words::new(alloc);
    for i in 0..count {
        words.push(word_at(alloc, bits, from + i * width, width)?)?;
    }
    Ok(words)
}

/// The value of a type that the bits of a printed value have, without those of its kind.
pub fn value_within<B: Copy>(
    alloc: Global,
    limits: &Limits,
    ty: Ty,
    bits: &[B],
) -> Result<SymValue<B>, NoMemory>
    requires { print_width limits.now ≤ length bits.now + 2 }
    ensures form { IfOk result (λ r. form_of r ≡ form_for limits.now ty) }
    ensures bits { IfOk result (λ r. bits_of r ≡ take (room limits.now ty) bits.now) }
    ensures value { IfOk result (λ r. (rd : B → Bool) →
        map_bits rd r ≡ value_within limits.now ty (map rd bits.now)) }
{
    let width = limits.width as usize;
    let cap = limits.cap as usize;
    match ty {
        Ty::Int => Ok(SymValue::Int(word_at(alloc, bits, 0, width)?)),
        Ty::Bool => Ok(SymValue::Bool(bits[0])),
        Ty::List => {
            let len = Bits::from_vec(word_at(alloc, bits, 0, 5)?.into_vec());
            let items = words_at(alloc, bits, 5, width, cap)?;
            Ok(SymValue::List { len, items })
        }
        Ty::Text => {
            let len = Bits::from_vec(word_at(alloc, bits, 0, 5)?.into_vec());
            let items = words_at(alloc, bits, 5, 7, cap)?;
            Ok(SymValue::Text { len, items })
        }
    }
}
