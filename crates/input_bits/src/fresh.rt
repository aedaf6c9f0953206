//! New variables for the values of an input.

ghost use Rattle.std.specs.Prelude.{◌≡◌, ◌*◌, Bool, List, map, replicate, OnOk, IfOk};
ghost use Rattle.bit_words.specs.Logic.{Keeps, OwnsAll};
ghost use Rattle.bit_words.specs.Results.{IsWordIn};
ghost use Rattle.bit_words.specs.Later.{AddsVariables, values_from};
ghost use Rattle.input_space.specs.ValueBits.{all_bits_for, bits_for, words_from};
ghost use Rattle.input_bits.specs.Layout.{all_laid_out, laid_out};
ghost use Rattle.sym_values.specs.Forms.{form_for, forms_of, values_bits};
ghost use Rattle.sym_values.specs.Reading.{map_bits};
ghost use Rattle.sym_values.specs.Results.{AreWordsIn, IsValueIn};

use bit_words::NoMemory;
use bit_words::inputs::fresh_bits;
use bit_words::logic::Variables;
use bit_words::word::Word;
use bit_words::words::Words;
use mpy_tree::{Limits, Ty};
use std::alloc::Global;
use sym_values::{SymValue, SymValues};

// A word of new variables.
fn fresh_word<V: Variables>(
    alloc: Global,
    g: &mut V,
    width: usize,
) -> Result<Word<V::Bit>, NoMemory>
    ensures keeps { Keeps V.owns V.reads g.old g.new }
    ensures adds { OnOk result (AddsVariables V.owns V.reads V.count width g.old g.new) }
    ensures made { IfOk result (λ r. IsWordIn V.owns g.new width r) }
    ensures value { IfOk result (λ r. (vs : List Bool) →
        map (V.reads g.new vs) r ≡ values_from vs (V.count g.old) width) }
{
    let bits = fresh_bits(alloc, g, width)?;
    Ok(Word::from_vec(bits.into_vec()))
}

// So many words of new variables.
fn fresh_words<V: Variables>(
    alloc: Global,
    g: &mut V,
    count: usize,
    width: usize,
) -> Result<Words<V::Bit>, NoMemory>
    ensures keeps { Keeps V.owns V.reads g.old g.new }
    ensures adds { OnOk result (AddsVariables V.owns V.reads V.count (count * width) g.old g.new) }
    ensures made { IfOk result (λ r. AreWordsIn V.owns g.new (replicate count width) r) }
    ensures value { IfOk result (λ r. (vs : List Bool) →
        map (map (V.reads g.new vs)) r ≡ words_from vs (V.count g.old) width count) }
{
    let mut words = Words::new(alloc);
    for _ in 0..count {
        let word = fresh_word(alloc, g, width)?;
        words.push(word)?;
    }
    Ok(words)
}

// A value of a type, whose bits are new variables.
fn fresh_value<V: Variables>(
    alloc: Global,
    g: &mut V,
    limits: &Limits,
    ty: Ty,
) -> Result<SymValue<V::Bit>, NoMemory>
    ensures keeps { Keeps V.owns V.reads g.old g.new }
    ensures adds { OnOk result (AddsVariables V.owns V.reads V.count (bits_for limits.now ty)
        g.old g.new) }
    ensures made { IfOk result (λ r. IsValueIn V.owns g.new (form_for limits.now ty) r) }
    ensures value { IfOk result (λ r. (vs : List Bool) →
        map_bits (V.reads g.new vs) r ≡ laid_out limits.now ty vs (V.count g.old)) }
{
    match ty {
        Ty::Int => {
            let word = fresh_word(alloc, g, limits.width as usize)?;
            Ok(SymValue::Int(word))
        }
        Ty::Bool => {
            let bit = g.variable()?;
            Ok(SymValue::Bool(bit))
        }
        Ty::List => {
            let len = fresh_bits(alloc, g, 5)?;
            let items = fresh_words(alloc, g, limits.cap as usize, limits.width as usize)?;
            Ok(SymValue::List { len, items })
        }
        Ty::Text => {
            let len = fresh_bits(alloc, g, 5)?;
            let items = fresh_words(alloc, g, limits.cap as usize, 7)?;
            Ok(SymValue::Text { len, items })
        }
    }
}

/// Values of these types, one after another, whose bits are new variables: they read as the values
/// that this part of the truth values spells.
pub fn fresh_values<V: Variables>(
    alloc: Global,
    g: &mut V,
    limits: &Limits,
    types: &[Ty],
) -> Result<SymValues<V::Bit>, NoMemory>
    ensures keeps { Keeps V.owns V.reads g.old g.new }
    ensures adds { OnOk result (AddsVariables V.owns V.reads V.count
        (all_bits_for limits.now types.now) g.old g.new) }
    ensures owned { IfOk result (λ r. OwnsAll V.owns g.new (values_bits r)) }
    ensures forms { IfOk result (λ r. forms_of r ≡ map (form_for limits.now) types.now) }
    ensures value { IfOk result (λ r. (vs : List Bool) → map (map_bits (V.reads g.new vs)) r
        ≡ all_laid_out limits.now types.now vs (V.count g.old)) }
{
    let mut values = SymValues::new(alloc);
    for ty in types {
        let value = fresh_value(alloc, g, limits, *ty)?;
        values.push(value)?;
    }
    Ok(values)
}
