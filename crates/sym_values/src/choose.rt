//! One of two values, by a bit.

ghost use Rattle.std.specs.Prelude.{◌≡◌, Bool, List, length, map, if◌then◌else◌, IfOk};
ghost use Rattle.bit_words.specs.Logic.{Extends, OwnsAll};
ghost use Rattle.bit_words.specs.Results.{IsWordIn};
ghost use Rattle.sym_values.specs.Forms.{bits_of, form_of, joined, lengths};
ghost use Rattle.sym_values.specs.Reading.{map_bits};
ghost use Rattle.sym_values.specs.Results.{AreWordsIn, IsValueIn};

use crate::value::SymValue;
use bit_words::NoMemory;
use bit_words::bits::Bits;
use bit_words::bitwise::{choose_bits, choose_word};
use bit_words::logic::Logic;
use bit_words::words::Words;
use std::alloc::Global;

/// One list of words where a bit is true, and another with words of the same widths where it isn't.
#[tactic(auto, using(crate::proofs::Held::parts))]
pub fn choose_words<L: Logic>(
    alloc: Global,
    g: &mut L,
    test: L::Bit,
    yes: &Words<L::Bit>,
    no: &Words<L::Bit>,
) -> Result<Words<L::Bit>, NoMemory>
    requires test { L.owns g.old test }
    requires alike { lengths no.now ≡ lengths yes.now }
    requires yes { OwnsAll L.owns g.old (joined yes.now) }
    requires no { OwnsAll L.owns g.old (joined no.now) }
    ensures extends { Extends L.owns L.reads L.count g.old g.new }
    ensures made { IfOk result (λ r. AreWordsIn L.owns g.new (lengths yes.now) r) }
    ensures value { IfOk result (λ r. (vs : List Bool) →
        map (map (L.reads g.new vs)) r
        ≡ (if L.reads g.old vs test then map (map (L.reads g.old vs)) yes.now
        else map (map (L.reads g.old vs)) no.now)) }
{
    let mut chosen = Words::new(alloc);
    for i in 0..yes.len() {
        let first = yes.at(i);
        let second = no.at(i);
        let word = choose_word(alloc, g, test, first, second)?;
        chosen.push(word)?;
    }
    Ok(chosen)
}

/// One length where a bit is true, and another of as many bits where it isn't.
#[tactic(auto, using(crate::proofs::Held::parts))]
fn choose_length<L: Logic>(
    alloc: Global,
    g: &mut L,
    test: L::Bit,
    yes: &Bits<L::Bit>,
    no: &Bits<L::Bit>,
) -> Result<Bits<L::Bit>, NoMemory>
    requires test { L.owns g.old test }
    requires alike { length no.now ≡ length yes.now }
    requires yes { OwnsAll L.owns g.old yes.now }
    requires no { OwnsAll L.owns g.old no.now }
    ensures extends { Extends L.owns L.reads L.count g.old g.new }
    ensures made { IfOk result (λ r. IsWordIn L.owns g.new (length yes.now) r) }
    ensures value { IfOk result (λ r. (vs : List Bool) →
        map (L.reads g.new vs) r
        ≡ (if L.reads g.old vs test then map (L.reads g.old vs) yes.now
        else map (L.reads g.old vs) no.now)) }
{
    let chosen = choose_bits(alloc, g, test, yes.as_slice(), no.as_slice())?;
    Ok(chosen)
}

/// One value where a bit is true, and another of its form where it isn't.
#[tactic(auto, using(crate::proofs::Held::parts))]
pub fn choose_value<L: Logic>(
    alloc: Global,
    g: &mut L,
    test: L::Bit,
    yes: &SymValue<L::Bit>,
    no: &SymValue<L::Bit>,
) -> Result<SymValue<L::Bit>, NoMemory>
    requires test { L.owns g.old test }
    requires alike { form_of no.now ≡ form_of yes.now }
    requires yes { OwnsAll L.owns g.old (bits_of yes.now) }
    requires no { OwnsAll L.owns g.old (bits_of no.now) }
    ensures extends { Extends L.owns L.reads L.count g.old g.new }
    ensures made { IfOk result (λ r. IsValueIn L.owns g.new (form_of yes.now) r) }
    ensures value { IfOk result (λ r. (vs : List Bool) →
        map_bits (L.reads g.new vs) r
        ≡ (if L.reads g.old vs test then map_bits (L.reads g.old vs) yes.now
        else map_bits (L.reads g.old vs) no.now)) }
{
    match (yes, no) {
        (SymValue::Int(a), SymValue::Int(b)) => {
            let word = choose_word(alloc, g, test, a, b)?;
            Ok(SymValue::Int(word))
        }
        (SymValue::Bool(a), SymValue::Bool(b)) => {
            let bit = g.choose(test, *a, *b)?;
            Ok(SymValue::Bool(bit))
        }
        (SymValue::List { len: m, items: xs }, SymValue::List { len: n, items: ys }) => {
            let len = choose_length(alloc, g, test, m, n)?;
            let items = choose_words(alloc, g, test, xs, ys)?;
            Ok(SymValue::List { len, items })
        }
        (SymValue::Text { len: m, items: xs }, SymValue::Text { len: n, items: ys }) => {
            let len = choose_length(alloc, g, test, m, n)?;
            let items = choose_words(alloc, g, test, xs, ys)?;
            Ok(SymValue::Text { len, items })
        }
        _ => unreachable!(),
    }
}
