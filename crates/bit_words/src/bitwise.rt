//! Words made bit by bit.

ghost use Rattle.std.specs.Prelude.{◌≡◌, Bool, List, false, not, length, map, replicate, ◌&&◌};
ghost use Rattle.std.specs.Prelude.{if◌then◌else◌, IfOk};
ghost use Rattle.bit_words.specs.Bits.{differ};
ghost use Rattle.bit_words.specs.Logic.{Extends, OwnsAll};
ghost use Rattle.bit_words.specs.Results.{IsWordIn};

use crate::NoMemory;
use crate::bits::Bits;
use crate::logic::Logic;
use crate::word::Word;
use std::alloc::Global;

/// A word of bits that always read as false.
#[tactic(auto, using(crate::proofs::Kept::steps))]
pub fn zeros<L: Logic>(alloc: Global, g: &L, width: usize) -> Result<Word<L::Bit>, NoMemory>
    ensures made { IfOk result (λ r. IsWordIn L.owns g.now width r) }
    ensures value { IfOk result (λ r. (vs : List Bool) →
        map (L.reads g.now vs) r ≡ replicate width false) }
{
    let no = g.constant(false);
    let mut word = Word::new(alloc);
    for _ in 0..width {
        word.push(no)?;
    }
    Ok(word)
}

/// The opposites of a word's bits.
#[tactic(auto, using(crate::proofs::Kept::steps))]
pub fn flip<L: Logic>(alloc: Global, g: &L, a: &Word<L::Bit>) -> Result<Word<L::Bit>, NoMemory>
    requires { OwnsAll L.owns g.now a.now }
    ensures made { IfOk result (λ r. IsWordIn L.owns g.now (length a.now) r) }
    ensures value { IfOk result (λ r. (vs : List Bool) →
        map (L.reads g.now vs) r ≡ map not (map (L.reads g.now vs) a.now)) }
{
    let mut flipped = Word::new(alloc);
    for i in 0..a.len() {
        let bit = a.at(i);
        flipped.push(g.not(bit))?;
    }
    Ok(flipped)
}

/// The opposites of a word's bits where a bit is true, and the bits where it isn't.
#[tactic(auto, using(crate::proofs::Kept::steps))]
pub fn flip_where<L: Logic>(
    alloc: Global,
    g: &mut L,
    test: L::Bit,
    a: &Word<L::Bit>,
) -> Result<Word<L::Bit>, NoMemory>
    requires test { L.owns g.old test }
    requires word { OwnsAll L.owns g.old a.now }
    ensures extends { Extends L.owns L.reads L.count g.old g.new }
    ensures made { IfOk result (λ r. IsWordIn L.owns g.new (length a.now) r) }
    ensures value { IfOk result (λ r. (vs : List Bool) →
        map (L.reads g.new vs) r
        ≡ map (differ (L.reads g.old vs test)) (map (L.reads g.old vs) a.now)) }
{
    let mut flipped = Word::new(alloc);
    for i in 0..a.len() {
        let digit = a.at(i);
        let other = g.xor(test, digit)?;
        flipped.push(other)?;
    }
    Ok(flipped)
}

/// A word where a bit is true, and zeros where it isn't.
#[tactic(auto, using(crate::proofs::Kept::steps))]
pub fn mask<L: Logic>(
    alloc: Global,
    g: &mut L,
    test: L::Bit,
    a: &Word<L::Bit>,
) -> Result<Word<L::Bit>, NoMemory>
    requires test { L.owns g.old test }
    requires word { OwnsAll L.owns g.old a.now }
    ensures extends { Extends L.owns L.reads L.count g.old g.new }
    ensures made { IfOk result (λ r. IsWordIn L.owns g.new (length a.now) r) }
    ensures value { IfOk result (λ r. (vs : List Bool) →
        map (L.reads g.new vs) r
        ≡ map (λ b. L.reads g.old vs test && b) (map (L.reads g.old vs) a.now)) }
{
    let mut masked = Word::new(alloc);
    for i in 0..a.len() {
        let digit = a.at(i);
        let both = g.and(test, digit)?;
        masked.push(both)?;
    }
    Ok(masked)
}

/// One list of bits where a bit is true, and another of its length where it isn't.
#[tactic(auto, using(crate::proofs::Kept::steps))]
pub fn choose_bits<L: Logic>(
    alloc: Global,
    g: &mut L,
    test: L::Bit,
    yes: &[L::Bit],
    no: &[L::Bit],
) -> Result<Bits<L::Bit>, NoMemory>
    requires test { L.owns g.old test }
    requires alike { length no.now ≡ length yes.now }
    requires yes { OwnsAll L.owns g.old yes.now }
    requires no { OwnsAll L.owns g.old no.now }
    ensures extends { Extends L.owns L.reads L.count g.old g.new }
    ensures made { IfOk result (λ r. IsWordIn L.owns g.new (length yes.now) r) }
    ensures value { IfOk result (λ r. (vs : List Bool) →
        map (L.reads g.new vs) r
        ≡ (if L.reads g.old vs test then map (L.reads g.old vs) yes.now
        else map (L.reads g.old vs) no.now)) }
{
    let mut chosen = Bits::new(alloc);
    for i in 0..yes.len() {
        let first = yes[i];
        let second = no[i];
        let digit = g.choose(test, first, second)?;
        chosen.push(digit)?;
    }
    Ok(chosen)
}

/// One word where a bit is true, and another of its width where it isn't.
#[tactic(auto, using(crate::proofs::Kept::steps))]
pub fn choose_word<L: Logic>(
    alloc: Global,
    g: &mut L,
    test: L::Bit,
    yes: &Word<L::Bit>,
    no: &Word<L::Bit>,
) -> Result<Word<L::Bit>, NoMemory>
    requires test { L.owns g.old test }
    requires alike { length no.now ≡ length yes.now }
    requires yes { OwnsAll L.owns g.old yes.now }
    requires no { OwnsAll L.owns g.old no.now }
    ensures extends { Extends L.owns L.reads L.count g.old g.new }
    ensures made { IfOk result (λ r. IsWordIn L.owns g.new (length yes.now) r) }
    ensures value { IfOk result (λ r. (vs : List Bool) →
        map (L.reads g.new vs) r
        ≡ (if L.reads g.old vs test then map (L.reads g.old vs) yes.now
        else map (L.reads g.old vs) no.now)) }
{
    let chosen = choose_bits(alloc, g, test, yes.as_slice(), no.as_slice())?;
    Ok(Word::from_vec(chosen.into_vec()))
}
