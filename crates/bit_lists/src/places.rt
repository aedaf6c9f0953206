//! Places that signed numbers say.

ghost use Rattle.std.specs.Prelude.{◌≡◌, ◌<◌, ◌≤◌, ◌+◌, Bool, List, length, pos, IfOk};
ghost use Rattle.bit_words.specs.Logic.{Extends, OwnsAll};
ghost use Rattle.bit_words.specs.Results.{IsWordIn};
ghost use Rattle.bit_words.specs.Words.{int_read, nat_read};
ghost use Rattle.bit_lists.specs.Places.{from_front};

use crate::NoMemory;
use bit_words::bits::Bits;
use bit_words::bitwise::{choose_word, zeros};
use bit_words::logic::Logic;
use bit_words::magnitude::sign_of;
use bit_words::resize::{resize, signed_word};
use bit_words::sums::add;
use bit_words::word::Word;
use std::alloc::Global;

/// How many bits more a word has than an index, so that it also holds a length.
const MORE: usize = 6;

/// An index in a wider word.
#[tactic(auto, using(crate::proofs::Held::steps))]
pub fn wide_index<L: Logic>(g: &mut L, index: &Word<L::Bit>) -> Result<Word<L::Bit>, NoMemory>
    requires some { 0 < length index.now }
    requires few { length index.now ≤ 16 }
    requires index { OwnsAll L.owns g.old index.now }
    ensures extends { Extends L.owns L.reads L.count g.old g.new }
    ensures made { IfOk result (λ r. IsWordIn L.owns g.new (length index.now + 6) r) }
    ensures value { IfOk result (λ r. (vs : List Bool) →
        int_read L.reads g.new vs r ≡ int_read L.reads g.old vs index.now) }
{
    let wide = resize(g, index, index.len() + MORE)?;
    Ok(wide.word)
}

/// A length as a word of at least 6 bits.
#[tactic(auto, using(crate::proofs::Held::steps))]
pub fn wide_length<L: Logic>(
    alloc: Global,
    g: &mut L,
    len: &Bits<L::Bit>,
    width: usize,
) -> Result<Word<L::Bit>, NoMemory>
    requires wide { 6 ≤ width }
    requires len { IsWordIn L.owns g.old 5 len.now }
    ensures extends { Extends L.owns L.reads L.count g.old g.new }
    ensures made { IfOk result (λ r. IsWordIn L.owns g.new width r) }
    ensures value { IfOk result (λ r. (vs : List Bool) →
        int_read L.reads g.new vs r ≡ pos (nat_read L.reads g.old vs len.now)) }
{
    let number = signed_word(alloc, g, len.as_slice(), width)?;
    Ok(number.word)
}

/// The place from the front that an index says: below zero the length is added.
#[tactic(auto, using(crate::proofs::Held::steps))]
pub fn place<L: Logic>(
    alloc: Global,
    g: &mut L,
    index: &Word<L::Bit>,
    len: &Bits<L::Bit>,
) -> Result<Word<L::Bit>, NoMemory>
    requires some { 0 < length index.now }
    requires few { length index.now ≤ 16 }
    requires index { OwnsAll L.owns g.old index.now }
    requires len { IsWordIn L.owns g.old 5 len.now }
    ensures extends { Extends L.owns L.reads L.count g.old g.new }
    ensures made { IfOk result (λ r. IsWordIn L.owns g.new (length index.now + 6) r) }
    ensures value { IfOk result (λ r. (vs : List Bool) →
        int_read L.reads g.new vs r
        ≡ from_front (int_read L.reads g.old vs index.now) (nat_read L.reads g.old vs len.now)) }
{
    let width = index.len() + MORE;
    let wide = wide_index(g, index)?;
    let number = wide_length(alloc, g, len, width)?;
    let nothing = zeros(alloc, g, width)?;
    let negative = sign_of(g, index);
    let added = choose_word(alloc, g, negative, &number, &nothing)?;
    let sum = add(alloc, g, &wide, &added)?;
    Ok(sum.word)
}
