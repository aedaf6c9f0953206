//! A number in another width.

ghost use Rattle.std.specs.Prelude.{◌≡◌, ◌+◌, ◌<◌, pos, Bool, List, length, IfOk};
ghost use Rattle.bit_words.specs.Logic.{Extends, OwnsAll};
ghost use Rattle.bit_words.specs.Results.{IsCheckedIn, IsWordIn};
ghost use Rattle.bit_words.specs.Words.{int_read, nat_read, Holds, OverflowsAs};

use crate::NoMemory;
use crate::checked::Checked;
use crate::gates::or;
use crate::logic::Logic;
use crate::magnitude::sign_of;
use crate::narrow::narrow;
use crate::word::Word;
use std::alloc::Global;

/// A word with so many bits more for the same number: its highest bit is repeated.
#[tactic(auto, using(crate::proofs::Kept::steps))]
fn widen<L: Logic>(g: &L, word: &Word<L::Bit>, more: usize) -> Result<Word<L::Bit>, NoMemory>
    requires some { 0 < length word.now }
    requires owned { OwnsAll L.owns g.now word.now }
    ensures made { IfOk result (λ r. IsWordIn L.owns g.now (length word.now + more) r) }
    ensures value { IfOk result (λ r. (vs : List Bool) →
        int_read L.reads g.now vs r ≡ int_read L.reads g.now vs word.now) }
{
    let sign = sign_of(g, word);
    let mut wide = word.copy()?;
    for _ in 0..more {
        wide.push(sign)?;
    }
    Ok(wide)
}

/// A word without its highest bits, so many, and whether its number leaves the width that is left.
#[tactic(auto, using(crate::proofs::Kept::steps))]
fn shrink<L: Logic>(
    g: &mut L,
    word: &Word<L::Bit>,
    less: usize,
) -> Result<Checked<L::Bit>, NoMemory>
    requires some { less < length word.now }
    requires owned { OwnsAll L.owns g.old word.now }
    ensures extends { Extends L.owns L.reads L.count g.old g.new }
    ensures owned { IfOk result (λ r. OwnsAll L.owns g.new r.word) }
    ensures owned_over { IfOk result (λ r. L.owns g.new r.over) }
    ensures width { IfOk result (λ r. length r.word + less ≡ length word.now) }
    ensures over { IfOk result (λ r. (vs : List Bool) →
        OverflowsAs (L.reads g.new vs r.over) (length r.word)
        (int_read L.reads g.old vs word.now)) }
    ensures value { IfOk result (λ r. (vs : List Bool) →
        Holds (int_read L.reads g.new vs r.word) (length r.word)
        (int_read L.reads g.old vs word.now)) }
{
    let mut number = word.copy()?;
    let mut over = g.constant(false);
    for _ in 0..less {
        let width = number.len() - 1;
        let low = narrow(g, &number, width)?;
        over = or(g, over, low.over)?;
        number = low.word;
    }
    Ok(Checked { word: number, over })
}

/// A word's number in another width, and whether it leaves that.
#[tactic(auto, using(crate::proofs::Kept::steps))]
pub fn resize<L: Logic>(
    g: &mut L,
    word: &Word<L::Bit>,
    width: usize,
) -> Result<Checked<L::Bit>, NoMemory>
    requires some { 0 < length word.now }
    requires wide { 0 < width }
    requires owned { OwnsAll L.owns g.old word.now }
    ensures extends { Extends L.owns L.reads L.count g.old g.new }
    ensures made { IfOk result (λ r. IsCheckedIn L.owns g.new width r.word r.over) }
    ensures over { IfOk result (λ r. (vs : List Bool) →
        OverflowsAs (L.reads g.new vs r.over) width (int_read L.reads g.old vs word.now)) }
    ensures value { IfOk result (λ r. (vs : List Bool) →
        Holds (int_read L.reads g.new vs r.word) width (int_read L.reads g.old vs word.now)) }
{
    let length = word.len();
    if width < length {
        let small = shrink(g, word, length - width)?;
        return Ok(small);
    }
    let over = g.constant(false);
    let word = widen(g, word, width - length)?;
    Ok(Checked { word, over })
}

/// The number of a list of bits without a sign as a word of a width, and whether it leaves that.
#[tactic(auto, using(crate::proofs::Kept::steps))]
pub fn signed_word<L: Logic>(
    alloc: Global,
    g: &mut L,
    bits: &[L::Bit],
    width: usize,
) -> Result<Checked<L::Bit>, NoMemory>
    requires wide { 0 < width }
    requires owned { OwnsAll L.owns g.old bits.now }
    ensures extends { Extends L.owns L.reads L.count g.old g.new }
    ensures made { IfOk result (λ r. IsCheckedIn L.owns g.new width r.word r.over) }
    ensures over { IfOk result (λ r. (vs : List Bool) →
        OverflowsAs (L.reads g.new vs r.over) width (pos (nat_read L.reads g.old vs bits.now))) }
    ensures value { IfOk result (λ r. (vs : List Bool) →
        Holds (int_read L.reads g.new vs r.word) width (pos (nat_read L.reads g.old vs bits.now))) }
{
    let sign = g.constant(false);
    let mut word = Word::from_vec(Vec::from_slice(alloc, bits)?);
    word.push(sign)?;
    let number = resize(g, &word, width)?;
    Ok(number)
}
