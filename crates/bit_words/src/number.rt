//! Words of given numbers.

ghost use Rattle.std.specs.Prelude.{◌≡◌, ◌+◌, ◌*◌, ◌^◌, ◌<◌, Bool, List, length, IfOk};
ghost use Rattle.bit_words.specs.Logic.{OwnsAll};
ghost use Rattle.bit_words.specs.Results.{IsCheckedIn};
ghost use Rattle.bit_words.specs.Words.{int_read, is_negative, nat_read, Holds, OverflowsAs};
ghost use Rattle.bit_words.specs.Operations.{folded};

use crate::NoMemory;
use crate::bitwise::flip;
use crate::checked::Checked;
use crate::logic::Logic;
use crate::word::Word;
use std::alloc::Global;

fn is_below_zero(number: i32) -> bool
    ensures { result ≡ is_negative number }
{
    number < 0
}

/// The size of a number or, below zero, of its complement.
fn folded_size(number: i32) -> u32
    ensures { result ≡ folded number }
{
    if number < 0 {
        number.unsigned_abs() - 1
    } else {
        number.unsigned_abs()
    }
}

/// The lowest digits of a number, and what is left of it.
#[tactic(auto, using(crate::proofs::Kept::steps))]
fn low_digits<L: Logic>(
    alloc: Global,
    g: &L,
    number: u32,
    width: usize,
) -> Result<(Word<L::Bit>, u32), NoMemory>
    ensures owned { IfOk result (λ r. OwnsAll L.owns g.now r.0) }
    ensures width { IfOk result (λ r. length r.0 ≡ width) }
    ensures value { IfOk result (λ r. (vs : List Bool) →
        nat_read L.reads g.now vs r.0 + 2 ^ width * r.1 ≡ number) }
{
    let mut word = Word::new(alloc);
    let mut rest = number;
    for _ in 0..width {
        let digit = g.constant(rest % 2 == 1);
        word.push(digit)?;
        rest /= 2;
    }
    Ok((word, rest))
}

/// The word of a number. Whether it leaves the width is a constant.
#[tactic(auto, using(crate::proofs::Kept::steps))]
pub fn number_word<L: Logic>(
    alloc: Global,
    g: &L,
    number: i32,
    width: usize,
) -> Result<Checked<L::Bit>, NoMemory>
    requires some { 0 < width }
    ensures made { IfOk result (λ r. IsCheckedIn L.owns g.now width r.word r.over) }
    ensures over { IfOk result (λ r. (vs : List Bool) →
        OverflowsAs (L.reads g.now vs r.over) width number) }
    ensures value { IfOk result (λ r. (vs : List Bool) →
        Holds (int_read L.reads g.now vs r.word) width number) }
{
    let size = folded_size(number);
    let (mut word, rest) = low_digits(alloc, g, size, width - 1)?;
    let sign = g.constant(false);
    word.push(sign)?;
    let over = g.constant(rest > 0);
    if is_below_zero(number) {
        let word = flip(alloc, g, &word)?;
        return Ok(Checked { word, over });
    }
    Ok(Checked { word, over })
}
