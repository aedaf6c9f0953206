//! Powers.

ghost use Rattle.std.specs.Prelude.{◌≡◌, ◌+◌, ◌^◌, ◌<◌, ◌&&◌, ℕ, Bool, List, not, length, IfOk};
ghost use Rattle.bit_words.specs.Logic.{Extends, OwnsAll};
ghost use Rattle.bit_words.specs.Results.{IsCheckedIn, IsPartialIn, IsWordIn};
ghost use Rattle.bit_words.specs.Words.{bit_value, int_read, nat_read, fits, is_negative, Holds};
ghost use Rattle.bit_words.specs.Words.{IsUnsigned};
ghost use Rattle.bit_words.specs.Operations.{exponent_of, int_power};

use crate::NoMemory;
use crate::bitwise::{choose_word, mask, zeros};
use crate::checked::{Checked, Partial};
use crate::gates::or;
use crate::logic::Logic;
use crate::magnitude::{magnitude, sign_of, signed_result};
use crate::product::product;
use crate::word::Word;
use std::alloc::Global;

/// A power whose exponent has one digit more, the next lower one: the square of the power so far,
/// and once more the base where the digit is true.
#[tactic(auto, using(crate::proofs::Kept::steps))]
fn power_digit<L: Logic>(
    alloc: Global,
    g: &mut L,
    a: &Word<L::Bit>,
    digit: L::Bit,
    power: &Word<L::Bit>,
    over: L::Bit,
) -> Result<Checked<L::Bit>, NoMemory>
    requires long { 0 < length a.now }
    requires alike { length power.now ≡ length a.now }
    requires base { OwnsAll L.owns g.old a.now }
    requires digit { L.owns g.old digit }
    requires power { OwnsAll L.owns g.old power.now }
    requires over { L.owns g.old over }
    ensures extends { Extends L.owns L.reads L.count g.old g.new }
    ensures made { IfOk result (λ r. IsCheckedIn L.owns g.new (length a.now) r.word r.over) }
    ensures value { IfOk result (λ r. (vs : List Bool) (e : ℕ) →
        IsUnsigned (length a.now) (nat_read L.reads g.old vs a.now ^ e)
        (nat_read L.reads g.old vs power.now) (L.reads g.old vs over)
        → IsUnsigned (length a.now)
        (nat_read L.reads g.old vs a.now ^ (bit_value (L.reads g.old vs digit) + (e + e)))
        (nat_read L.reads g.new vs r.word) (L.reads g.new vs r.over)) }
{
    let square = product(alloc, g, power, power)?;
    let times = product(alloc, g, &square.word, a)?;
    let lost = g.and(digit, times.over)?;
    let beyond = or(g, square.over, lost)?;
    let out = or(g, over, beyond)?;
    let next = choose_word(alloc, g, digit, &times.word, &square.word)?;
    Ok(Checked {
        word: next,
        over: out,
    })
}

/// The word that reads as 1.
#[tactic(auto, using(crate::proofs::Kept::steps))]
fn one_word<L: Logic>(alloc: Global, g: &L, width: usize) -> Result<Word<L::Bit>, NoMemory>
    requires some { 0 < width }
    ensures made { IfOk result (λ r. IsWordIn L.owns g.now width r) }
    ensures value { IfOk result (λ r. (vs : List Bool) → nat_read L.reads g.now vs r ≡ 1) }
{
    let mut word = zeros(alloc, g, width - 1)?;
    let yes = g.constant(true);
    word.push_low(yes)?;
    Ok(word)
}

/// A power of two words without signs, in the width of the base, and whether it leaves that width.
#[tactic(auto, using(crate::proofs::Kept::steps))]
pub fn unsigned_power<L: Logic>(
    alloc: Global,
    g: &mut L,
    a: &Word<L::Bit>,
    b: &Word<L::Bit>,
) -> Result<Checked<L::Bit>, NoMemory>
    requires long { 0 < length a.now }
    requires base { OwnsAll L.owns g.old a.now }
    requires exponent { OwnsAll L.owns g.old b.now }
    ensures extends { Extends L.owns L.reads L.count g.old g.new }
    ensures made { IfOk result (λ r. IsCheckedIn L.owns g.new (length a.now) r.word r.over) }
    ensures value { IfOk result (λ r. (vs : List Bool) →
        IsUnsigned (length a.now)
        (nat_read L.reads g.old vs a.now ^ nat_read L.reads g.old vs b.now)
        (nat_read L.reads g.new vs r.word) (L.reads g.new vs r.over)) }
{
    let digits = b.len();
    let mut power = one_word(alloc, g, a.len())?;
    let mut over = g.constant(false);
    for k in 0..digits {
        let digit = b.at(digits - 1 - k);
        let next = power_digit(alloc, g, a, digit, &power, over)?;
        power = next.word;
        over = next.over;
    }
    Ok(Checked { word: power, over })
}

/// The power of one word by another of its width, where an exponent below zero counts as 0, and
/// whether that exponent isn't below zero and the power leaves their width.
#[tactic(auto, using(crate::proofs::Kept::steps))]
fn power_by<L: Logic>(
    alloc: Global,
    g: &mut L,
    a: &Word<L::Bit>,
    b: &Word<L::Bit>,
) -> Result<Checked<L::Bit>, NoMemory>
    requires long { 1 < length a.now }
    requires alike { length b.now ≡ length a.now }
    requires left { OwnsAll L.owns g.old a.now }
    requires right { OwnsAll L.owns g.old b.now }
    ensures extends { Extends L.owns L.reads L.count g.old g.new }
    ensures made { IfOk result (λ r. IsCheckedIn L.owns g.new (length a.now) r.word r.over) }
    ensures over { IfOk result (λ r. (vs : List Bool) →
        L.reads g.new vs r.over
        ≡ (not (is_negative (int_read L.reads g.old vs b.now))
        && not (fits (length a.now)
        (int_power (int_read L.reads g.old vs a.now)
        (exponent_of (int_read L.reads g.old vs b.now)))))) }
    ensures value { IfOk result (λ r. (vs : List Bool) →
        Holds (int_read L.reads g.new vs r.word) (length a.now)
        (int_power (int_read L.reads g.old vs a.now)
        (exponent_of (int_read L.reads g.old vs b.now)))) }
{
    let below = sign_of(g, a);
    let negative = sign_of(g, b);
    let positive = g.not(negative);
    let size = magnitude(alloc, g, a)?;
    let exponent = mask(alloc, g, positive, b)?;
    let odd = exponent.at(0);
    let raised = unsigned_power(alloc, g, &size, &exponent)?;
    let sign = g.and(below, odd)?;
    let number = signed_result(alloc, g, sign, &raised.word, raised.over)?;
    Ok(number)
}

/// The power of one word by another of its width, whether it leaves their width, and whether the
/// exponent is below zero, where the power is read as 1.
#[tactic(auto, using(crate::proofs::Kept::steps))]
pub fn power<L: Logic>(
    alloc: Global,
    g: &mut L,
    a: &Word<L::Bit>,
    b: &Word<L::Bit>,
) -> Result<Partial<L::Bit>, NoMemory>
    requires long { 1 < length a.now }
    requires alike { length b.now ≡ length a.now }
    requires left { OwnsAll L.owns g.old a.now }
    requires right { OwnsAll L.owns g.old b.now }
    ensures extends { Extends L.owns L.reads L.count g.old g.new }
    ensures made { IfOk result (λ r. IsPartialIn L.owns g.new
        (length a.now) r.word r.over r.fault) }
    ensures fault { IfOk result (λ r. (vs : List Bool) →
        L.reads g.new vs r.fault ≡ is_negative (int_read L.reads g.old vs b.now)) }
    ensures over { IfOk result (λ r. (vs : List Bool) →
        L.reads g.new vs r.over
        ≡ (not (is_negative (int_read L.reads g.old vs b.now))
        && not (fits (length a.now)
        (int_power (int_read L.reads g.old vs a.now)
        (exponent_of (int_read L.reads g.old vs b.now)))))) }
    ensures value { IfOk result (λ r. (vs : List Bool) →
        Holds (int_read L.reads g.new vs r.word) (length a.now)
        (int_power (int_read L.reads g.old vs a.now)
        (exponent_of (int_read L.reads g.old vs b.now)))) }
{
    let negative = sign_of(g, b);
    let number = power_by(alloc, g, a, b)?;
    Ok(Partial {
        word: number.word,
        over: number.over,
        fault: negative,
    })
}
