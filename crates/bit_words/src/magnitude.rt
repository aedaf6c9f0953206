//! A number's magnitude and its sign.

ghost use Rattle.std.specs.Prelude.{◌≡◌, ◌+◌, ◌<◌, Bool, List, length, IfOk, ℕ, neg_ℤ};
ghost use Rattle.std.specs.Prelude.{if◌then◌else◌};
ghost use Rattle.std.specs.Int.RustNames.{unsigned_abs};
ghost use Rattle.bit_words.specs.Logic.{Extends, OwnsAll};
ghost use Rattle.bit_words.specs.Results.{IsCheckedIn, IsWordIn};
ghost use Rattle.bit_words.specs.Words.{nat_read, int_read, is_negative, signed, IsUnsigned};
ghost use Rattle.bit_words.specs.Words.{OverflowsAs, Holds};

use crate::NoMemory;
use crate::bitwise::{flip_where, zeros};
use crate::checked::Checked;
use crate::gates::or;
use crate::logic::Logic;
use crate::narrow::narrow;
use crate::sums::{carry_sum, signed_sum};
use crate::word::Word;
use std::alloc::Global;

/// The highest bit of a word, which is true where its number is below zero.
#[tactic(auto, using(crate::proofs::Kept::steps))]
pub fn sign_of<L: Logic>(g: &L, a: &Word<L::Bit>) -> L::Bit
    requires some { 0 < length a.now }
    requires word { OwnsAll L.owns g.now a.now }
    ensures owned { L.owns g.now result }
    ensures value { (vs : List Bool) →
        L.reads g.now vs result ≡ is_negative (int_read L.reads g.now vs a.now) }
{
    let _ = g;
    a.at(a.len() - 1)
}

/// The magnitude of a word's number, without a sign.
#[tactic(auto, using(crate::proofs::Kept::steps))]
pub fn magnitude<L: Logic>(
    alloc: Global,
    g: &mut L,
    a: &Word<L::Bit>,
) -> Result<Word<L::Bit>, NoMemory>
    requires some { 0 < length a.now }
    requires word { OwnsAll L.owns g.old a.now }
    ensures extends { Extends L.owns L.reads L.count g.old g.new }
    ensures made { IfOk result (λ r. IsWordIn L.owns g.new (length a.now) r) }
    ensures value { IfOk result (λ r. (vs : List Bool) →
        nat_read L.reads g.new vs r ≡ unsigned_abs (int_read L.reads g.old vs a.now)) }
{
    let sign = sign_of(g, a);
    let flipped = flip_where(alloc, g, sign, a)?;
    let width = a.len();
    let nothing = zeros(alloc, g, width)?;
    let (size, _) = carry_sum(alloc, g, &flipped, &nothing, sign, width)?;
    Ok(size)
}

/// A number or its opposite, by a test, in the width of its word.
#[tactic(auto, using(crate::proofs::Kept::steps))]
fn turn_where<L: Logic>(
    alloc: Global,
    g: &mut L,
    test: L::Bit,
    a: &Word<L::Bit>,
) -> Result<Word<L::Bit>, NoMemory>
    requires some { 0 < length a.now }
    requires test { L.owns g.old test }
    requires word { OwnsAll L.owns g.old a.now }
    ensures extends { Extends L.owns L.reads L.count g.old g.new }
    ensures made { IfOk result (λ r. IsWordIn L.owns g.new (length a.now) r) }
    ensures value { IfOk result (λ r. (vs : List Bool) →
        Holds (int_read L.reads g.new vs r) (length a.now)
        (if L.reads g.old vs test then neg_ℤ (int_read L.reads g.old vs a.now)
        else int_read L.reads g.old vs a.now)) }
{
    let flipped = flip_where(alloc, g, test, a)?;
    let width = a.len();
    let nothing = zeros(alloc, g, width)?;
    let turned = signed_sum(alloc, g, &flipped, &nothing, test)?;
    Ok(turned.word)
}

/// A number or its opposite, by a test.
#[tactic(auto, using(crate::proofs::Kept::steps))]
pub fn negate_where<L: Logic>(
    alloc: Global,
    g: &mut L,
    test: L::Bit,
    a: &Word<L::Bit>,
) -> Result<Word<L::Bit>, NoMemory>
    requires some { 0 < length a.now }
    requires test { L.owns g.old test }
    requires word { OwnsAll L.owns g.old a.now }
    ensures extends { Extends L.owns L.reads L.count g.old g.new }
    ensures made { IfOk result (λ r. IsWordIn L.owns g.new (length a.now + 1) r) }
    ensures value { IfOk result (λ r. (vs : List Bool) →
        int_read L.reads g.new vs r
        ≡ (if L.reads g.old vs test then neg_ℤ (int_read L.reads g.old vs a.now)
        else int_read L.reads g.old vs a.now)) }
{
    let sign = sign_of(g, a);
    let mut wide = a.copy()?;
    wide.push(sign)?;
    let negated = turn_where(alloc, g, test, &wide)?;
    Ok(negated)
}

/// A number by its sign and its magnitude, in one bit more.
#[tactic(auto, using(crate::proofs::Kept::steps))]
pub fn with_sign<L: Logic>(
    alloc: Global,
    g: &mut L,
    sign: L::Bit,
    size: &Word<L::Bit>,
) -> Result<Word<L::Bit>, NoMemory>
    requires sign { L.owns g.old sign }
    requires word { OwnsAll L.owns g.old size.now }
    ensures extends { Extends L.owns L.reads L.count g.old g.new }
    ensures made { IfOk result (λ r. IsWordIn L.owns g.new (length size.now + 1) r) }
    ensures value { IfOk result (λ r. (vs : List Bool) →
        int_read L.reads g.new vs r
        ≡ signed (L.reads g.old vs sign) (nat_read L.reads g.old vs size.now)) }
{
    let no = g.constant(false);
    let mut wide = size.copy()?;
    wide.push(no)?;
    let number = turn_where(alloc, g, sign, &wide)?;
    Ok(number)
}

/// A number by its sign and its magnitude, of which a bit says whether it has left its width, and
/// whether the number leaves that width.
#[tactic(auto, using(crate::proofs::Kept::steps))]
pub fn signed_result<L: Logic>(
    alloc: Global,
    g: &mut L,
    sign: L::Bit,
    size: &Word<L::Bit>,
    over: L::Bit,
) -> Result<Checked<L::Bit>, NoMemory>
    requires some { 0 < length size.now }
    requires sign { L.owns g.old sign }
    requires word { OwnsAll L.owns g.old size.now }
    requires over { L.owns g.old over }
    ensures extends { Extends L.owns L.reads L.count g.old g.new }
    ensures made { IfOk result (λ r. IsCheckedIn L.owns g.new (length size.now) r.word r.over) }
    ensures over { IfOk result (λ r. (vs : List Bool) (number : ℕ) →
        IsUnsigned (length size.now) number (nat_read L.reads g.old vs size.now)
        (L.reads g.old vs over)
        → OverflowsAs (L.reads g.new vs r.over) (length size.now)
        (signed (L.reads g.old vs sign) number)) }
    ensures value { IfOk result (λ r. (vs : List Bool) (number : ℕ) →
        IsUnsigned (length size.now) number (nat_read L.reads g.old vs size.now)
        (L.reads g.old vs over)
        → Holds (int_read L.reads g.new vs r.word) (length size.now)
        (signed (L.reads g.old vs sign) number)) }
{
    let width = size.len();
    let wide = with_sign(alloc, g, sign, size)?;
    let number = narrow(g, &wide, width)?;
    let spilled = or(g, over, number.over)?;
    Ok(Checked {
        word: number.word,
        over: spilled,
    })
}
