//! Sums and differences.

ghost use Rattle.std.specs.Prelude.{◌≡◌, ◌+◌, ◌*◌, ◌^◌, ◌<◌, ◌≤◌, ◌+ℤ◌, ◌-ℤ◌, pos, neg_ℤ, Bool};
ghost use Rattle.std.specs.Prelude.{List, length, take, IfOk};
ghost use Rattle.bit_words.specs.Bits.{differ, most_of};
ghost use Rattle.bit_words.specs.Logic.{Extends, OwnsAll};
ghost use Rattle.bit_words.specs.Results.{IsCheckedIn};
ghost use Rattle.bit_words.specs.Words.{bit_value, nat_read, int_read, Holds, OverflowsAs};

use crate::NoMemory;
use crate::bitwise::{flip, zeros};
use crate::checked::Checked;
use crate::gates::full_add;
use crate::logic::Logic;
use crate::word::Word;
use std::alloc::Global;

/// The lowest digits of the sum of two words and a carry, read without a sign, and what is carried
/// out of them.
#[tactic(auto, using(crate::proofs::Kept::steps))]
pub fn carry_sum<L: Logic>(
    alloc: Global,
    g: &mut L,
    a: &Word<L::Bit>,
    b: &Word<L::Bit>,
    carry: L::Bit,
    width: usize,
) -> Result<(Word<L::Bit>, L::Bit), NoMemory>
    requires left_long { width ≤ length a.now }
    requires right_long { width ≤ length b.now }
    requires left { OwnsAll L.owns g.old a.now }
    requires right { OwnsAll L.owns g.old b.now }
    requires carry { L.owns g.old carry }
    ensures extends { Extends L.owns L.reads L.count g.old g.new }
    ensures owned { IfOk result (λ r. OwnsAll L.owns g.new r.0) }
    ensures owned_carry { IfOk result (λ r. L.owns g.new r.1) }
    ensures width { IfOk result (λ r. length r.0 ≡ width) }
    ensures total { IfOk result (λ r. (vs : List Bool) →
        nat_read L.reads g.new vs r.0 + 2 ^ width * bit_value (L.reads g.new vs r.1)
        ≡ nat_read L.reads g.old vs (take width a.now)
        + nat_read L.reads g.old vs (take width b.now) + bit_value (L.reads g.old vs carry)) }
{
    let mut sum = Word::new(alloc);
    let mut carried = carry;
    for i in 0..width {
        let left = a.at(i);
        let right = b.at(i);
        let (digit, next) = full_add(g, left, right, carried)?;
        sum.push(digit)?;
        carried = next;
    }
    Ok((sum, carried))
}

/// The highest digit of a sum, and whether the sum leaves its width: the carry into that digit
/// isn't the carry out of it.
fn top_digit<L: Logic>(
    g: &mut L,
    left: L::Bit,
    right: L::Bit,
    carry: L::Bit,
) -> Result<(L::Bit, L::Bit), NoMemory>
    requires left { L.owns g.old left }
    requires right { L.owns g.old right }
    requires carry { L.owns g.old carry }
    ensures extends { Extends L.owns L.reads L.count g.old g.new }
    ensures owned { IfOk result (λ r. L.owns g.new r.0) }
    ensures owned_over { IfOk result (λ r. L.owns g.new r.1) }
    ensures digit { IfOk result (λ r. (vs : List Bool) →
        L.reads g.new vs r.0
        ≡ differ (differ (L.reads g.old vs left) (L.reads g.old vs right))
        (L.reads g.old vs carry)) }
    ensures over { IfOk result (λ r. (vs : List Bool) →
        L.reads g.new vs r.1
        ≡ differ (L.reads g.old vs carry)
        (most_of (L.reads g.old vs left) (L.reads g.old vs right) (L.reads g.old vs carry))) }
{
    let (digit, out) = full_add(g, left, right, carry)?;
    let over = g.xor(carry, out)?;
    Ok((digit, over))
}

/// The sum of two words of one width and of a carry, and whether it leaves their width.
#[tactic(auto, using(crate::proofs::Kept::steps))]
pub fn signed_sum<L: Logic>(
    alloc: Global,
    g: &mut L,
    a: &Word<L::Bit>,
    b: &Word<L::Bit>,
    carry: L::Bit,
) -> Result<Checked<L::Bit>, NoMemory>
    requires some { 0 < length a.now }
    requires alike { length b.now ≡ length a.now }
    requires left { OwnsAll L.owns g.old a.now }
    requires right { OwnsAll L.owns g.old b.now }
    requires carry { L.owns g.old carry }
    ensures extends { Extends L.owns L.reads L.count g.old g.new }
    ensures made { IfOk result (λ r. IsCheckedIn L.owns g.new (length a.now) r.word r.over) }
    ensures over { IfOk result (λ r. (vs : List Bool) →
        OverflowsAs (L.reads g.new vs r.over) (length a.now)
        (int_read L.reads g.old vs a.now +ℤ int_read L.reads g.old vs b.now
        +ℤ pos (bit_value (L.reads g.old vs carry)))) }
    ensures value { IfOk result (λ r. (vs : List Bool) →
        Holds (int_read L.reads g.new vs r.word) (length a.now)
        (int_read L.reads g.old vs a.now +ℤ int_read L.reads g.old vs b.now
        +ℤ pos (bit_value (L.reads g.old vs carry)))) }
{
    let top = a.len() - 1;
    let first = a.at(top);
    let second = b.at(top);
    let (mut sum, into_top) = carry_sum(alloc, g, a, b, carry, top)?;
    let (digit, over) = top_digit(g, first, second, into_top)?;
    sum.push(digit)?;
    Ok(Checked { word: sum, over })
}

/// The sum of two words of one width, and whether it leaves their width.
#[tactic(auto, using(crate::proofs::Kept::steps))]
pub fn add<L: Logic>(
    alloc: Global,
    g: &mut L,
    a: &Word<L::Bit>,
    b: &Word<L::Bit>,
) -> Result<Checked<L::Bit>, NoMemory>
    requires some { 0 < length a.now }
    requires alike { length b.now ≡ length a.now }
    requires left { OwnsAll L.owns g.old a.now }
    requires right { OwnsAll L.owns g.old b.now }
    ensures extends { Extends L.owns L.reads L.count g.old g.new }
    ensures made { IfOk result (λ r. IsCheckedIn L.owns g.new (length a.now) r.word r.over) }
    ensures over { IfOk result (λ r. (vs : List Bool) →
        OverflowsAs (L.reads g.new vs r.over) (length a.now)
        (int_read L.reads g.old vs a.now +ℤ int_read L.reads g.old vs b.now)) }
    ensures value { IfOk result (λ r. (vs : List Bool) →
        Holds (int_read L.reads g.new vs r.word) (length a.now)
        (int_read L.reads g.old vs a.now +ℤ int_read L.reads g.old vs b.now)) }
{
    let no = g.constant(false);
    let sum = signed_sum(alloc, g, a, b, no)?;
    Ok(sum)
}

/// The difference of two words of one width, and whether it leaves their width.
#[tactic(auto, using(crate::proofs::Kept::steps))]
pub fn sub<L: Logic>(
    alloc: Global,
    g: &mut L,
    a: &Word<L::Bit>,
    b: &Word<L::Bit>,
) -> Result<Checked<L::Bit>, NoMemory>
    requires some { 0 < length a.now }
    requires alike { length b.now ≡ length a.now }
    requires left { OwnsAll L.owns g.old a.now }
    requires right { OwnsAll L.owns g.old b.now }
    ensures extends { Extends L.owns L.reads L.count g.old g.new }
    ensures made { IfOk result (λ r. IsCheckedIn L.owns g.new (length a.now) r.word r.over) }
    ensures over { IfOk result (λ r. (vs : List Bool) →
        OverflowsAs (L.reads g.new vs r.over) (length a.now)
        (int_read L.reads g.old vs a.now -ℤ int_read L.reads g.old vs b.now)) }
    ensures value { IfOk result (λ r. (vs : List Bool) →
        Holds (int_read L.reads g.new vs r.word) (length a.now)
        (int_read L.reads g.old vs a.now -ℤ int_read L.reads g.old vs b.now)) }
{
    let flipped = flip(alloc, g, b)?;
    let yes = g.constant(true);
    let difference = signed_sum(alloc, g, a, &flipped, yes)?;
    Ok(difference)
}

/// The opposite of a word's number, and whether it leaves the word's width.
#[tactic(auto, using(crate::proofs::Kept::steps))]
pub fn neg<L: Logic>(
    alloc: Global,
    g: &mut L,
    a: &Word<L::Bit>,
) -> Result<Checked<L::Bit>, NoMemory>
    requires some { 0 < length a.now }
    requires word { OwnsAll L.owns g.old a.now }
    ensures extends { Extends L.owns L.reads L.count g.old g.new }
    ensures made { IfOk result (λ r. IsCheckedIn L.owns g.new (length a.now) r.word r.over) }
    ensures over { IfOk result (λ r. (vs : List Bool) →
        OverflowsAs (L.reads g.new vs r.over) (length a.now)
        (neg_ℤ (int_read L.reads g.old vs a.now))) }
    ensures value { IfOk result (λ r. (vs : List Bool) →
        Holds (int_read L.reads g.new vs r.word) (length a.now)
        (neg_ℤ (int_read L.reads g.old vs a.now))) }
{
    let nothing = zeros(alloc, g, a.len())?;
    let opposite = sub(alloc, g, &nothing, a)?;
    Ok(opposite)
}
