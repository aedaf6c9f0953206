//! Products.

ghost use Rattle.std.specs.Prelude.{◌≡◌, ◌+◌, ◌-◌, ◌*◌, ◌^◌, ◌<◌, ◌≤◌, ◌*ℤ◌, ℕ, if◌then◌else◌};
ghost use Rattle.std.specs.Prelude.{Bool, List, nat_lt, length, take, IfOk};
ghost use Rattle.bit_words.specs.Logic.{Extends, OwnsAll};
ghost use Rattle.bit_words.specs.Results.{IsCheckedIn};
ghost use Rattle.bit_words.specs.Words.{bit_value, int_read, nat_read, Holds, IsUnsigned};
ghost use Rattle.bit_words.specs.Words.{OverflowsAs};

use crate::NoMemory;
use crate::bitwise::mask;
use crate::checked::Checked;
use crate::gates::or;
use crate::logic::Logic;
use crate::magnitude::{magnitude, sign_of, signed_result};
use crate::sums::carry_sum;
use crate::word::Word;
use std::alloc::Global;

/// The row of one digit of a product and the doubled product of the higher digits, and the carry.
#[tactic(auto, using(crate::proofs::Kept::steps))]
fn row_sum<L: Logic>(
    alloc: Global,
    g: &mut L,
    a: &Word<L::Bit>,
    digit: L::Bit,
    higher: &Word<L::Bit>,
    width: usize,
) -> Result<(Word<L::Bit>, L::Bit), NoMemory>
    requires shorter { length higher.now + 1 ≡ width }
    requires long { width ≤ length a.now }
    requires factor { OwnsAll L.owns g.old a.now }
    requires digit { L.owns g.old digit }
    requires higher { OwnsAll L.owns g.old higher.now }
    ensures extends { Extends L.owns L.reads L.count g.old g.new }
    ensures owned { IfOk result (λ r. OwnsAll L.owns g.new r.0) }
    ensures owned_carry { IfOk result (λ r. L.owns g.new r.1) }
    ensures width { IfOk result (λ r. length r.0 ≡ width) }
    ensures total { IfOk result (λ r. (vs : List Bool) →
        nat_read L.reads g.new vs r.0 + 2 ^ width * bit_value (L.reads g.new vs r.1)
        ≡ (if L.reads g.old vs digit then nat_read L.reads g.old vs (take width a.now) else 0)
        + (nat_read L.reads g.old vs higher.now + nat_read L.reads g.old vs higher.now)) }
{
    let low = a.low_bits(width)?;
    let row = mask(alloc, g, digit, &low)?;
    let no = g.constant(false);
    let mut doubled = higher.copy()?;
    doubled.push_low(no)?;
    let (sum, carry) = carry_sum(alloc, g, &row, &doubled, no, width)?;
    Ok((sum, carry))
}

/// The product of a word and the higher digits of another one.
#[derive(Drop)]
struct HigherPart<B: Copy> {
    number: Word<B>,
    /// Whether the product leaves the width of its word.
    over: B,
    /// Whether one of the digits is true.
    some: B,
}

/// A product with one digit more of its second factor, the next lower one, from the product of the
/// higher digits.
#[tactic(auto, using(crate::proofs::Kept::steps))]
fn add_row<L: Logic>(
    alloc: Global,
    g: &mut L,
    a: &Word<L::Bit>,
    digit: L::Bit,
    higher: &HigherPart<L::Bit>,
    width: usize,
) -> Result<Checked<L::Bit>, NoMemory>
    requires shorter { length higher.now.number + 1 ≡ width }
    requires long { width ≤ length a.now }
    requires factor { OwnsAll L.owns g.old a.now }
    requires digit { L.owns g.old digit }
    requires higher { OwnsAll L.owns g.old higher.now.number }
    requires over { L.owns g.old higher.now.over }
    requires some { L.owns g.old higher.now.some }
    ensures extends { Extends L.owns L.reads L.count g.old g.new }
    ensures made { IfOk result (λ r. IsCheckedIn L.owns g.new width r.word r.over) }
    ensures value { IfOk result (λ r. (vs : List Bool) (digits : ℕ) →
        L.reads g.old vs higher.now.some ≡ nat_lt 0 digits
        → IsUnsigned (width - 1) (nat_read L.reads g.old vs (take (width - 1) a.now) * digits)
        (nat_read L.reads g.old vs higher.now.number) (L.reads g.old vs higher.now.over)
        → IsUnsigned width
        (nat_read L.reads g.old vs (take width a.now)
        * (bit_value (L.reads g.old vs digit) + (digits + digits)))
        (nat_read L.reads g.new vs r.word) (L.reads g.new vs r.over)) }
{
    let top = a.at(width - 1);
    let (sum, carry) = row_sum(alloc, g, a, digit, &higher.number, width)?;
    let lost = g.and(higher.some, top)?;
    let carried = or(g, higher.over, carry)?;
    let spilled = or(g, carried, lost)?;
    Ok(Checked {
        word: sum,
        over: spilled,
    })
}

/// The product of two words of one width, read without a sign, and whether it leaves their width.
#[tactic(auto, using(crate::proofs::Kept::steps))]
pub fn product<L: Logic>(
    alloc: Global,
    g: &mut L,
    a: &Word<L::Bit>,
    b: &Word<L::Bit>,
) -> Result<Checked<L::Bit>, NoMemory>
    requires alike { length b.now ≡ length a.now }
    requires left { OwnsAll L.owns g.old a.now }
    requires right { OwnsAll L.owns g.old b.now }
    ensures extends { Extends L.owns L.reads L.count g.old g.new }
    ensures made { IfOk result (λ r. IsCheckedIn L.owns g.new (length a.now) r.word r.over) }
    ensures value { IfOk result (λ r. (vs : List Bool) →
        IsUnsigned (length a.now)
        (nat_read L.reads g.old vs a.now * nat_read L.reads g.old vs b.now)
        (nat_read L.reads g.new vs r.word) (L.reads g.new vs r.over)) }
{
    let width = a.len();
    let nothing = Word::new(alloc);
    let no = g.constant(false);
    let mut higher = HigherPart {
        number: nothing,
        over: no,
        some: no,
    };
    for k in 0..width {
        let digit = b.at(width - 1 - k);
        let sum = add_row(alloc, g, a, digit, &higher, k + 1)?;
        let some = or(g, higher.some, digit)?;
        higher = HigherPart {
            number: sum.word,
            over: sum.over,
            some,
        };
    }
    Ok(Checked {
        word: higher.number,
        over: higher.over,
    })
}

/// The product of two words of one width, and whether it leaves their width.
#[tactic(auto, using(crate::proofs::Kept::steps))]
pub fn mul<L: Logic>(
    alloc: Global,
    g: &mut L,
    a: &Word<L::Bit>,
    b: &Word<L::Bit>,
) -> Result<Checked<L::Bit>, NoMemory>
    requires some { 0 < length a.now }
    requires alike { length b.now ≡ length a.now }
    requires left { OwnsAll L.owns g.old a.now }
    requires right { OwnsAll L.owns g.old b.now }
    ensures extends { Extends L.owns L.reads L.count g.old g.new }
    ensures made { IfOk result (λ r. IsCheckedIn L.owns g.new (length a.now) r.word r.over) }
    ensures over { IfOk result (λ r. (vs : List Bool) →
        OverflowsAs (L.reads g.new vs r.over) (length a.now)
        (int_read L.reads g.old vs a.now *ℤ int_read L.reads g.old vs b.now)) }
    ensures value { IfOk result (λ r. (vs : List Bool) →
        Holds (int_read L.reads g.new vs r.word) (length a.now)
        (int_read L.reads g.old vs a.now *ℤ int_read L.reads g.old vs b.now)) }
{
    let left_sign = sign_of(g, a);
    let right_sign = sign_of(g, b);
    let left = magnitude(alloc, g, a)?;
    let right = magnitude(alloc, g, b)?;
    let size = product(alloc, g, &left, &right)?;
    let sign = g.xor(left_sign, right_sign)?;
    let number = signed_result(alloc, g, sign, &size.word, size.over)?;
    Ok(number)
}
