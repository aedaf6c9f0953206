//! Equality of two values of one type.

ghost use Rattle.std.specs.Prelude.{◌≡◌, ◌<◌, ◌≤◌, ◌+◌, ◌&&◌, ◌||◌, Bool, List, length, map};
ghost use Rattle.std.specs.Prelude.{nat_eq, nat_lt, IfOk};
ghost use Rattle.std.specs.declared.result.Result.TheVariants.{Ok};
ghost use Rattle.mpy_tree.specs.Operations.{compare, equal, truth};
ghost use Rattle.mpy_tree.specs.declared.operators.CmpOp.TheVariants.{Eq, Ne};
ghost use Rattle.mpy_tree.specs.declared.value.Value.{Value};
ghost use Rattle.bit_words.specs.Logic.{Extends, OwnsAll};
ghost use Rattle.bit_words.specs.Words.{nat_read};
ghost use Rattle.sym_values.specs.Agreement.{agree, same_digits};
ghost use Rattle.sym_values.specs.Forms.{bits_of, BoolForm, form_of, joined, lengths};
ghost use Rattle.sym_values.specs.Operations.{ValuesGive};
ghost use Rattle.sym_values.specs.Reading.{read, sure};
ghost use Rattle.sym_values.specs.Results.{IsOutcomeIn};
ghost use Rattle.sym_values.specs.Rooms.{room_of};

use crate::value::{SymOutcome, SymValue};
use bit_words::NoMemory;
use bit_words::bits::Bits;
use bit_words::gates::or;
use bit_words::laws::{number_decides_bits, number_decides_word};
use bit_words::logic::Logic;
use bit_words::order::{equal_bits, less_number};
use bit_words::word::Word;
use bit_words::words::Words;

/// Whether two words of one width have the same digits.
#[tactic(auto, using(crate::proofs::Held::parts))]
fn words_equal<L: Logic>(g: &mut L, x: &Word<L::Bit>, y: &Word<L::Bit>) -> Result<L::Bit, NoMemory>
    requires alike { length y.now ≡ length x.now }
    requires left { OwnsAll L.owns g.old x.now }
    requires right { OwnsAll L.owns g.old y.now }
    ensures extends { Extends L.owns L.reads L.count g.old g.new }
    ensures owned { IfOk result (λ r. L.owns g.new r) }
    ensures value { IfOk result (λ r. (vs : List Bool) →
        L.reads g.new vs r
        ≡ same_digits (map (L.reads g.old vs) x.now) (map (L.reads g.old vs) y.now)) }
{
    let same = equal_bits(g, x.as_slice(), y.as_slice())?;
    Ok(same)
}

/// Whether two words agree, or a length doesn't reach their place.
#[tactic(auto, using(crate::proofs::Held::parts))]
fn agree_or_past<L: Logic>(
    g: &mut L,
    len: &Bits<L::Bit>,
    place: u32,
    x: &Word<L::Bit>,
    y: &Word<L::Bit>,
) -> Result<L::Bit, NoMemory>
    requires place { place < 16 }
    requires alike { length y.now ≡ length x.now }
    requires len { OwnsAll L.owns g.old len.now }
    requires left { OwnsAll L.owns g.old x.now }
    requires right { OwnsAll L.owns g.old y.now }
    ensures extends { Extends L.owns L.reads L.count g.old g.new }
    ensures owned { IfOk result (λ r. L.owns g.new r) }
    ensures value { IfOk result (λ r. (vs : List Bool) →
        L.reads g.new vs r
        ≡ (nat_lt (nat_read L.reads g.old vs len.now) (place + 1)
        || same_digits (map (L.reads g.old vs) x.now) (map (L.reads g.old vs) y.now))) }
{
    let past = less_number(g, len.as_slice(), place + 1)?;
    let same = words_equal(g, x, y)?;
    let fine = or(g, past, same)?;
    Ok(fine)
}

/// Whether as many words agree as a length says.
#[tactic(auto, using(crate::proofs::Held::parts))]
fn words_agree<L: Logic>(
    g: &mut L,
    len: &Bits<L::Bit>,
    xs: &Words<L::Bit>,
    ys: &Words<L::Bit>,
) -> Result<L::Bit, NoMemory>
    requires short { length xs.now ≤ 16 }
    requires alike { lengths ys.now ≡ lengths xs.now }
    requires len { OwnsAll L.owns g.old len.now }
    requires left { OwnsAll L.owns g.old (joined xs.now) }
    requires right { OwnsAll L.owns g.old (joined ys.now) }
    ensures extends { Extends L.owns L.reads L.count g.old g.new }
    ensures owned { IfOk result (λ r. L.owns g.new r) }
    ensures value { IfOk result (λ r. (vs : List Bool) →
        L.reads g.new vs r
        ≡ agree same_digits (nat_read L.reads g.old vs len.now)
        (map (map (L.reads g.old vs)) xs.now) (map (map (L.reads g.old vs)) ys.now)) }
{
    let mut alike = g.constant(true);
    for i in 0..xs.len() {
        let x = xs.at(i);
        let y = ys.at(i);
        let fine = agree_or_past(g, len, i as u32, x, y)?;
        alike = g.and(alike, fine)?;
    }
    Ok(alike)
}

/// Whether two lists or texts have one length and agree as far as that.
#[tactic(auto, using(crate::proofs::Held::parts))]
fn lists_agree<L: Logic>(
    g: &mut L,
    m: &Bits<L::Bit>,
    xs: &Words<L::Bit>,
    n: &Bits<L::Bit>,
    ys: &Words<L::Bit>,
) -> Result<L::Bit, NoMemory>
    requires short { length xs.now ≤ 16 }
    requires alike_lengths { length n.now ≡ length m.now }
    requires alike { lengths ys.now ≡ lengths xs.now }
    requires left_len { OwnsAll L.owns g.old m.now }
    requires left { OwnsAll L.owns g.old (joined xs.now) }
    requires right_len { OwnsAll L.owns g.old n.now }
    requires right { OwnsAll L.owns g.old (joined ys.now) }
    ensures extends { Extends L.owns L.reads L.count g.old g.new }
    ensures owned { IfOk result (λ r. L.owns g.new r) }
    ensures value { IfOk result (λ r. (vs : List Bool) →
        L.reads g.new vs r
        ≡ (nat_eq (nat_read L.reads g.old vs m.now) (nat_read L.reads g.old vs n.now)
        && agree same_digits (nat_read L.reads g.old vs m.now)
        (map (map (L.reads g.old vs)) xs.now) (map (map (L.reads g.old vs)) ys.now))) }
{
    let one_length = equal_bits(g, m.as_slice(), n.as_slice())?;
    let same = words_agree(g, m, xs, ys)?;
    let both = g.and(one_length, same)?;
    Ok(both)
}

/// Whether two values of one form are equal.
#[tactic(auto, using(crate::proofs::Held::parts))]
pub fn equal_bit<L: Logic>(
    g: &mut L,
    a: &SymValue<L::Bit>,
    b: &SymValue<L::Bit>,
) -> Result<L::Bit, NoMemory>
    requires short { room_of a.now ≤ 16 }
    requires alike { form_of b.now ≡ form_of a.now }
    requires left { OwnsAll L.owns g.old (bits_of a.now) }
    requires right { OwnsAll L.owns g.old (bits_of b.now) }
    ensures extends { Extends L.owns L.reads L.count g.old g.new }
    ensures owned { IfOk result (λ r. L.owns g.new r) }
    ensures value { IfOk result (λ r. (vs : List Bool) (v w : Value) →
        read (L.reads g.old vs) a.now ≡ sure v → read (L.reads g.old vs) b.now ≡ sure w
        → Ok (L.reads g.new vs r) ≡ equal v w) }
{
    number_decides_bits();
    number_decides_word();
    match (a, b) {
        (SymValue::Int(v), SymValue::Int(w)) => {
            let same = words_equal(g, v, w)?;
            Ok(same)
        }
        (SymValue::Bool(p), SymValue::Bool(q)) => {
            let other = g.xor(*p, *q)?;
            Ok(g.not(other))
        }
        (SymValue::List { len: m, items: xs }, SymValue::List { len: n, items: ys }) => {
            let same = lists_agree(g, m, xs, n, ys)?;
            Ok(same)
        }
        (SymValue::Text { len: m, items: xs }, SymValue::Text { len: n, items: ys }) => {
            let same = lists_agree(g, m, xs, n, ys)?;
            Ok(same)
        }
        _ => unreachable!(),
    }
}

/// Whether two values of one form are equal, as a value.
pub fn equality<L: Logic>(
    g: &mut L,
    a: &SymValue<L::Bit>,
    b: &SymValue<L::Bit>,
) -> Result<SymOutcome<L::Bit>, NoMemory>
    requires short { room_of a.now ≤ 16 }
    requires alike { form_of b.now ≡ form_of a.now }
    requires left { OwnsAll L.owns g.old (bits_of a.now) }
    requires right { OwnsAll L.owns g.old (bits_of b.now) }
    ensures extends { Extends L.owns L.reads L.count g.old g.new }
    ensures made { IfOk result (λ r. IsOutcomeIn L.owns g.new BoolForm r) }
    ensures value { IfOk result (λ r.
        ValuesGive L.reads g.old g.new a.now b.now r (λ v w. truth (compare Eq v w))) }
{
    let same = equal_bit(g, a, b)?;
    let fault = g.constant(false);
    Ok(SymOutcome {
        value: SymValue::Bool(same),
        fault,
    })
}

/// Whether two values of one form differ, as a value.
pub fn inequality<L: Logic>(
    g: &mut L,
    a: &SymValue<L::Bit>,
    b: &SymValue<L::Bit>,
) -> Result<SymOutcome<L::Bit>, NoMemory>
    requires short { room_of a.now ≤ 16 }
    requires alike { form_of b.now ≡ form_of a.now }
    requires left { OwnsAll L.owns g.old (bits_of a.now) }
    requires right { OwnsAll L.owns g.old (bits_of b.now) }
    ensures extends { Extends L.owns L.reads L.count g.old g.new }
    ensures made { IfOk result (λ r. IsOutcomeIn L.owns g.new BoolForm r) }
    ensures value { IfOk result (λ r.
        ValuesGive L.reads g.old g.new a.now b.now r (λ v w. truth (compare Ne v w))) }
{
    let same = equal_bit(g, a, b)?;
    let bit = g.not(same);
    let fault = g.constant(false);
    Ok(SymOutcome {
        value: SymValue::Bool(bit),
        fault,
    })
}
