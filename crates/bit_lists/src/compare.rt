//! Equality of lists, and whether a list has a word.

ghost use Rattle.std.specs.Prelude.{◌≡◌, ◌<◌, ◌≤◌, ℕ, Bool, List, length, map, nat_lt, nat_eq};
ghost use Rattle.std.specs.Prelude.{not, ◌&&◌, ◌||◌, IfOk};
ghost use Rattle.std.specs.Cmp.Lexicographic.{pointwise};
ghost use Rattle.std.specs.Ordering.{int_eq};
ghost use Rattle.mpy_tree.specs.Operations.{has_number};
ghost use Rattle.bit_words.specs.Logic.{Extends, OwnsAll};
ghost use Rattle.bit_words.specs.Results.{IsWordIn};
ghost use Rattle.bit_words.specs.Words.{int_of, int_read, nat_of, nat_read};
ghost use Rattle.bit_lists.specs.Lists.{IsListIn, IsProper, list_read};

use crate::NoMemory;
use crate::choices::is_below;
use crate::lists::ListParts;
use bit_words::bits::Bits;
use bit_words::gates::or;
use bit_words::logic::Logic;
use bit_words::order::equal_bits;
use bit_words::word::Word;

/// Whether a place lies past a list's end, or two words there are the same.
#[tactic(auto, using(crate::proofs::Held::steps))]
fn agrees_at<L: Logic>(
    g: &mut L,
    place: usize,
    len: &Bits<L::Bit>,
    left: &Word<L::Bit>,
    right: &Word<L::Bit>,
) -> Result<L::Bit, NoMemory>
    requires small { place < 16 }
    requires alike { length right.now ≡ length left.now }
    requires len { OwnsAll L.owns g.old len.now }
    requires left { OwnsAll L.owns g.old left.now }
    requires right { OwnsAll L.owns g.old right.now }
    ensures extends { Extends L.owns L.reads L.count g.old g.new }
    ensures owned { IfOk result (λ r. L.owns g.new r) }
    ensures value { IfOk result (λ r. (vs : List Bool) →
        L.reads g.new vs r ≡ (not (nat_lt place (nat_read L.reads g.old vs len.now))
        || nat_eq (nat_read L.reads g.old vs left.now) (nat_read L.reads g.old vs right.now))) }
{
    let within = is_below(g, place, len.as_slice())?;
    let same = equal_bits(g, left.as_slice(), right.as_slice())?;
    let past = g.not(within);
    let agrees = or(g, past, same)?;
    Ok(agrees)
}

/// Whether a place lies within a list and two words there are the same.
#[tactic(auto, using(crate::proofs::Held::steps))]
pub fn found_at<L: Logic>(
    g: &mut L,
    place: usize,
    len: &Bits<L::Bit>,
    left: &Word<L::Bit>,
    right: &Word<L::Bit>,
) -> Result<L::Bit, NoMemory>
    requires small { place < 16 }
    requires alike { length right.now ≡ length left.now }
    requires len { OwnsAll L.owns g.old len.now }
    requires left { OwnsAll L.owns g.old left.now }
    requires right { OwnsAll L.owns g.old right.now }
    ensures extends { Extends L.owns L.reads L.count g.old g.new }
    ensures owned { IfOk result (λ r. L.owns g.new r) }
    ensures value { IfOk result (λ r. (vs : List Bool) →
        L.reads g.new vs r ≡ (nat_lt place (nat_read L.reads g.old vs len.now)
        && nat_eq (nat_read L.reads g.old vs left.now) (nat_read L.reads g.old vs right.now))) }
{
    let within = is_below(g, place, len.as_slice())?;
    let same = equal_bits(g, left.as_slice(), right.as_slice())?;
    let found = g.and(within, same)?;
    Ok(found)
}

/// Whether two lists are equal: as long as one another, and equal place by place, whether the words
/// are read with a sign or without.
#[tactic(auto, using(crate::proofs::Held::steps))]
pub fn same_lists<L: Logic>(
    g: &mut L,
    a: &ListParts<'_, L::Bit>,
    b: &ListParts<'_, L::Bit>,
) -> Result<L::Bit, NoMemory>
    ghost width: { ℕ }
    requires few { length a.now.items.now ≤ 16 }
    requires left { IsListIn L.owns g.old width (length a.now.items.now) a.now.len.now
        a.now.items.now }
    requires right { IsListIn L.owns g.old width (length a.now.items.now) b.now.len.now
        b.now.items.now }
    ensures extends { Extends L.owns L.reads L.count g.old g.new }
    ensures owned { IfOk result (λ r. L.owns g.new r) }
    ensures numbers { IfOk result (λ r. (vs : List Bool) → 0 < width →
        IsProper L.reads g.old vs a.now.len.now a.now.items.now →
        IsProper L.reads g.old vs b.now.len.now b.now.items.now → L.reads g.new vs r
        ≡ pointwise int_eq (map int_of (list_read L.reads g.old vs a.now.len.now a.now.items.now))
        (map int_of (list_read L.reads g.old vs b.now.len.now b.now.items.now))) }
    ensures characters { IfOk result (λ r. (vs : List Bool) →
        IsProper L.reads g.old vs a.now.len.now a.now.items.now →
        IsProper L.reads g.old vs b.now.len.now b.now.items.now → L.reads g.new vs r
        ≡ pointwise nat_eq (map nat_of (list_read L.reads g.old vs a.now.len.now a.now.items.now))
        (map nat_of (list_read L.reads g.old vs b.now.len.now b.now.items.now))) }
{
    let mut alike = equal_bits(g, a.len.as_slice(), b.len.as_slice())?;
    for j in 0..a.items.len() {
        let agrees = agrees_at(g, j, a.len, a.items.at(j), b.items.at(j))?;
        alike = g.and(alike, agrees)?;
    }
    Ok(alike)
}

/// Whether a word is among a list's items.
#[tactic(auto, using(crate::proofs::Held::steps))]
pub fn has_word<L: Logic>(
    g: &mut L,
    word: &Word<L::Bit>,
    a: &ListParts<'_, L::Bit>,
) -> Result<L::Bit, NoMemory>
    requires some { 0 < length word.now }
    requires few { length a.now.items.now ≤ 16 }
    requires word { OwnsAll L.owns g.old word.now }
    requires list { IsListIn L.owns g.old (length word.now) (length a.now.items.now) a.now.len.now
        a.now.items.now }
    ensures extends { Extends L.owns L.reads L.count g.old g.new }
    ensures owned { IfOk result (λ r. L.owns g.new r) }
    ensures value { IfOk result (λ r. (vs : List Bool) → L.reads g.new vs r
        ≡ has_number (int_read L.reads g.old vs word.now)
        (map int_of (list_read L.reads g.old vs a.now.len.now a.now.items.now))) }
{
    let mut found = g.constant(false);
    for j in 0..a.items.len() {
        let here = found_at(g, j, a.len, word, a.items.at(j))?;
        found = or(g, found, here)?;
    }
    Ok(found)
}
