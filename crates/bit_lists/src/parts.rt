//! Whether a text stands in another.

ghost use Rattle.std.specs.Prelude.{◌≡◌, ◌<◌, ◌≤◌, ◌+◌, ℕ, Bool, List, length, map, drop, not};
ghost use Rattle.std.specs.Prelude.{◌&&◌, ◌||◌, nat_lt, nat_eq, IfOk};
ghost use Rattle.mpy_tree.specs.Operations.{is_front, is_part};
ghost use Rattle.bit_words.specs.Logic.{Extends, OwnsAll};
ghost use Rattle.bit_words.specs.Words.{nat_of, nat_read};
ghost use Rattle.bit_lists.specs.Lists.{IsListIn, IsProper, list_read, word_at, words_read};

use crate::NoMemory;
use crate::choices::is_below;
use crate::compare::found_at;
use crate::lists::ListParts;
use bit_words::gates::or;
use bit_words::logic::Logic;

/// Whether a place lies past a text's end.
#[tactic(auto, using(crate::proofs::Held::steps))]
fn is_past<L: Logic>(g: &mut L, place: usize, number: &[L::Bit]) -> Result<L::Bit, NoMemory>
    requires small { place < 16 }
    requires owned { OwnsAll L.owns g.old number.now }
    ensures extends { Extends L.owns L.reads L.count g.old g.new }
    ensures owned { IfOk result (λ r. L.owns g.new r) }
    ensures value { IfOk result (λ r. (vs : List Bool) →
        L.reads g.new vs r ≡ not (nat_lt place (nat_read L.reads g.old vs number.now))) }
{
    let within = is_below(g, place, number)?;
    Ok(g.not(within))
}

/// Whether a place lies past a text's end, or its character there is that of another text at
/// another place.
#[tactic(auto, using(crate::proofs::Held::steps))]
fn agrees_on<L: Logic>(
    g: &mut L,
    part: &ListParts<'_, L::Bit>,
    text: &ListParts<'_, L::Bit>,
    place: usize,
    spot: usize,
) -> Result<L::Bit, NoMemory>
    ghost width: { ℕ }
    requires few { length part.now.items.now ≤ 16 }
    requires part { IsListIn L.owns g.old width (length part.now.items.now) part.now.len.now
        part.now.items.now }
    requires text { IsListIn L.owns g.old width (length part.now.items.now) text.now.len.now
        text.now.items.now }
    requires place { place < length part.now.items.now }
    requires spot { spot < length text.now.items.now }
    ensures extends { Extends L.owns L.reads L.count g.old g.new }
    ensures owned { IfOk result (λ r. L.owns g.new r) }
    ensures value { IfOk result (λ r. (vs : List Bool) → L.reads g.new vs r
        ≡ (not (nat_lt place (nat_read L.reads g.old vs part.now.len.now))
        || (nat_lt spot (nat_read L.reads g.old vs text.now.len.now)
        && nat_eq (nat_of (word_at (words_read L.reads g.old vs part.now.items.now) place))
        (nat_of (word_at (words_read L.reads g.old vs text.now.items.now) spot))))) }
{
    let past = is_past(g, place, part.len.as_slice())?;
    let found = found_at(g, spot, text.len, part.items.at(place), text.items.at(spot))?;
    let agrees = or(g, past, found)?;
    Ok(agrees)
}

/// The same, of a place that lies so many places on; past the text's end there is no character.
#[tactic(auto, using(crate::proofs::Held::steps))]
fn agrees_from<L: Logic>(
    g: &mut L,
    part: &ListParts<'_, L::Bit>,
    text: &ListParts<'_, L::Bit>,
    start: usize,
    place: usize,
) -> Result<L::Bit, NoMemory>
    ghost width: { ℕ }
    requires few { length part.now.items.now ≤ 16 }
    requires part { IsListIn L.owns g.old width (length part.now.items.now) part.now.len.now
        part.now.items.now }
    requires text { IsListIn L.owns g.old width (length part.now.items.now) text.now.len.now
        text.now.items.now }
    requires start { start < length part.now.items.now }
    requires place { place < length part.now.items.now }
    ensures extends { Extends L.owns L.reads L.count g.old g.new }
    ensures owned { IfOk result (λ r. L.owns g.new r) }
    ensures value { IfOk result (λ r. (vs : List Bool) →
        IsProper L.reads g.old vs text.now.len.now text.now.items.now → L.reads g.new vs r
        ≡ (not (nat_lt place (nat_read L.reads g.old vs part.now.len.now))
        || (nat_lt (start + place) (nat_read L.reads g.old vs text.now.len.now)
        && nat_eq (nat_of (word_at (words_read L.reads g.old vs part.now.items.now) place))
        (nat_of (word_at (words_read L.reads g.old vs text.now.items.now) (start + place)))))) }
{
    let spot = start + place;
    if spot < text.items.len() {
        return agrees_on(g, part, text, place, spot);
    }
    let past = is_past(g, place, part.len.as_slice())?;
    Ok(past)
}

/// Whether a text stands in another from a place on.
#[tactic(auto, using(crate::proofs::Held::steps))]
fn front_at<L: Logic>(
    g: &mut L,
    part: &ListParts<'_, L::Bit>,
    text: &ListParts<'_, L::Bit>,
    start: usize,
) -> Result<L::Bit, NoMemory>
    ghost width: { ℕ }
    requires few { length part.now.items.now ≤ 16 }
    requires part { IsListIn L.owns g.old width (length part.now.items.now) part.now.len.now
        part.now.items.now }
    requires text { IsListIn L.owns g.old width (length part.now.items.now) text.now.len.now
        text.now.items.now }
    requires start { start < length part.now.items.now }
    ensures extends { Extends L.owns L.reads L.count g.old g.new }
    ensures owned { IfOk result (λ r. L.owns g.new r) }
    ensures value { IfOk result (λ r. (vs : List Bool) →
        IsProper L.reads g.old vs part.now.len.now part.now.items.now →
        IsProper L.reads g.old vs text.now.len.now text.now.items.now → L.reads g.new vs r
        ≡ is_front
        (map nat_of (list_read L.reads g.old vs part.now.len.now part.now.items.now))
        (drop start (map nat_of
        (list_read L.reads g.old vs text.now.len.now text.now.items.now)))) }
{
    let mut front = g.constant(true);
    for j in 0..part.items.len() {
        let agrees = agrees_from(g, part, text, start, j)?;
        front = g.and(front, agrees)?;
    }
    Ok(front)
}

/// Whether a text stands anywhere in another.
#[tactic(auto, using(crate::proofs::Held::steps))]
pub fn has_part<L: Logic>(
    g: &mut L,
    part: &ListParts<'_, L::Bit>,
    text: &ListParts<'_, L::Bit>,
) -> Result<L::Bit, NoMemory>
    ghost width: { ℕ }
    requires some { 0 < length part.now.items.now }
    requires few { length part.now.items.now ≤ 16 }
    requires part { IsListIn L.owns g.old width (length part.now.items.now) part.now.len.now
        part.now.items.now }
    requires text { IsListIn L.owns g.old width (length part.now.items.now) text.now.len.now
        text.now.items.now }
    ensures extends { Extends L.owns L.reads L.count g.old g.new }
    ensures owned { IfOk result (λ r. L.owns g.new r) }
    ensures value { IfOk result (λ r. (vs : List Bool) →
        IsProper L.reads g.old vs part.now.len.now part.now.items.now →
        IsProper L.reads g.old vs text.now.len.now text.now.items.now → L.reads g.new vs r
        ≡ is_part
        (map nat_of (list_read L.reads g.old vs part.now.len.now part.now.items.now))
        (map nat_of (list_read L.reads g.old vs text.now.len.now text.now.items.now))) }
{
    let mut found = g.constant(false);
    for j in 0..part.items.len() {
        let here = front_at(g, part, text, j)?;
        found = or(g, found, here)?;
    }
    Ok(found)
}
