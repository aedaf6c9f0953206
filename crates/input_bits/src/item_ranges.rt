//! The items of lists and texts within their ranges.

ghost use Rattle.std.specs.Prelude.{◌≡◌, ◌<◌, ◌≤◌, ◌&&◌, Bool, List, true, length, map, take};
ghost use Rattle.std.specs.Prelude.{nat_le, All, IfOk};
ghost use Rattle.std.specs.List.{list_all};
ghost use Rattle.bit_words.specs.Logic.{Extends, OwnsAll};
ghost use Rattle.bit_words.specs.Results.{IsWordIn};
ghost use Rattle.bit_words.specs.Words.{nat_read};
ghost use Rattle.sym_values.specs.Forms.{joined, lengths};
ghost use Rattle.sym_values.specs.Results.{AreWordsIn};
ghost use Rattle.input_bits.specs.Known.{HoldsItems, is_item};

use bit_words::NoMemory;
use bit_words::bits::Bits;
use bit_words::bitwise::zeros;
use bit_words::gates::or;
use bit_words::logic::Logic;
use bit_words::order::less_number;
use bit_words::word::Word;
use bit_words::words::Words;
use bounds_reader::Param;
use input_ranges::{KnownBits, ranged_character, ranged_length, ranged_number};
use std::alloc::Global;

/// The ends of the range of a length.
#[derive(Clone, Copy)]
pub(crate) struct LengthRange {
    pub(crate) least: u32,
    pub(crate) most: u32,
}

// Words with what is known of them in their places, and whether that is right.
#[derive(Drop)]
struct KnownWords<B: Copy> {
    words: Words<B>,
    within: B,
}

/// A length and items with what is known of them, and whether that is right and they are in their
/// ranges.
#[derive(Drop)]
pub(crate) struct KnownItems<B: Copy> {
    pub(crate) len: Bits<B>,
    pub(crate) items: Words<B>,
    pub(crate) within: B,
}

// An item of a list or a text.
#[tactic(auto, using(bit_words::proofs::Kept::steps))]
fn ranged_item<L: Logic>(
    alloc: Global,
    g: &mut L,
    param: &Param,
    item: &Word<L::Bit>,
) -> Result<KnownBits<L::Bit>, NoMemory>
    requires range { HoldsItems param.now (length item.now) }
    requires owned { OwnsAll L.owns g.old item.now }
    ensures extends { Extends L.owns L.reads L.count g.old g.new }
    ensures made { IfOk result (λ r. IsWordIn L.owns g.new (length item.now) r.bits) }
    ensures owned { IfOk result (λ r. L.owns g.new r.within) }
    ensures within { IfOk result (λ r. (vs : List Bool) → L.reads g.new vs r.within
        ≡ is_item param.now (map (L.reads g.old vs) item.now)) }
    ensures same { IfOk result (λ r. (vs : List Bool) → L.reads g.new vs r.within ≡ true
        → map (L.reads g.new vs) r.bits ≡ map (L.reads g.old vs) item.now) }
{
    match param {
        Param::List { low, high, .. } => {
            let known = ranged_number(alloc, g, item, *low, *high)?;
            Ok(known)
        }
        Param::Text { alphabet, .. } => {
            let known = ranged_character(alloc, g, item.as_slice(), alphabet.bytes())?;
            Ok(known)
        }
        _ => {
            let word = item.copy()?;
            let bits = Bits::from_vec(word.into_vec());
            let within = g.constant(true);
            Ok(KnownBits { bits, within })
        }
    }
}

// The first so many items, and whether those within the length are in their range.
#[tactic(auto, using(bit_words::proofs::Kept::steps))]
fn ranged_items<L: Logic>(
    alloc: Global,
    g: &mut L,
    param: &Param,
    len: &[L::Bit],
    items: &Words<L::Bit>,
    most: u32,
) -> Result<KnownWords<L::Bit>, NoMemory>
    requires most { most ≤ length items.now }
    requires range { All (HoldsItems param.now) (lengths items.now) }
    requires owned_len { OwnsAll L.owns g.old len.now }
    requires owned { OwnsAll L.owns g.old (joined items.now) }
    ensures extends { Extends L.owns L.reads L.count g.old g.new }
    ensures made { IfOk result (λ r.
        AreWordsIn L.owns g.new (take most (lengths items.now)) r.words) }
    ensures owned { IfOk result (λ r. L.owns g.new r.within) }
    ensures within { IfOk result (λ r. (vs : List Bool) → L.reads g.new vs r.within
        ≡ list_all (is_item param.now) (take (nat_read L.reads g.old vs len.now)
        (take most (map (map (L.reads g.old vs)) items.now)))) }
    ensures same { IfOk result (λ r. (vs : List Bool) → L.reads g.new vs r.within ≡ true
        → take (nat_read L.reads g.old vs len.now) (map (map (L.reads g.new vs)) r.words)
        ≡ take (nat_read L.reads g.old vs len.now)
        (take most (map (map (L.reads g.old vs)) items.now))) }
{
    let mut words = Words::new(alloc);
    let mut within = g.constant(true);
    for j in 0..most {
        let item = items.at(j as usize);
        let known = ranged_item(alloc, g, param, item)?;
        let right = known.within;
        let word = Word::from_vec(known.bits.into_vec());
        let past = less_number(g, len, j + 1)?;
        let fine = or(g, past, right)?;
        within = g.and(within, fine)?;
        words.push(word)?;
    }
    Ok(KnownWords { words, within })
}

/// So many words as there are items, and as wide: those that are there, and behind them 0.
pub(crate) fn filled_up<L: Logic>(
    alloc: Global,
    g: &L,
    words: Words<L::Bit>,
    items: &Words<L::Bit>,
) -> Result<Words<L::Bit>, NoMemory>
    requires owned { OwnsAll L.owns g.now (joined words) }
    requires widths { lengths words ≡ take (length words) (lengths items.now) }
    ensures made { IfOk result (λ r. AreWordsIn L.owns g.now (lengths items.now) r) }
    ensures first { IfOk result (λ r. take (length words) r ≡ words) }
{
    let start = words.len();
    let count = items.len();
    let mut whole = words;
    for j in start..count {
        let width = items.at(j).len();
        let zero = zeros(alloc, g, width)?;
        whole.push(zero)?;
    }
    Ok(whole)
}

/// The length and the items of a list or a text with what their ranges fix, and whether the length
/// and the items within it are in their ranges.
#[tactic(auto, using(bit_words::proofs::Kept::steps))]
pub(crate) fn ranged_sequence<L: Logic>(
    alloc: Global,
    g: &mut L,
    param: &Param,
    ends: LengthRange,
    len: &Bits<L::Bit>,
    items: &Words<L::Bit>,
) -> Result<KnownItems<L::Bit>, NoMemory>
    requires most { ends.most ≤ length items.now }
    requires short { ends.most ≤ 16 }
    requires range { All (HoldsItems param.now) (lengths items.now) }
    requires owned_len { OwnsAll L.owns g.old len.now }
    requires owned { OwnsAll L.owns g.old (joined items.now) }
    ensures extends { Extends L.owns L.reads L.count g.old g.new }
    ensures made_len { IfOk result (λ r. IsWordIn L.owns g.new (length len.now) r.len) }
    ensures made { IfOk result (λ r. AreWordsIn L.owns g.new (lengths items.now) r.items) }
    ensures owned { IfOk result (λ r. L.owns g.new r.within) }
    ensures within { IfOk result (λ r. (vs : List Bool) → L.reads g.new vs r.within
        ≡ ((nat_le ends.least (nat_read L.reads g.old vs len.now)
        && nat_le (nat_read L.reads g.old vs len.now) ends.most)
        && list_all (is_item param.now) (take (nat_read L.reads g.old vs len.now)
        (map (map (L.reads g.old vs)) items.now)))) }
    ensures same { IfOk result (λ r. (vs : List Bool) → L.reads g.new vs r.within ≡ true
        → (map (L.reads g.new vs) r.len ≡ map (L.reads g.old vs) len.now)
        × (take (nat_read L.reads g.old vs len.now) (map (map (L.reads g.new vs)) r.items)
        ≡ take (nat_read L.reads g.old vs len.now) (map (map (L.reads g.old vs)) items.now))) }
{
    let length = ranged_length(alloc, g, len.as_slice(), ends.least, ends.most)?;
    let fits = length.within;
    let bits = length.bits;
    let known = ranged_items(alloc, g, param, bits.as_slice(), items, ends.most)?;
    let right = known.within;
    let words = known.words;
    let within = g.and(fits, right)?;
    let whole = filled_up(alloc, g, words, items)?;
    Ok(KnownItems {
        len: bits,
        items: whole,
        within,
    })
}
