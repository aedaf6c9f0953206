//! Lists of given numbers.

ghost use Rattle.std.specs.Prelude.{◌≡◌, ◌<◌, ◌≤◌, Bool, true, List, length, map, All, pos, IfOk};
ghost use Rattle.std.specs.Prelude.{slice_index_or};
ghost use Rattle.bit_words.specs.Words.{fits, int_of};
ghost use Rattle.bit_lists.specs.Lists.{IsListIn, IsProper, list_read};

use crate::NoMemory;
use crate::lengths::constant_length;
use crate::lists::BitList;
use bit_words::logic::Logic;
use bit_words::number::number_word;
use bit_words::words::Words;
use std::alloc::Global;

/// The number at a place, and 0 past the end.
fn number_at(numbers: &[i32], place: usize) -> i32
    ensures { result ≡ slice_index_or numbers.now place (pos 0) }
{
    if place < numbers.len() {
        numbers[place]
    } else {
        0
    }
}

/// A list that is the same under all truth values. It has the numbers that fit the width.
#[tactic(auto, using(crate::proofs::Held::steps))]
pub fn constant_list<L: Logic>(
    alloc: Global,
    g: &L,
    numbers: &[i32],
    width: usize,
    cap: usize,
) -> Result<BitList<L::Bit>, NoMemory>
    requires some { 0 < width }
    requires few { cap ≤ 16 }
    requires within { length numbers.now ≤ cap }
    ensures made { IfOk result (λ r. IsListIn L.owns g.now width cap r.len r.items) }
    ensures proper { IfOk result (λ r. (vs : List Bool) → IsProper L.reads g.now vs r.len r.items) }
    ensures value { IfOk result (λ r. (vs : List Bool) →
        All (λ z. fits width z ≡ true) numbers.now →
        map int_of (list_read L.reads g.now vs r.len r.items) ≡ numbers.now) }
{
    let len = constant_length(alloc, g, numbers.len() as u32)?;
    let mut items = Words::new(alloc);
    for j in 0..cap {
        let item = number_word(alloc, g, number_at(numbers, j), width)?;
        items.push(item.word)?;
    }
    Ok(BitList { len, items })
}
