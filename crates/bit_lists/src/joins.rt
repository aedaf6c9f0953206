//! A list after another, and a list with one item more.

ghost use Rattle.std.specs.Prelude.{◌≡◌, ◌<◌, ◌≤◌, ◌++◌, ℕ, Bool, List, [], ◌∷◌, length, map, IfOk};
ghost use Rattle.bit_words.specs.Logic.{Extends, OwnsAll};
ghost use Rattle.bit_words.specs.Results.{IsWordIn};
ghost use Rattle.bit_lists.specs.Lists.{IsListIn, IsProper, list_read, ReadsWithin};

use crate::NoMemory;
use crate::choices::{splice, with_item};
use crate::lengths::{constant_length, count_of, sum_within};
use crate::lists::{CheckedList, ListParts};
use crate::shifts::{Direction, moved};
use bit_words::logic::Logic;
use bit_words::word::Word;
use std::alloc::Global;

/// The items of the first list and then those of the second, where the items can hold them.
#[tactic(auto, using(crate::proofs::Held::steps))]
pub fn concat<L: Logic>(
    alloc: Global,
    g: &mut L,
    a: &ListParts<'_, L::Bit>,
    b: &ListParts<'_, L::Bit>,
) -> Result<CheckedList<L::Bit>, NoMemory>
    ghost width: { ℕ }
    requires few { length a.now.items.now ≤ 16 }
    requires left { IsListIn L.owns g.old width (length a.now.items.now) a.now.len.now
        a.now.items.now }
    requires right { IsListIn L.owns g.old width (length a.now.items.now) b.now.len.now
        b.now.items.now }
    ensures extends { Extends L.owns L.reads L.count g.old g.new }
    ensures made { IfOk result (λ r.
        IsListIn L.owns g.new width (length a.now.items.now) r.len r.items) }
    ensures owned { IfOk result (λ r. L.owns g.new r.fault) }
    ensures proper { IfOk result (λ r. (vs : List Bool) → IsProper L.reads g.new vs r.len r.items) }
    ensures value { IfOk result (λ r. (vs : List Bool) →
        IsProper L.reads g.old vs a.now.len.now a.now.items.now →
        IsProper L.reads g.old vs b.now.len.now b.now.items.now →
        ReadsWithin (length a.now.items.now) (L.reads g.new vs r.fault)
        (list_read L.reads g.new vs r.len r.items)
        (list_read L.reads g.old vs a.now.len.now a.now.items.now
        ++ list_read L.reads g.old vs b.now.len.now b.now.items.now)) }
{
    let cap = count_of(a.items);
    let total = sum_within(alloc, g, a.len, b.len, cap)?;
    let number = a.len.as_slice();
    let raised = moved(alloc, g, number, Direction::Up, b.items)?;
    let items = splice(alloc, g, number, a.items, &raised)?;
    Ok(CheckedList {
        len: total.len,
        items,
        fault: total.fault,
    })
}

/// The items of a list and then a word, where the items can hold them.
#[tactic(auto, using(crate::proofs::Held::steps))]
pub fn append<L: Logic>(
    alloc: Global,
    g: &mut L,
    a: &ListParts<'_, L::Bit>,
    word: &Word<L::Bit>,
) -> Result<CheckedList<L::Bit>, NoMemory>
    requires few { length a.now.items.now ≤ 16 }
    requires list { IsListIn L.owns g.old (length word.now) (length a.now.items.now) a.now.len.now
        a.now.items.now }
    requires word { OwnsAll L.owns g.old word.now }
    ensures extends { Extends L.owns L.reads L.count g.old g.new }
    ensures made { IfOk result (λ r.
        IsListIn L.owns g.new (length word.now) (length a.now.items.now) r.len r.items) }
    ensures owned { IfOk result (λ r. L.owns g.new r.fault) }
    ensures proper { IfOk result (λ r. (vs : List Bool) → IsProper L.reads g.new vs r.len r.items) }
    ensures value { IfOk result (λ r. (vs : List Bool) →
        IsProper L.reads g.old vs a.now.len.now a.now.items.now →
        ReadsWithin (length a.now.items.now) (L.reads g.new vs r.fault)
        (list_read L.reads g.new vs r.len r.items)
        (list_read L.reads g.old vs a.now.len.now a.now.items.now
        ++ map (L.reads g.old vs) word.now ∷ [])) }
{
    let cap = count_of(a.items);
    let one = constant_length(alloc, g, 1)?;
    let total = sum_within(alloc, g, a.len, &one, cap)?;
    let items = with_item(alloc, g, a.len.as_slice(), word, a.items)?;
    Ok(CheckedList {
        len: total.len,
        items,
        fault: total.fault,
    })
}
