//! The choices that a table has at a cost.
ghost use Rattle.std.specs.Prelude.{◌≡◌, ◌<◌, ◌++◌, IfOk, IsTrue, OnOk, Some, [], length};
ghost use Rattle.std.specs.Prelude.{map, slice_get};
ghost use Rattle.cost_levels.specs.Walks.{IsCounted};
ghost use Rattle.cost_levels.specs.Plans.{Plan, done, listed, listed_by, no_ways, way_and};
ghost use Rattle.cost_levels.specs.Rows.{IsEntry, Shows};

use crate::NoMemory;
use crate::counting::Counts;
use crate::rows::{Row, Way};
use choice_tree::{Choice, Selection};
use std::alloc::Global;

/// A table, and numbers of the selections from its entries on.
#[derive(Drop)]
pub(crate) struct Walk<'a> {
    pub(crate) rows: &'a [Row],
    pub(crate) counts: &'a Counts,
}

impl Walk<'_> {
    // Whether it is known that no selection from an entry on costs this much.
    fn has_none(&self, entry: usize, cost: usize) -> bool
        requires entry { IsEntry self.now.rows.now entry }
        requires counts { IsCounted self.now }
        ensures { IsTrue result → (p : Plan) → Shows self.now.rows.now entry p
            → listed p cost ≡ [] }
    {
        cost < self.counts.width && self.counts.at(entry, cost) == 0
    }
}

/// The selections from an entry on that cost this much.
pub(crate) fn listed_from(
    alloc: Global,
    walk: &Walk<'_>,
    entry: usize,
    cost: u32,
) -> Result<Vec<Selection>, NoMemory>
    requires entry { IsEntry walk.now.rows.now entry }
    requires counts { IsCounted walk.now }
    ensures { IfOk result (λ v. (p : Plan) → Shows walk.now.rows.now entry p
        → v.items ≡ listed p cost) }
{
    let mut chosen = Vec::new(alloc);
    let mut listed = Vec::new(alloc);
    push_listed(walk, entry, cost, &mut chosen, &mut listed)?;
    Ok(listed)
}

// Appends the choices from an entry on that cost this much, each behind those that were made.
#[cycle(listing)]
fn push_listed(
    walk: &Walk<'_>,
    entry: usize,
    left: u32,
    chosen: &mut Vec<Choice>,
    out: &mut Vec<Selection>,
) -> Result<(), NoMemory>
    requires entry { IsEntry walk.now.rows.now entry }
    requires counts { IsCounted walk.now }
    ensures chosen { OnOk result (chosen.new.items ≡ chosen.old.items) }
    ensures listed { OnOk result ((p : Plan) → Shows walk.now.rows.now entry p
        → out.new.items ≡ out.old.items ++ map (λ s. chosen.old.items ++ s) (listed p left)) }
{
    if walk.has_none(entry, left as usize) {
        return Ok(());
    }
    if entry == 0 {
        return push_end(left, chosen, out);
    }
    let row = row_at(walk.rows, entry - 1);
    push_listed(walk, row.base, left, chosen, out)?;
    for (i, way) in row.others.iter().enumerate() {
        let choice = Choice {
            pick: row.number,
            member: i as u32 + 1,
        };
        push_chosen(walk, choice, *way, left, chosen, out)?;
    }
    Ok(())
}

// Appends those that begin with a member, where its cost is within what is left.
#[cycle(listing)]
fn push_chosen(
    walk: &Walk<'_>,
    choice: Choice,
    way: Way,
    left: u32,
    chosen: &mut Vec<Choice>,
    out: &mut Vec<Selection>,
) -> Result<(), NoMemory>
    requires entry { IsEntry walk.now.rows.now way.next }
    requires counts { IsCounted walk.now }
    ensures chosen { OnOk result (chosen.new.items ≡ chosen.old.items) }
    ensures listed { OnOk result ((p : Plan) → Shows walk.now.rows.now way.next p
        → out.new.items ≡ out.old.items ++ map (λ s. chosen.old.items ++ s)
        (listed_by (way_and way.cost p no_ways) choice.pick choice.member left)) }
{
    if left < way.cost {
        return Ok(());
    }
    let made = chosen.len();
    chosen.push(choice)?;
    push_listed(walk, way.next, left - way.cost, chosen, out)?;
    chosen.truncate(made);
    Ok(())
}

// The row at a place.
fn row_at(rows: &[Row], place: usize) -> &Row
    requires { place < length rows.now }
    ensures { slice_get rows.now place ≡ Some result.now }
{
    &rows[place]
}

// At the end there is nothing more to choose, which costs nothing.
fn push_end(left: u32, chosen: &Vec<Choice>, out: &mut Vec<Selection>) -> Result<(), NoMemory>
    ensures { OnOk result (out.new.items ≡ out.old.items
        ++ map (λ s. chosen.now.items ++ s) (listed done left)) }
{
    if left == 0 {
        let copy = Vec::from_slice(*chosen.allocator(), chosen.as_slice())?;
        out.push(Selection::from_vec(copy))?;
    }
    Ok(())
}
