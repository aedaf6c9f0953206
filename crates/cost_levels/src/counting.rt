//! How many selections a table has at each cost.
ghost use Rattle.std.specs.Prelude.{◌≡◌, ◌<◌, ◌+◌, ◌*◌, ℕ, suc, List, [], Some, IfOk, OnOk};
ghost use Rattle.std.specs.Prelude.{length, min, slice_get};
ghost use Rattle.cost_levels.specs.Counts.{AreCounts, CountsSoFar, Reaches, ReachesAll};
ghost use Rattle.cost_levels.specs.Counts.{ReachesRow, counted, count_most, place_in};
ghost use Rattle.cost_levels.specs.Plans.{Plan, Ways, at_pick, listed, listed_by, no_ways};
ghost use Rattle.cost_levels.specs.Plans.{way_and};
ghost use Rattle.cost_levels.specs.Rows.{IsTable, Shows, ShowWays};
ghost use Rattle.cost_levels.specs.declared.rows.Row.{Row};

use crate::NoMemory;
use crate::rows::{Row, Way};
use std::alloc::{AllocError, Global};

/// Where the count of selections stops.
pub const COUNT_MOST: u32 = 100_001;

/// The numbers of selections from each entry of a table on, at each cost below the width.
#[derive(Drop)]
pub(crate) struct Counts {
    pub(crate) width: usize,
    numbers: Vec<u32>,
}

impl Counts {
    /// Those of no cost, for any table.
    pub(crate) fn none(alloc: Global) -> Counts
        ensures { (rows : List Row) → AreCounts rows result }
    {
        Counts {
            width: 0,
            numbers: Vec::new(alloc),
        }
    }

    /// Those of a table, at the costs up to one. Rows go on to rows before them alone, so that each
    /// number comes of earlier ones.
    pub(crate) fn of(alloc: Global, rows: &[Row], cost: u32) -> Result<Counts, NoMemory>
        requires { IsTable rows.now }
        ensures right { IfOk result (AreCounts rows.now) }
        ensures wide { IfOk result (λ c. c.width ≡ suc cost) }
    {
        let width = cost as usize + 1;
        let Some(room) = width.checked_mul(rows.len() + 1) else {
            return Err(AllocError);
        };
        let mut counts = Counts {
            width,
            numbers: Vec::with_capacity(alloc, room)?,
        };
        counts.push_end()?;
        for row in rows {
            counts.push_row(row)?;
        }
        Ok(counts)
    }

    /// The number at an entry and a cost.
    pub(crate) fn at(&self, entry: usize, cost: usize) -> u32
        requires { Reaches self.now entry cost }
        ensures { slice_get self.now.numbers.items (place_in self.now entry cost) ≡ Some result }
    {
        self.numbers[entry * self.width + cost]
    }

    // At the end there is nothing more to choose, which costs nothing.
    fn push_end(&mut self) -> Result<(), NoMemory>
        requires none { self.old.numbers.items ≡ [] }
        requires wide { 0 < self.old.width }
        ensures width { OnOk result (self.new.width ≡ self.old.width) }
        ensures right { OnOk result ((rows : List Row) → CountsSoFar rows self.new) }
        ensures many { OnOk result (length self.new.numbers.items ≡ self.new.width) }
    {
        self.numbers.push(1)?;
        for _cost in 1..self.width {
            self.numbers.push(0)?;
        }
        Ok(())
    }

    // Appends the numbers from a row on.
    fn push_row(&mut self, row: &Row) -> Result<(), NoMemory>
        requires { ReachesRow self.old row.now }
        ensures width { OnOk result (self.new.width ≡ self.old.width) }
        ensures many { OnOk result (length self.new.numbers.items
            ≡ length self.old.numbers.items + self.new.width) }
        ensures right { OnOk result ((rows : List Row) (place : ℕ)
            → slice_get rows place ≡ Some row.now
            → length self.old.numbers.items ≡ suc place * self.old.width
            → CountsSoFar rows self.old → CountsSoFar rows self.new) }
    {
        for cost in 0..self.width {
            let number = self.number_from(row, cost);
            self.numbers.push(number)?;
        }
        Ok(())
    }

    // The number from a row on: that of its base, and those of its members.
    fn number_from(&self, row: &Row, cost: usize) -> u32
        requires reach { ReachesRow self.now row.now }
        requires within { cost < self.now.width }
        ensures { (rows : List Row) (base : Plan) (ws : Ways) → CountsSoFar rows self.now
            → Shows rows row.now.base base
            → ((most : ℕ) × ShowWays rows most row.now.others.items ws)
            → result ≡ counted (listed (at_pick row.now.number base ws) cost) }
    {
        let mut number = self.at(row.base, cost);
        for way in &row.others {
            number = self.with_member(number, *way, cost);
        }
        number
    }

    // A number, and that of a member at what it leaves of the cost.
    fn with_member(&self, number: u32, way: Way, cost: usize) -> u32
        requires reach { ReachesAll self.now way.next }
        requires within { cost < self.now.width }
        ensures { (rows : List Row) (next : Plan) (pick i : ℕ) → CountsSoFar rows self.now
            → Shows rows way.next next → result ≡ min (number
            + length (listed_by (way_and way.cost next no_ways) pick i cost)) count_most }
    {
        let price = way.cost as usize;
        if cost < price {
            return number.min(COUNT_MOST);
        }
        let more = self.at(way.next, cost - price);
        number.saturating_add(more).min(COUNT_MOST)
    }
}
