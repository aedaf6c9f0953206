//! The binary digits of a column's numbers, as truth tables.

ghost use Rattle.std.specs.Prelude.{◌≡◌, ◌<◌, ◌≤◌, ℕ, Bool, List, length, map, Some, IfOk};
ghost use Rattle.std.specs.Prelude.{slice_get};
ghost use Rattle.bit_words.specs.Results.{IsWordIn};
ghost use Rattle.bit_lanes.specs.Digits.{digits_of};
ghost use Rattle.bit_lanes.specs.declared.lanes.Lanes.{Lanes as AnyLanes};
ghost use Rattle.bit_lanes.specs.Lane.{lane_bit, lane_of, reads_table};
ghost use Rattle.bit_lanes.specs.LaneCases.{Owns};

use bit_words::NoMemory;
use std::alloc::Global;

/// The table of a digit: in each lane the digit of the lane's number.
pub(crate) fn table(column: &[u64], digit: usize) -> u64
    requires lanes { length column.now ≤ 64 }
    requires digit { digit < 64 }
    ensures { (lane number : ℕ) → slice_get column.now lane ≡ Some number
        → lane_bit result lane ≡ lane_bit number digit }
{
    let mut table = 0;
    for lane in 0..column.len() {
        let bit = (column[lane] >> digit) & 1;
        table += bit << lane;
    }
    table
}

/// The tables of so many digits, the lowest first.
pub(crate) fn tables(alloc: Global, column: &[u64], count: usize) -> Result<Vec<u64>, NoMemory>
    requires lanes { length column.now ≤ 64 }
    requires digits { count ≤ 64 }
    ensures made { IfOk result (λ r. (s : AnyLanes) → IsWordIn Owns s count r.items) }
    ensures value { IfOk result (λ r. (vs : List Bool) (number : ℕ)
        → slice_get column.now (lane_of 6 vs) ≡ Some number
        → map (reads_table vs) r.items ≡ digits_of count number) }
{
    let mut all = Vec::with_capacity(alloc, count)?;
    for digit in 0..count {
        all.push(table(column, digit))?;
    }
    Ok(all)
}
