//! Faults of blocks.
ghost use Rattle.std.specs.Prelude.{◌≡◌, [], IfOk};
ghost use Rattle.mpy_parser.specs.Faults.{block_fault, has_deeper};
ghost use Rattle.mpy_parser.specs.Open.{past_places, is_stray_at, arm_at, loop_at, place};
ghost use Rattle.mpy_parser.specs.Open.{is_fault_at};
ghost use Rattle.mpy_parser.specs.Views.{line_of, lines_of};

use crate::NoMemory;
use crate::entries::Entry;
use crate::kinds::{goes_on_arm, is_arm, is_function, is_loop, is_open, leaves};
use crate::places::Place;
use crate::stacks::Stack;
use std::alloc::Global;

// Takes the deeper places away.
#[tactic(auto, using(crate::proofs::Falls::places))]
fn close(above: &mut Stack<Place>, column: u32)
    ensures { above.new ≡ past_places column above.old }
{
    while let Some(nearest) = above.top() {
        if nearest.column <= column {
            return;
        }
        let _ = above.pop();
    }
}

fn is_stray(above: &Stack<Place>, column: u32) -> bool
    ensures { result ≡ is_stray_at column above.now }
{
    match above.top() {
        None => false,
        Some(nearest) => nearest.column < column && !nearest.is_open,
    }
}

fn is_below_arm(above: &Stack<Place>, column: u32) -> bool
    ensures { result ≡ arm_at column above.now }
{
    match above.top() {
        None => false,
        Some(nearest) => nearest.column == column && nearest.is_arm,
    }
}

fn is_in_loop(above: &Stack<Place>, column: u32) -> bool
    ensures { result ≡ loop_at column above.now }
{
    match above.top() {
        None => false,
        Some(nearest) => {
            if nearest.column < column {
                nearest.body_in_loop
            } else {
                nearest.in_loop
            }
        }
    }
}

fn has_deeper(column: u32, rest: &[Entry]) -> bool
    ensures { result ≡ has_deeper column (lines_of rest.now) }
{
    match rest {
        [] => false,
        [next, ..] => column < next.column,
    }
}

// Whether a line that isn't stray is at fault below places none of which is deeper.
fn is_at_fault(above: &Stack<Place>, entry: &Entry, rest: &[Entry]) -> bool
    ensures { result ≡ is_fault_at above.now (line_of entry.now) (lines_of rest.now) }
{
    let item = &entry.item;
    let column = entry.column;
    (is_open(item) && !has_deeper(column, rest))
        || (goes_on_arm(item) && !is_below_arm(above, column))
        || !((column == 0 && is_function(item)) || (!(column == 0) && !is_function(item)))
        || (leaves(item) && !(is_loop(item) || is_in_loop(above, column)))
}

fn place_of(above: &Stack<Place>, entry: &Entry) -> Place
    ensures { result ≡ place (line_of entry.now) above.now }
{
    let in_loop = is_in_loop(above, entry.column);
    Place {
        column: entry.column,
        is_open: is_open(&entry.item),
        is_arm: is_arm(&entry.item),
        in_loop,
        body_in_loop: is_loop(&entry.item) || in_loop,
    }
}

/// The first line whose block is at fault: it is deeper than a line that is no open header, an open
/// header with no deeper line next, an `elif` or `else` that goes on with no `if`, a function that
/// isn't at column 0 or another line that is, or it has a `break` or a `continue` outside a loop.
///
/// Takes time and memory linear in the number of lines.
#[tactic(auto, using(crate::proofs::Falls::place_faults))]
pub(crate) fn block_fault(alloc: Global, entries: &[Entry]) -> Result<Option<u32>, NoMemory>
    ensures { IfOk result (λ r. r ≡ block_fault [] (lines_of entries.now)) }
{
    let mut above = Stack::new(alloc);
    let mut rest = entries;
    while let [entry, behind @ ..] = rest {
        let stray = is_stray(&above, entry.column);
        close(&mut above, entry.column);
        if stray || is_at_fault(&above, entry, behind) {
            return Ok(Some(entry.line));
        }
        let place = place_of(&above, entry);
        above.push(place)?;
        rest = behind;
    }
    Ok(None)
}
