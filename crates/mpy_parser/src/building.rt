//! Programs built from their lines.
ghost use Rattle.std.specs.Prelude.{◌≡◌, [], None, IfOk};
ghost use Rattle.mpy_tree.specs.View.{routines_of};
ghost use Rattle.mpy_parser.specs.Views.{lines_of};
ghost use Rattle.mpy_parser.specs.Faults.{block_fault};
ghost use Rattle.mpy_parser.specs.Indents.{item_indent_fault};
ghost use Rattle.mpy_parser.specs.Nesting.{AreRoutines};
ghost use Rattle.mpy_parser.specs.Piles.{heap, with_lines};

use crate::NoMemory;
use crate::entries::Entry;
use crate::piles::Pile;
use mpy_tree::{Funcs, Prog};
use std::alloc::Global;

// The functions that the lines put together, the last line first.
#[tactic(auto, using(crate::proofs::Piled::last_line))]
pub(crate) fn assemble(alloc: Global, mut entries: Vec<Entry>) -> Result<Prog, NoMemory>
    ensures { IfOk result
        (λ p. routines_of p ≡ (with_lines (lines_of entries.items) (heap [] [])).made) }
{
    let mut pile = Pile::new(alloc);
    while let Some(entry) = entries.pop() {
        pile.add(alloc, entry)?;
    }
    Ok(Prog {
        funcs: Funcs {
            items: pile.made.into_vec(),
        },
    })
}

/// The program whose lines these are.
///
/// Takes time and memory linear in the number of lines, and copies no expression.
pub(crate) fn build(alloc: Global, entries: Vec<Entry>) -> Result<Prog, NoMemory>
    requires columns { item_indent_fault [] (lines_of entries.items) ≡ None }
    requires blocks { block_fault [] (lines_of entries.items) ≡ None }
    ensures { IfOk result (λ p. AreRoutines (lines_of entries.items) (routines_of p)) }
{
    assemble(alloc, entries)
}
