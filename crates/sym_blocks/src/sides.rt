//! Paths that may be known not to be taken.

ghost use Rattle.std.specs.Prelude.{◌≡◌, Bool, List, Option, OnOk, option_to_list};
ghost use Rattle.mpy_tree.specs.Statements.{Next};
ghost use Rattle.mpy_tree.specs.Values.{State};
ghost use Rattle.sym_paths.specs.Endings.{and_seen, see, seen_from, HoldsOut};
ghost use Rattle.sym_paths.specs.Paths.{gone_way, reached, ways, HoldsPaths};
ghost use Rattle.sym_paths.specs.Slots.{slot_forms};

use bit_words::NoMemory;
use bit_words::logic::Logic;
use sym_paths::outs::add_next;
use sym_paths::{Out, Path, Slots};

/// A path to the next statement, if there is one, after the ways out so far.
pub fn add_side<L: Logic>(
    g: &L,
    slots: &Slots,
    out: &mut Out<L::Bit>,
    side: Option<Path<L::Bit>>,
) -> Result<(), NoMemory>
    requires so_far { HoldsOut L.owns g.now slots.now out.old }
    requires side { HoldsPaths L.owns g.now (slot_forms slots.now) (option_to_list side) }
    ensures held { OnOk result (HoldsOut L.owns g.now slots.now out.new) }
    ensures value { OnOk result ((vs : List Bool) (o : Option State) →
        gone_way slots.now (ways (L.reads g.now vs) (option_to_list side)) ≡ reached o
        → see (L.reads g.now vs) slots.now out.new
        ≡ and_seen (see (L.reads g.now vs) slots.now out.old) (seen_from o Next)) }
{
    match side {
        None => Ok(()),
        Some(path) => {
            add_next(g, slots, out, path)?;
            Ok(())
        }
    }
}
