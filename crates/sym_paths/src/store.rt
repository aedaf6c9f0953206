//! Statements that take a value: one sets a local, one prints.

ghost use Rattle.std.specs.Prelude.{◌≡◌, ℕ, Bool, List, [], ◌∷◌, length, Option, Some, IfOk};
ghost use Rattle.std.specs.declared.result.Result.{Result};
ghost use Rattle.mpy_tree.specs.declared.outcome.Halted.{Halted};
ghost use Rattle.mpy_tree.specs.declared.typing.Ty.{Ty};
ghost use Rattle.mpy_tree.specs.declared.value.Value.{Value};
ghost use Rattle.mpy_tree.specs.Values.{State};
ghost use Rattle.mpy_tree.specs.Statements.{given, printed, store};
ghost use Rattle.bit_words.specs.Logic.{Extends};
ghost use Rattle.sym_values.specs.Forms.{form_for};
ghost use Rattle.sym_values.specs.Reading.{OutcomeReads};
ghost use Rattle.sym_values.specs.Results.{IsOutcomeIn};
ghost use Rattle.sym_paths.specs.Paths.{way, gone_way, reached, HoldsPath};
ghost use Rattle.sym_paths.specs.Endings.{see, seen_from, HoldsOut};
ghost use Rattle.sym_paths.specs.Slots.{KeepsByLimits, slot_forms, type_among};

use crate::assign::assign;
use crate::outs::out_next;
use crate::path::{Out, Path};
use crate::printed::keep_printed;
use crate::slots::Slots;
use crate::split::narrow;
use bit_words::NoMemory;
use bit_words::logic::Logic;
use mpy_tree::Name;
use std::alloc::Global;
use sym_values::SymOutcome;

/// A local is set to an outcome of its type. Where that is a fault the path ends.
pub fn out_stored<L: Logic>(
    alloc: Global,
    g: &mut L,
    slots: &Slots,
    path: Path<L::Bit>,
    x: &Name,
    outcome: SymOutcome<L::Bit>,
) -> Result<Out<L::Bit>, NoMemory>
    requires held { HoldsPath L.owns g.old (slot_forms slots.now) path }
    requires typed { (t : Ty) × (type_among slots.now.names slots.now.types x.now ≡ Some t)
        × IsOutcomeIn L.owns g.old (form_for slots.now.limits t) outcome }
    ensures extends { Extends L.owns L.reads L.count g.old g.new }
    ensures held { IfOk result (λ r.
        HoldsOut L.owns g.new slots.now r) }
    ensures value { IfOk result (λ r.
        (vs : List Bool) (o : Option State) (k : State → Result Value Halted)
        → gone_way slots.now (way (L.reads g.old vs) path ∷ []) ≡ reached o
        → ((s : State) → o ≡ Some s → OutcomeReads (L.reads g.old vs) outcome (k s))
        → see (L.reads g.new vs) slots.now r ≡ seen_from o (λ s. store s x.now (k s))) }
{
    let fine = g.not(outcome.fault);
    let here = narrow(g, slots, path, fine)?;
    let there = assign(g, slots, here, x, outcome.value);
    let out = out_next(alloc, g, slots, there)?;
    Ok(out)
}

/// An outcome is printed. Where that is a fault, or where no more printed values are kept, the path
/// ends.
pub fn out_printed<L: Logic>(
    alloc: Global,
    g: &mut L,
    slots: &Slots,
    path: Path<L::Bit>,
    outcome: &SymOutcome<L::Bit>,
) -> Result<Out<L::Bit>, NoMemory>
    requires held { HoldsPath L.owns g.old (slot_forms slots.now) path }
    requires each { length slots.now.names ≡ length slots.now.types }
    requires keeps { KeepsByLimits slots.now }
    requires outcome { (t : Ty)
        × IsOutcomeIn L.owns g.old (form_for slots.now.limits t) outcome.now }
    ensures extends { Extends L.owns L.reads L.count g.old g.new }
    ensures held { IfOk result (λ r.
        HoldsOut L.owns g.new slots.now r) }
    ensures value { IfOk result (λ r.
        (vs : List Bool) (o : Option State) (k : State → Result Value Halted) (line : ℕ)
        → gone_way slots.now (way (L.reads g.old vs) path ∷ []) ≡ reached o
        → ((s : State) → o ≡ Some s → OutcomeReads (L.reads g.old vs) outcome.now (k s))
        → see (L.reads g.new vs) slots.now r
        ≡ seen_from o (λ s. given (k s) (printed slots.now.limits.prints line s))) }
{
    let fine = g.not(outcome.fault);
    let here = narrow(g, slots, path, fine)?;
    if slots.prints == 0 {
        let out = out_next(alloc, g, slots, here)?;
        return Ok(out);
    }
    let kept = keep_printed(alloc, g, slots, here, &outcome.value)?;
    let out = out_next(alloc, g, slots, kept)?;
    Ok(out)
}
