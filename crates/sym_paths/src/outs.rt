//! The ways out of a body, gathered from its parts.

ghost use Rattle.std.specs.Prelude.{◌≡◌, ℕ, Bool, List, [], ◌∷◌, Option, Some, option_to_list};
ghost use Rattle.std.specs.Prelude.{IfOk, OnOk};
ghost use Rattle.std.specs.declared.result.Result.{Result};
ghost use Rattle.mpy_tree.specs.declared.outcome.Halted.{Halted};
ghost use Rattle.mpy_tree.specs.declared.typing.Ty.{Ty};
ghost use Rattle.mpy_tree.specs.declared.value.Value.{Value};
ghost use Rattle.mpy_tree.specs.Values.{State};
ghost use Rattle.mpy_tree.specs.Statements.{Next, Broke, Continued, Returned, ended_by, given};
ghost use Rattle.bit_words.specs.Logic.{Extends};
ghost use Rattle.sym_values.specs.Forms.{form_for};
ghost use Rattle.sym_values.specs.Reading.{OutcomeReads};
ghost use Rattle.sym_values.specs.Results.{IsOutcomeIn};
ghost use Rattle.sym_paths.specs.Paths.{way, ways, gone_way, reached, HoldsPath, HoldsPaths};
ghost use Rattle.sym_paths.specs.Endings.{see, or_other, and_seen, ended, turned, nothing_seen};
ghost use Rattle.sym_paths.specs.Endings.{seen_from, HoldsOut, RunsAs};
ghost use Rattle.sym_paths.specs.Slots.{slot_forms};

use crate::join::join_all;
use crate::path::{Given, Many, Out, Path};
use crate::printed::printed_on;
use crate::slots::Slots;
use bit_words::NoMemory;
use bit_words::logic::Logic;
use std::alloc::Global;
use sym_values::SymOutcome;

/// No way out.
pub fn no_way_out<L: Logic>(alloc: Global, _g: &L, _slots: &Slots) -> Out<L::Bit>
    ensures held { HoldsOut L.owns _g.now _slots.now result }
    ensures value { (vs : List Bool) →
        see (L.reads _g.now vs) _slots.now result ≡ nothing_seen }
{
    Out {
        next: Many::new(alloc),
        broke: Many::new(alloc),
        continued: Many::new(alloc),
        returned: Many::new(alloc),
    }
}

/// A path to the next statement, and nothing else.
pub fn out_next<L: Logic>(
    alloc: Global,
    _g: &L,
    _slots: &Slots,
    path: Path<L::Bit>,
) -> Result<Out<L::Bit>, NoMemory>
    requires { HoldsPath L.owns _g.now (slot_forms _slots.now) path }
    ensures held { IfOk result (λ r.
        HoldsOut L.owns _g.now _slots.now r) }
    ensures value { IfOk result (λ r.
        RunsAs L.reads _g.now _g.now _slots.now path r Next) }
{
    let next = Many::one(alloc, path)?;
    Ok(Out {
        next,
        broke: Many::new(alloc),
        continued: Many::new(alloc),
        returned: Many::new(alloc),
    })
}

/// A path out of the loop.
pub fn out_broke<L: Logic>(
    alloc: Global,
    _g: &L,
    _slots: &Slots,
    path: Path<L::Bit>,
) -> Result<Out<L::Bit>, NoMemory>
    requires { HoldsPath L.owns _g.now (slot_forms _slots.now) path }
    ensures held { IfOk result (λ r.
        HoldsOut L.owns _g.now _slots.now r) }
    ensures value { IfOk result (λ r.
        RunsAs L.reads _g.now _g.now _slots.now path r Broke) }
{
    let broke = Many::one(alloc, path)?;
    Ok(Out {
        next: Many::new(alloc),
        broke,
        continued: Many::new(alloc),
        returned: Many::new(alloc),
    })
}

/// A path to the next turn of the loop.
pub fn out_continued<L: Logic>(
    alloc: Global,
    _g: &L,
    _slots: &Slots,
    path: Path<L::Bit>,
) -> Result<Out<L::Bit>, NoMemory>
    requires { HoldsPath L.owns _g.now (slot_forms _slots.now) path }
    ensures held { IfOk result (λ r.
        HoldsOut L.owns _g.now _slots.now r) }
    ensures value { IfOk result (λ r.
        RunsAs L.reads _g.now _g.now _slots.now path r Continued) }
{
    let continued = Many::one(alloc, path)?;
    Ok(Out {
        next: Many::new(alloc),
        broke: Many::new(alloc),
        continued,
        returned: Many::new(alloc),
    })
}

/// An outcome that is returned on a path. Where it is a fault nothing is.
pub fn out_returned<L: Logic>(
    alloc: Global,
    g: &mut L,
    slots: &Slots,
    path: &Path<L::Bit>,
    outcome: SymOutcome<L::Bit>,
) -> Result<Out<L::Bit>, NoMemory>
    requires held { HoldsPath L.owns g.old (slot_forms slots.now) path.now }
    requires outcome { (t : Ty) × (slots.now.result ≡ Some t)
        × IsOutcomeIn L.owns g.old (form_for slots.now.limits t) outcome }
    ensures extends { Extends L.owns L.reads L.count g.old g.new }
    ensures held { IfOk result (λ r.
        HoldsOut L.owns g.new slots.now r) }
    ensures value { IfOk result (λ r.
        (vs : List Bool) (o : Option State) (k : State → Result Value Halted)
        → gone_way slots.now (way (L.reads g.old vs) path.now ∷ []) ≡ reached o
        → ((s : State) → o ≡ Some s → OutcomeReads (L.reads g.old vs) outcome (k s))
        → see (L.reads g.new vs) slots.now r
        ≡ seen_from o (λ s. given (k s) (λ v. Returned (Some v) s))) }
{
    let fine = g.not(outcome.fault);
    let bit = g.and(path.bit, fine)?;
    let printed = printed_on(alloc, slots, path)?;
    let returned = Many::one(
        alloc,
        Given {
            bit,
            value: Some(outcome.value),
            printed,
        },
    )?;
    Ok(Out {
        next: Many::new(alloc),
        broke: Many::new(alloc),
        continued: Many::new(alloc),
        returned,
    })
}

/// A path that ends by a `return` alone. Where printed values are kept it ends the run without a
/// value; else there is a fault.
pub fn out_ended<L: Logic>(
    alloc: Global,
    g: &L,
    slots: &Slots,
    path: &Path<L::Bit>,
) -> Result<Out<L::Bit>, NoMemory>
    requires { HoldsPath L.owns g.now (slot_forms slots.now) path.now }
    ensures held { IfOk result (λ r. HoldsOut L.owns g.now slots.now r) }
    ensures value { IfOk result (λ r. (line : ℕ) →
        RunsAs L.reads g.now g.now slots.now path.now r (λ s. ended_by line s s.printed)) }
{
    if slots.prints == 0 {
        let out = no_way_out(alloc, g, slots);
        return Ok(out);
    }
    let printed = printed_on(alloc, slots, path)?;
    let returned = Many::one(
        alloc,
        Given {
            bit: path.bit,
            value: None,
            printed,
        },
    )?;
    Ok(Out {
        next: Many::new(alloc),
        broke: Many::new(alloc),
        continued: Many::new(alloc),
        returned,
    })
}

/// A path to the next statement, after the ways out so far.
pub fn add_next<L: Logic>(
    _g: &L,
    _slots: &Slots,
    out: &mut Out<L::Bit>,
    path: Path<L::Bit>,
) -> Result<(), NoMemory>
    requires so_far { HoldsOut L.owns _g.now _slots.now out.old }
    requires path { HoldsPath L.owns _g.now (slot_forms _slots.now) path }
    ensures held { OnOk result
        (HoldsOut L.owns _g.now _slots.now out.new) }
    ensures value { OnOk result ((vs : List Bool) (o : Option State) →
        gone_way _slots.now (way (L.reads _g.now vs) path ∷ []) ≡ reached o
        → see (L.reads _g.now vs) _slots.now out.new
        ≡ and_seen (see (L.reads _g.now vs) _slots.now out.old) (seen_from o Next)) }
{
    out.next.push(path)?;
    Ok(())
}

/// The ways out of another part, after those so far.
pub fn add_part<L: Logic>(
    _g: &L,
    _slots: &Slots,
    out: &mut Out<L::Bit>,
    part: Out<L::Bit>,
) -> Result<(), NoMemory>
    requires so_far { HoldsOut L.owns _g.now _slots.now out.old }
    requires part { HoldsOut L.owns _g.now _slots.now part }
    ensures held { OnOk result
        (HoldsOut L.owns _g.now _slots.now out.new) }
    ensures value { OnOk result ((vs : List Bool) →
        see (L.reads _g.now vs) _slots.now out.new
        ≡ and_seen (see (L.reads _g.now vs) _slots.now out.old)
        (see (L.reads _g.now vs) _slots.now part)) }
{
    out.next.append(part.next)?;
    out.broke.append(part.broke)?;
    out.continued.append(part.continued)?;
    out.returned.append(part.returned)?;
    Ok(())
}

/// The ways out of a statement, but for the way to the next one, which is given back as one path.
pub fn take_step<L: Logic>(
    alloc: Global,
    g: &mut L,
    slots: &Slots,
    out: &mut Out<L::Bit>,
    step: Out<L::Bit>,
) -> Result<Option<Path<L::Bit>>, NoMemory>
    requires so_far { HoldsOut L.owns g.old slots.now out.old }
    requires step { HoldsOut L.owns g.old slots.now step }
    ensures extends { Extends L.owns L.reads L.count g.old g.new }
    ensures held { OnOk result
        (HoldsOut L.owns g.new slots.now out.new) }
    ensures on { IfOk result (λ r.
        HoldsPaths L.owns g.new (slot_forms slots.now) (option_to_list r)) }
    ensures value { OnOk result ((vs : List Bool) →
        see (L.reads g.new vs) slots.now out.new
        ≡ and_seen (see (L.reads g.old vs) slots.now out.old)
        (ended (see (L.reads g.old vs) slots.now step))) }
    ensures next { IfOk result (λ r. (vs : List Bool) →
        gone_way slots.now (ways (L.reads g.new vs) (option_to_list r))
        ≡ gone_way slots.now (ways (L.reads g.old vs) step.next)) }
{
    let on = join_all(alloc, g, slots, step.next)?;
    out.broke.append(step.broke)?;
    out.continued.append(step.continued)?;
    out.returned.append(step.returned)?;
    Ok(on)
}

/// The ways out of a turn, but for the way to the next turn, which is given back as one path. A way
/// out of the loop is one to the next statement.
pub fn take_turn<L: Logic>(
    alloc: Global,
    g: &mut L,
    slots: &Slots,
    out: &mut Out<L::Bit>,
    turn: Out<L::Bit>,
) -> Result<Option<Path<L::Bit>>, NoMemory>
    requires so_far { HoldsOut L.owns g.old slots.now out.old }
    requires turn { HoldsOut L.owns g.old slots.now turn }
    ensures extends { Extends L.owns L.reads L.count g.old g.new }
    ensures held { OnOk result
        (HoldsOut L.owns g.new slots.now out.new) }
    ensures on { IfOk result (λ r.
        HoldsPaths L.owns g.new (slot_forms slots.now) (option_to_list r)) }
    ensures value { OnOk result ((vs : List Bool) →
        see (L.reads g.new vs) slots.now out.new
        ≡ and_seen (see (L.reads g.old vs) slots.now out.old)
        (turned (see (L.reads g.old vs) slots.now turn))) }
    ensures next { IfOk result (λ r. (vs : List Bool) →
        gone_way slots.now (ways (L.reads g.new vs) (option_to_list r))
        ≡ or_other (see (L.reads g.old vs) slots.now turn).next
        (see (L.reads g.old vs) slots.now turn).continued) }
{
    let mut again = turn.next;
    again.append(turn.continued)?;
    let on = join_all(alloc, g, slots, again)?;
    out.next.append(turn.broke)?;
    out.returned.append(turn.returned)?;
    Ok(on)
}
