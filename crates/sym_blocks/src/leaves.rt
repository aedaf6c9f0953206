//! Statements without a body.

ghost use Rattle.std.specs.Prelude.{◌≡◌, ℕ, Bool, List, [], ◌∷◌, Some, IfOk, IsSome};
ghost use Rattle.mpy_tree.specs.Expressions.{Calls};
ghost use Rattle.mpy_tree.specs.Statements.{local_at, value_at};
ghost use Rattle.mpy_tree.specs.Syntax.{Term};
ghost use Rattle.mpy_tree.specs.Values.{State};
ghost use Rattle.bit_words.specs.Logic.{Extends};
ghost use Rattle.choice_tree.specs.StatementViews.{maybe_weighted};
ghost use Rattle.choice_tree.specs.WeightedViews.{weighted_of};
ghost use Rattle.sym_nodes.specs.Environments.{AllHavePicks, HasPicks};
ghost use Rattle.sym_nodes.specs.Plain.{type_of};
ghost use Rattle.sym_paths.specs.Endings.{HoldsOut};
ghost use Rattle.sym_paths.specs.Paths.{HoldsPath, gone_way, reached, way};
ghost use Rattle.sym_paths.specs.Slots.{slot_forms};
ghost use Rattle.sym_blocks.specs.Bodies.{AreChosen, IsBodyIn, RunsAsPlain, scope_in};
ghost use Rattle.sym_blocks.specs.Elements.{AreElementIn, ElementReads};
ghost use Rattle.sym_blocks.specs.Runs.{ArePlainTerms, IsPlainMaybe, IsPlainTerm, run_append};
ghost use Rattle.sym_blocks.specs.Runs.{run_assign, run_augment, run_augment_at, run_give, run_put};
ghost use Rattle.sym_blocks.specs.Runs.{run_print, run_return};
ghost use Rattle.sym_blocks.specs.Typing.{Appends, Assigns, Augments, MayReturn, Puts, Returns};

use crate::body::Body;
use crate::evaluation::{eval_on, local_on};
use crate::operations::{Parts, append_outcome, arith_outcome, changed_outcome, put_outcome};
use bit_words::NoMemory;
use bit_words::logic::Logic;
use choice_tree::WExpr;
use mpy_tree::{ArithOp, Name};
use std::alloc::Global;
use sym_expr::Functions;
use sym_paths::outs::{out_ended, out_returned};
use sym_paths::store::{out_printed, out_stored};
use sym_paths::{Out, Path};

/// An operator and its right operand.
#[derive(Drop)]
pub struct Operand<'a> {
    pub op: ArithOp,
    pub value: &'a WExpr,
}

/// An element of a list that is a local.
#[derive(Drop)]
pub struct Element<'a> {
    pub name: &'a Name,
    pub place: &'a WExpr,
}

/// An assignment. Where its expression has a fault the path ends.
pub fn exec_assign<L: Logic, C: Functions<L>>(
    alloc: Global,
    g: &mut L,
    run: &Body<'_, L::Bit, C>,
    path: Path<L::Bit>,
    x: &Name,
    e: &WExpr,
) -> Result<Out<L::Bit>, NoMemory>
    requires run { IsBodyIn L.owns (C.have_picks run.now.functions.now) g.old run.now }
    requires path { HoldsPath L.owns g.old (slot_forms run.now.slots.now) path }
    requires typed { Assigns (scope_in (C.signatures run.now.functions.now) run.now) x.now
        (weighted_of e.now) }
    requires picks { HasPicks run.now.picks.now (weighted_of e.now) }
    ensures extends { Extends L.owns L.reads L.count g.old g.new }
    ensures held { IfOk result (λ r. HoldsOut L.owns g.new run.now.slots.now r) }
    ensures value { IfOk result (λ r. (line : ℕ) →
        RunsAsPlain L.reads (C.are_calls run.now.functions.now) g.old g.new run.now (path ∷ []) r
        (IsPlainTerm (weighted_of e.now)) (run_assign line x.now)) }
{
    let value = eval_on(alloc, g, run, &path, e)?;
    let out = out_stored(alloc, g, run.slots, path, x, value)?;
    Ok(out)
}

/// `x op= e`.
pub fn exec_augment<L: Logic, C: Functions<L>>(
    alloc: Global,
    g: &mut L,
    run: &Body<'_, L::Bit, C>,
    path: Path<L::Bit>,
    x: &Name,
    by: Operand<'_>,
) -> Result<Out<L::Bit>, NoMemory>
    requires run { IsBodyIn L.owns (C.have_picks run.now.functions.now) g.old run.now }
    requires path { HoldsPath L.owns g.old (slot_forms run.now.slots.now) path }
    requires typed { Augments (scope_in (C.signatures run.now.functions.now) run.now) x.now by.op
        (weighted_of by.value.now) }
    requires picks { HasPicks run.now.picks.now (weighted_of by.value.now) }
    ensures extends { Extends L.owns L.reads L.count g.old g.new }
    ensures held { IfOk result (λ r. HoldsOut L.owns g.new run.now.slots.now r) }
    ensures value { IfOk result (λ r. (line : ℕ) →
        RunsAsPlain L.reads (C.are_calls run.now.functions.now) g.old g.new run.now (path ∷ []) r
        (IsPlainTerm (weighted_of by.entry.value.now)) (run_augment line x.now by.entry.op)) }
{
    let old = local_on(g, run, &path, x)?;
    let operand = eval_on(alloc, g, run, &path, by.value)?;
    let outcome = arith_outcome(alloc, g, &run.slots.limits, by.op, &old, &operand)?;
    let out = out_stored(alloc, g, run.slots, path, x, outcome)?;
    Ok(out)
}

/// `x.append(e)`.
pub fn exec_append<L: Logic, C: Functions<L>>(
    alloc: Global,
    g: &mut L,
    run: &Body<'_, L::Bit, C>,
    path: Path<L::Bit>,
    x: &Name,
    e: &WExpr,
) -> Result<Out<L::Bit>, NoMemory>
    requires run { IsBodyIn L.owns (C.have_picks run.now.functions.now) g.old run.now }
    requires path { HoldsPath L.owns g.old (slot_forms run.now.slots.now) path }
    requires typed { Appends (scope_in (C.signatures run.now.functions.now) run.now) x.now
        (weighted_of e.now) }
    requires picks { HasPicks run.now.picks.now (weighted_of e.now) }
    ensures extends { Extends L.owns L.reads L.count g.old g.new }
    ensures held { IfOk result (λ r. HoldsOut L.owns g.new run.now.slots.now r) }
    ensures value { IfOk result (λ r. (line : ℕ) →
        RunsAsPlain L.reads (C.are_calls run.now.functions.now) g.old g.new run.now (path ∷ []) r
        (IsPlainTerm (weighted_of e.now)) (run_append line x.now)) }
{
    let list = local_on(g, run, &path, x)?;
    let number = eval_on(alloc, g, run, &path, e)?;
    let outcome = append_outcome(alloc, g, &run.slots.limits, &list, &number)?;
    let out = out_stored(alloc, g, run.slots, path, x, outcome)?;
    Ok(out)
}

/// What an assignment to an element needs: the list, the index and the value.
pub fn element_parts<L: Logic, C: Functions<L>>(
    alloc: Global,
    g: &mut L,
    run: &Body<'_, L::Bit, C>,
    path: &Path<L::Bit>,
    at: Element<'_>,
    e: &WExpr,
) -> Result<Parts<L::Bit>, NoMemory>
    requires run { IsBodyIn L.owns (C.have_picks run.now.functions.now) g.old run.now }
    requires path { HoldsPath L.owns g.old (slot_forms run.now.slots.now) path.now }
    requires typed { Puts (scope_in (C.signatures run.now.functions.now) run.now) at.name.now
        (weighted_of at.place.now) (weighted_of e.now) }
    requires picks { HasPicks run.now.picks.now (weighted_of at.place.now) }
    requires picks_2 { HasPicks run.now.picks.now (weighted_of e.now) }
    ensures extends { Extends L.owns L.reads L.count g.old g.new }
    ensures made { IfOk result (λ r. AreElementIn L.owns g.new run.now.slots.now.limits r) }
    ensures value { IfOk result (λ r.
        (vs : List Bool) (m : ℕ → ℕ) (calls : Calls) (s : State) (line : ℕ) (p : Term × Term)
        → AreChosen L.reads (C.are_calls run.now.functions.now) g.old vs run.now m calls
        → gone_way run.now.slots.now (way (L.reads g.old vs) path.now ∷ [])
        ≡ reached (Some s)
        → ArePlainTerms (weighted_of at.entry.place.now) (weighted_of e.now) m p
        → ElementReads (L.reads g.new vs) r
        (local_at run.now.slots.now.limits calls s line at.entry.name.now)
        (value_at run.now.slots.now.limits calls s line p.0)
        (value_at run.now.slots.now.limits calls s line p.1)) }
{
    let list = local_on(g, run, path, at.name)?;
    let place = eval_on(alloc, g, run, path, at.place)?;
    let number = eval_on(alloc, g, run, path, e)?;
    Ok(Parts {
        list,
        place,
        number,
    })
}

/// `x[i] = e`.
pub fn exec_put<L: Logic, C: Functions<L>>(
    alloc: Global,
    g: &mut L,
    run: &Body<'_, L::Bit, C>,
    path: Path<L::Bit>,
    at: Element<'_>,
    e: &WExpr,
) -> Result<Out<L::Bit>, NoMemory>
    requires run { IsBodyIn L.owns (C.have_picks run.now.functions.now) g.old run.now }
    requires path { HoldsPath L.owns g.old (slot_forms run.now.slots.now) path }
    requires typed { Puts (scope_in (C.signatures run.now.functions.now) run.now) at.name.now
        (weighted_of at.place.now) (weighted_of e.now) }
    requires picks { HasPicks run.now.picks.now (weighted_of at.place.now) }
    requires picks_2 { HasPicks run.now.picks.now (weighted_of e.now) }
    ensures extends { Extends L.owns L.reads L.count g.old g.new }
    ensures held { IfOk result (λ r. HoldsOut L.owns g.new run.now.slots.now r) }
    ensures value { IfOk result (λ r. (line : ℕ) →
        RunsAsPlain L.reads (C.are_calls run.now.functions.now) g.old g.new run.now (path ∷ []) r
        (ArePlainTerms (weighted_of at.entry.place.now) (weighted_of e.now))
        (run_put line at.entry.name.now)) }
{
    let name = at.name;
    let parts = element_parts(alloc, g, run, &path, at, e)?;
    let outcome = put_outcome(
        alloc,
        g,
        &run.slots.limits,
        &parts.list,
        &parts.place,
        &parts.number,
    )?;
    let out = out_stored(alloc, g, run.slots, path, name, outcome)?;
    Ok(out)
}

/// `x[i] op= e`.
pub fn exec_augment_at<L: Logic, C: Functions<L>>(
    alloc: Global,
    g: &mut L,
    run: &Body<'_, L::Bit, C>,
    path: Path<L::Bit>,
    at: Element<'_>,
    by: Operand<'_>,
) -> Result<Out<L::Bit>, NoMemory>
    requires run { IsBodyIn L.owns (C.have_picks run.now.functions.now) g.old run.now }
    requires path { HoldsPath L.owns g.old (slot_forms run.now.slots.now) path }
    requires typed { Puts (scope_in (C.signatures run.now.functions.now) run.now) at.name.now
        (weighted_of at.place.now) (weighted_of by.value.now) }
    requires picks { HasPicks run.now.picks.now (weighted_of at.place.now) }
    requires picks_2 { HasPicks run.now.picks.now (weighted_of by.value.now) }
    ensures extends { Extends L.owns L.reads L.count g.old g.new }
    ensures held { IfOk result (λ r. HoldsOut L.owns g.new run.now.slots.now r) }
    ensures value { IfOk result (λ r. (line : ℕ) →
        RunsAsPlain L.reads (C.are_calls run.now.functions.now) g.old g.new run.now (path ∷ []) r
        (ArePlainTerms (weighted_of at.entry.place.now) (weighted_of by.entry.value.now))
        (run_augment_at line at.entry.name.now by.entry.op)) }
{
    let name = at.name;
    let parts = element_parts(alloc, g, run, &path, at, by.value)?;
    let outcome = changed_outcome(alloc, g, &run.slots.limits, by.op, &parts)?;
    let out = out_stored(alloc, g, run.slots, path, name, outcome)?;
    Ok(out)
}

/// `print(e)`. Where its expression has a fault the path ends.
pub fn exec_print<L: Logic, C: Functions<L>>(
    alloc: Global,
    g: &mut L,
    run: &Body<'_, L::Bit, C>,
    path: Path<L::Bit>,
    e: &WExpr,
) -> Result<Out<L::Bit>, NoMemory>
    requires run { IsBodyIn L.owns (C.have_picks run.now.functions.now) g.old run.now }
    requires path { HoldsPath L.owns g.old (slot_forms run.now.slots.now) path }
    requires typed { IsSome
        (type_of (scope_in (C.signatures run.now.functions.now) run.now) (weighted_of e.now)) }
    requires picks { HasPicks run.now.picks.now (weighted_of e.now) }
    ensures extends { Extends L.owns L.reads L.count g.old g.new }
    ensures held { IfOk result (λ r. HoldsOut L.owns g.new run.now.slots.now r) }
    ensures value { IfOk result (λ r. (line : ℕ) →
        RunsAsPlain L.reads (C.are_calls run.now.functions.now) g.old g.new run.now (path ∷ []) r
        (IsPlainTerm (weighted_of e.now)) (run_print line)) }
{
    let outcome = eval_on(alloc, g, run, &path, e)?;
    let out = out_printed(alloc, g, run.slots, path, &outcome)?;
    Ok(out)
}

/// A `return` with a value. Where its expression has a fault nothing is returned.
pub fn return_value<L: Logic, C: Functions<L>>(
    alloc: Global,
    g: &mut L,
    run: &Body<'_, L::Bit, C>,
    path: Path<L::Bit>,
    e: &WExpr,
) -> Result<Out<L::Bit>, NoMemory>
    requires run { IsBodyIn L.owns (C.have_picks run.now.functions.now) g.old run.now }
    requires path { HoldsPath L.owns g.old (slot_forms run.now.slots.now) path }
    requires typed { Returns (scope_in (C.signatures run.now.functions.now) run.now)
        (weighted_of e.now) }
    requires picks { HasPicks run.now.picks.now (weighted_of e.now) }
    ensures extends { Extends L.owns L.reads L.count g.old g.new }
    ensures held { IfOk result (λ r. HoldsOut L.owns g.new run.now.slots.now r) }
    ensures value { IfOk result (λ r. (line : ℕ) →
        RunsAsPlain L.reads (C.are_calls run.now.functions.now) g.old g.new run.now (path ∷ []) r
        (IsPlainTerm (weighted_of e.now)) (run_return line)) }
{
    let outcome = eval_on(alloc, g, run, &path, e)?;
    let out = out_returned(alloc, g, run.slots, &path, outcome)?;
    Ok(out)
}

/// A `return`. Without a value it is a fault, but where printed values are kept.
pub fn exec_return<L: Logic, C: Functions<L>>(
    alloc: Global,
    g: &mut L,
    run: &Body<'_, L::Bit, C>,
    path: Path<L::Bit>,
    e: &Option<WExpr>,
) -> Result<Out<L::Bit>, NoMemory>
    requires run { IsBodyIn L.owns (C.have_picks run.now.functions.now) g.old run.now }
    requires path { HoldsPath L.owns g.old (slot_forms run.now.slots.now) path }
    requires typed { MayReturn (scope_in (C.signatures run.now.functions.now) run.now) e.now }
    requires picks { AllHavePicks run.now.picks.now (maybe_weighted e.now) }
    ensures extends { Extends L.owns L.reads L.count g.old g.new }
    ensures held { IfOk result (λ r. HoldsOut L.owns g.new run.now.slots.now r) }
    ensures value { IfOk result (λ r. (line : ℕ) →
        RunsAsPlain L.reads (C.are_calls run.now.functions.now) g.old g.new run.now (path ∷ []) r
        (IsPlainMaybe (maybe_weighted e.now)) (run_give line)) }
{
    match e {
        None => {
            let out = out_ended(alloc, g, run.slots, &path)?;
            Ok(out)
        }
        Some(value) => {
            let out = return_value(alloc, g, run, path, value)?;
            Ok(out)
        }
    }
}
