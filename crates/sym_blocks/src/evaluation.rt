//! Expressions, locals and tests where a path leads.

ghost use Rattle.std.specs.Prelude.{◌≡◌, ℕ, Bool, List, [], ◌∷◌, Option, Some, IfOk, IsSome};
ghost use Rattle.std.specs.Prelude.{option_to_list};
ghost use Rattle.mpy_tree.specs.declared.typing.Ty.{Ty};
ghost use Rattle.mpy_tree.specs.Expressions.{Calls};
ghost use Rattle.mpy_tree.specs.Statements.{value_at};
ghost use Rattle.mpy_tree.specs.Shapes.{shape};
ghost use Rattle.mpy_tree.specs.Syntax.{Term};
ghost use Rattle.mpy_tree.specs.Values.{State, on_line, set_or_fault};
ghost use Rattle.bit_words.specs.Logic.{Extends};
ghost use Rattle.choice_tree.specs.Selections.{plain};
ghost use Rattle.choice_tree.specs.WeightedViews.{weighted_of};
ghost use Rattle.sym_values.specs.Forms.{form_for};
ghost use Rattle.sym_values.specs.Reading.{OutcomeReads};
ghost use Rattle.sym_values.specs.Results.{IsOutcomeIn};
ghost use Rattle.sym_nodes.specs.Environments.{HasPicks};
ghost use Rattle.sym_nodes.specs.Plain.{type_of};
ghost use Rattle.typed_trees.specs.TypedStatements.{local_type};
ghost use Rattle.sym_paths.specs.Paths.{way, ways, gone_way, reached, HoldsPath, HoldsPaths};
ghost use Rattle.sym_paths.specs.Sides.{passes, misses};
ghost use Rattle.sym_paths.specs.Slots.{slot_forms};
ghost use Rattle.sym_blocks.specs.Bodies.{AreChosen, EvaluatesAsPlain, IsBodyIn, scope_in};

use crate::body::Body;
use bit_words::NoMemory;
use bit_words::logic::Logic;
use choice_tree::WExpr;
use mpy_tree::Name;
use std::alloc::Global;
use sym_expr::{Functions, View, eval, local};
use sym_paths::Path;
use sym_paths::split::{Sides, split};
use sym_values::SymOutcome;
use sym_values::truth::test_bit;

/// The outcome of an expression where a path leads.
pub fn eval_on<L: Logic, C: Functions<L>>(
    alloc: Global,
    g: &mut L,
    run: &Body<'_, L::Bit, C>,
    path: &Path<L::Bit>,
    e: &WExpr,
) -> Result<SymOutcome<L::Bit>, NoMemory>
    requires run { IsBodyIn L.owns (C.have_picks run.now.functions.now) g.old run.now }
    requires path { HoldsPath L.owns g.old (slot_forms run.now.slots.now) path.now }
    requires typed { IsSome
        (type_of (scope_in (C.signatures run.now.functions.now) run.now) (weighted_of e.now)) }
    requires picks { HasPicks run.now.picks.now (weighted_of e.now) }
    ensures extends { Extends L.owns L.reads L.count g.old g.new }
    ensures made { IfOk result (λ r. (t : Ty)
        → type_of (scope_in (C.signatures run.now.functions.now) run.now) (weighted_of e.now)
        ≡ Some t
        → IsOutcomeIn L.owns g.new (form_for run.now.slots.now.limits t) r) }
    ensures value { IfOk result (λ r.
        EvaluatesAsPlain L.reads (C.are_calls run.now.functions.now) g.old g.new run.now path.now
        r (weighted_of e.now)) }
{
    let view = View {
        names: &run.slots.names,
        values: &path.values,
        set: &path.set,
        picks: run.picks,
        limits: &run.slots.limits,
        depth: run.depth,
    };
    let outcome = eval(alloc, g, e, &view, run.functions)?;
    Ok(outcome)
}

/// The value of a local where a path leads, or Unset.
pub fn local_on<L: Logic, C: Functions<L>>(
    g: &L,
    run: &Body<'_, L::Bit, C>,
    path: &Path<L::Bit>,
    x: &Name,
) -> Result<SymOutcome<L::Bit>, NoMemory>
    requires run { IsBodyIn L.owns (C.have_picks run.now.functions.now) g.now run.now }
    requires path { HoldsPath L.owns g.now (slot_forms run.now.slots.now) path.now }
    requires typed { IsSome
        (local_type (scope_in (C.signatures run.now.functions.now) run.now) x.now) }
    ensures made { IfOk result (λ r. (t : Ty)
        → local_type (scope_in (C.signatures run.now.functions.now) run.now) x.now ≡ Some t
        → IsOutcomeIn L.owns g.now (form_for run.now.slots.now.limits t) r) }
    ensures value { IfOk result (λ r. (vs : List Bool) (s : State) (line : ℕ)
        → gone_way run.now.slots.now (way (L.reads g.now vs) path.now ∷ [])
        ≡ reached (Some s)
        → OutcomeReads (L.reads g.now vs) r
        (on_line line (set_or_fault (s.locals x.now)))) }
{
    let view = View {
        names: &run.slots.names,
        values: &path.values,
        set: &path.set,
        picks: run.picks,
        limits: &run.slots.limits,
        depth: run.depth,
    };
    let outcome = local(g, &view, x)?;
    Ok(outcome)
}

/// The two sides of a test: where it holds, and where it doesn't.
pub fn tested<L: Logic, C: Functions<L>>(
    alloc: Global,
    g: &mut L,
    run: &Body<'_, L::Bit, C>,
    path: Path<L::Bit>,
    e: &WExpr,
) -> Result<Sides<L::Bit>, NoMemory>
    requires run { IsBodyIn L.owns (C.have_picks run.now.functions.now) g.old run.now }
    requires path { HoldsPath L.owns g.old (slot_forms run.now.slots.now) path }
    requires typed { IsSome
        (type_of (scope_in (C.signatures run.now.functions.now) run.now) (weighted_of e.now)) }
    requires picks { HasPicks run.now.picks.now (weighted_of e.now) }
    ensures extends { Extends L.owns L.reads L.count g.old g.new }
    ensures held_yes { IfOk result (λ r.
        HoldsPaths L.owns g.new (slot_forms run.now.slots.now) (option_to_list r.yes)) }
    ensures held_no { IfOk result (λ r.
        HoldsPaths L.owns g.new (slot_forms run.now.slots.now) (option_to_list r.no)) }
    ensures yes { IfOk result (λ r.
        (vs : List Bool) (m : ℕ → ℕ) (calls : Calls) (o : Option State) (line : ℕ) (t : Term)
        → AreChosen L.reads (C.are_calls run.now.functions.now) g.old vs run.now m calls
        → gone_way run.now.slots.now (way (L.reads g.old vs) path ∷ []) ≡ reached o
        → shape t ≡ plain m (weighted_of e.now)
        → gone_way run.now.slots.now (ways (L.reads g.new vs) (option_to_list r.yes))
        ≡ reached (passes o (λ s. value_at run.now.slots.now.limits calls s line t))) }
    ensures no { IfOk result (λ r.
        (vs : List Bool) (m : ℕ → ℕ) (calls : Calls) (o : Option State) (line : ℕ) (t : Term)
        → AreChosen L.reads (C.are_calls run.now.functions.now) g.old vs run.now m calls
        → gone_way run.now.slots.now (way (L.reads g.old vs) path ∷ []) ≡ reached o
        → shape t ≡ plain m (weighted_of e.now)
        → gone_way run.now.slots.now (ways (L.reads g.new vs) (option_to_list r.no))
        ≡ reached (misses o (λ s. value_at run.now.slots.now.limits calls s line t))) }
{
    let outcome = eval_on(alloc, g, run, &path, e)?;
    let holds = test_bit(g, &outcome.value)?;
    let sides = split(g, run.slots, path, outcome.fault, holds)?;
    Ok(sides)
}
