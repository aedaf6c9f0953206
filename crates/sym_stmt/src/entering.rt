//! A function that is entered on arguments: by a call, and at the beginning of a run.

ghost use Rattle.std.specs.Prelude.{◌≡◌, ℕ, Bool, List, length, None, Some, IfOk, IsSome};
ghost use Rattle.mpy_tree.specs.declared.typing.Ty.{Ty as AnyType};
ghost use Rattle.mpy_tree.specs.declared.value.Value.{Value};
ghost use Rattle.mpy_tree.specs.Expressions.{Calls};
ghost use Rattle.mpy_tree.specs.Running.{done_by, entered, given_by, kept_first};
ghost use Rattle.mpy_tree.specs.Shapes.{routine_shape};
ghost use Rattle.mpy_tree.specs.Statements.{run_block};
ghost use Rattle.mpy_tree.specs.Syntax.{Routine};
ghost use Rattle.bit_words.specs.Logic.{Extends, OwnsAll};
ghost use Rattle.choice_tree.specs.Selections.{plain};
ghost use Rattle.choice_tree.specs.StatementViews.{weighted_body, weighted_func};
ghost use Rattle.sym_values.specs.Forms.{form_for, forms_of, values_bits};
ghost use Rattle.sym_values.specs.Printed.{DoneReads, IsDoneIn};
ghost use Rattle.sym_values.specs.Reading.{OutcomeReads};
ghost use Rattle.sym_values.specs.Results.{IsOutcomeIn};
ghost use Rattle.sym_nodes.specs.Environments.{HasPicks};
ghost use Rattle.sym_paths.specs.Endings.{HoldsOut, see, seen_of};
ghost use Rattle.sym_paths.specs.Paths.{ReadAs};
ghost use Rattle.sym_paths.specs.Places.{Begins};
ghost use Rattle.sym_paths.specs.Slots.{kept_by, local_forms, result_form};
ghost use Rattle.sym_blocks.specs.Bodies.{AreChosen, IsBodyIn, scope_in};
ghost use Rattle.sym_stmt.specs.Beginnings.{begins};
ghost use Rattle.typed_trees.specs.TypedStatements.{IsTyped};

use bit_words::NoMemory;
use bit_words::logic::Logic;
use choice_tree::WFunc;
use std::alloc::Global;
use sym_blocks::{Body, exec_block};
use sym_expr::Functions;
use sym_paths::Out;
use sym_paths::done::finish_run;
use sym_paths::entry::entry;
use sym_paths::finish::finish;
use sym_values::{SymDone, SymOutcome, SymValues};

// The ways out of a function's body that begins with these arguments.
fn ways_out<L: Logic, C: Functions<L>>(
    alloc: Global,
    g: &mut L,
    run: &Body<'_, L::Bit, C>,
    func: &WFunc,
    args: SymValues<L::Bit>,
) -> Result<Out<L::Bit>, NoMemory>
    requires run { IsBodyIn L.owns (C.have_picks run.now.functions.now) g.old run.now }
    requires typed { IsTyped (scope_in (C.signatures run.now.functions.now) run.now)
        (weighted_body func.now.body) }
    requires picks { HasPicks run.now.picks.now (weighted_body func.now.body) }
    requires params { Begins func.now.params run.now.slots.now.names }
    requires count { length func.now.params ≡ length args }
    requires args { OwnsAll L.owns g.old (values_bits args) }
    requires forms { Begins (forms_of args) (local_forms run.now.slots.now) }
    ensures extends { Extends L.owns L.reads L.count g.old g.new }
    ensures held { IfOk result (HoldsOut L.owns g.new run.now.slots.now) }
    ensures value { IfOk result (λ r. (vs : List Bool) (m : ℕ → ℕ) (calls : Calls)
        (routine : Routine) (values : List Value)
        → AreChosen L.reads (C.are_calls run.now.functions.now) g.old vs run.now m calls
        → routine_shape routine ≡ plain m (weighted_func func.now)
        → ReadAs (L.reads g.old vs) args values
        → see (L.reads g.new vs) run.now.slots.now r
        ≡ seen_of (run_block run.now.slots.now.limits calls routine.body
        (begins routine.params values (kept_by run.now.slots.now)))) }
{
    let path = entry(alloc, g, run.slots, args)?;
    let out = exec_block(alloc, g, run, path, &func.body)?;
    Ok(out)
}

/// The outcome of a function that is called on these arguments.
pub fn entered<L: Logic, C: Functions<L>>(
    alloc: Global,
    g: &mut L,
    run: &Body<'_, L::Bit, C>,
    func: &WFunc,
    args: SymValues<L::Bit>,
) -> Result<SymOutcome<L::Bit>, NoMemory>
    requires run { IsBodyIn L.owns (C.have_picks run.now.functions.now) g.old run.now }
    requires result { IsSome run.now.slots.now.result }
    requires dropped { run.now.slots.now.prints ≡ 0 }
    requires typed { IsTyped (scope_in (C.signatures run.now.functions.now) run.now)
        (weighted_body func.now.body) }
    requires picks { HasPicks run.now.picks.now (weighted_body func.now.body) }
    requires params { Begins func.now.params run.now.slots.now.names }
    requires count { length func.now.params ≡ length args }
    requires args { OwnsAll L.owns g.old (values_bits args) }
    requires forms { Begins (forms_of args) (local_forms run.now.slots.now) }
    ensures extends { Extends L.owns L.reads L.count g.old g.new }
    ensures made { IfOk result (λ r. (t : AnyType) → run.now.slots.now.result ≡ Some t
        → IsOutcomeIn L.owns g.new (form_for run.now.slots.now.limits t) r) }
    ensures value { IfOk result (λ r. (vs : List Bool) (m : ℕ → ℕ) (calls : Calls)
        (routine : Routine) (values : List Value)
        → AreChosen L.reads (C.are_calls run.now.functions.now) g.old vs run.now m calls
        → routine_shape routine ≡ plain m (weighted_func func.now)
        → ReadAs (L.reads g.old vs) args values
        → OutcomeReads (L.reads g.new vs) r
        (entered given_by None run.now.slots.now.limits calls routine values)) }
{
    let out = ways_out(alloc, g, run, func, args)?;
    let outcome = finish(alloc, g, run.slots, out.returned)?;
    Ok(outcome)
}

/// How a run ends that begins in a function on these arguments.
pub fn begun<L: Logic, C: Functions<L>>(
    alloc: Global,
    g: &mut L,
    run: &Body<'_, L::Bit, C>,
    func: &WFunc,
    args: SymValues<L::Bit>,
) -> Result<SymDone<L::Bit>, NoMemory>
    requires run { IsBodyIn L.owns (C.have_picks run.now.functions.now) g.old run.now }
    requires keeps { run.now.slots.now.prints ≡ run.now.slots.now.limits.prints }
    requires gives { run.now.slots.now.prints ≡ 0 → IsSome run.now.slots.now.result }
    requires typed { IsTyped (scope_in (C.signatures run.now.functions.now) run.now)
        (weighted_body func.now.body) }
    requires picks { HasPicks run.now.picks.now (weighted_body func.now.body) }
    requires params { Begins func.now.params run.now.slots.now.names }
    requires count { length func.now.params ≡ length args }
    requires args { OwnsAll L.owns g.old (values_bits args) }
    requires forms { Begins (forms_of args) (local_forms run.now.slots.now) }
    ensures extends { Extends L.owns L.reads L.count g.old g.new }
    ensures made { IfOk result (λ r. IsDoneIn L.owns g.new run.now.slots.now.limits
        (result_form run.now.slots.now) r) }
    ensures value { IfOk result (λ r. (vs : List Bool) (m : ℕ → ℕ) (calls : Calls)
        (routine : Routine) (values : List Value)
        → AreChosen L.reads (C.are_calls run.now.functions.now) g.old vs run.now m calls
        → routine_shape routine ≡ plain m (weighted_func func.now)
        → ReadAs (L.reads g.old vs) args values
        → DoneReads run.now.slots.now.limits (L.reads g.new vs) r
        (entered done_by (kept_first run.now.slots.now.limits) run.now.slots.now.limits calls
        routine values)) }
{
    let out = ways_out(alloc, g, run, func, args)?;
    let done = finish_run(alloc, g, run.slots, out)?;
    Ok(done)
}
