//! The programs of a task as bits: the reference, and all that the rules make of the submission.

ghost use Rattle.std.specs.Prelude.{◌≡◌, ℕ, Bool, List, map, IfOk};
ghost use Rattle.mpy_tree.specs.declared.value.Value.{Value};
ghost use Rattle.mpy_tree.specs.Running.{evaluated};
ghost use Rattle.mpy_tree.specs.Shapes.{program_shape};
ghost use Rattle.mpy_tree.specs.Syntax.{Routine};
ghost use Rattle.mpy_tree.specs.View.{routines_of};
ghost use Rattle.bit_words.specs.Logic.{Extends};
ghost use Rattle.choice_tree.specs.Selections.{plain};
ghost use Rattle.input_space.specs.TaskParts.{task_with};
ghost use Rattle.input_space.specs.Tasks.{tree_of};
ghost use Rattle.sym_values.specs.Printed.{DoneReads};
ghost use Rattle.sym_values.specs.Reading.{read, sure};
ghost use Rattle.sym_nodes.specs.Environments.{PicksRead};
ghost use Rattle.task_bits.specs.Tasks.{AreArgumentsOf, ArePicksOf, IsEndOf};

use bit_words::NoMemory;
use bit_words::logic::Logic;
use input_space::Task;
use std::alloc::Global;
use sym_expr::Picks;
use sym_stmt::sym_run;
use sym_values::{SymDone, SymValue};
use tree_weights::lift;

/// How a task's reference ends on arguments: under all truth values it reads as the end of its run
/// on their values.
pub fn reference<L: Logic>(
    alloc: Global,
    g: &mut L,
    task: &Task,
    args: &Vec<SymValue<L::Bit>>,
) -> Result<SymDone<L::Bit>, NoMemory>
    requires args { AreArgumentsOf L.owns g.old task.now.bounds args.now.items }
    ensures extends { Extends L.owns L.reads L.count g.old g.new }
    ensures made { IfOk result (λ r. IsEndOf L.owns g.new (task_with task.now) r) }
    ensures value { IfOk result (λ r. (vs : List Bool) (values : List Value)
        → map (read (L.reads g.old vs)) args.now.items ≡ map sure values
        → DoneReads task.now.bounds.limits (L.reads g.new vs) r
        (evaluated task.now.bounds.limits (routines_of task.now.reference)
        task.now.bounds.entry values)) }
{
    task.is_sound();
    let tree = lift(alloc, task.reference())?;
    let types = task.reference_types();
    let bounds = task.bounds();
    let picks = Picks::new(alloc);
    let done = sym_run(
        alloc,
        g,
        &tree,
        types,
        &bounds.limits,
        &bounds.entry,
        &picks,
        args,
    )?;
    Ok(done)
}

/// How all rewritings of a task's submission end on arguments: under all truth values it reads as
/// the end of the program that the picks choose.
pub fn candidates<L: Logic>(
    alloc: Global,
    g: &mut L,
    task: &Task,
    picks: &Picks<L::Bit>,
    args: &Vec<SymValue<L::Bit>>,
) -> Result<SymDone<L::Bit>, NoMemory>
    requires picks { ArePicksOf L.owns g.old (task_with task.now) picks.now }
    requires args { AreArgumentsOf L.owns g.old task.now.bounds args.now.items }
    ensures extends { Extends L.owns L.reads L.count g.old g.new }
    ensures made { IfOk result (λ r. IsEndOf L.owns g.new (task_with task.now) r) }
    ensures value { IfOk result (λ r.
        (vs : List Bool) (m : ℕ → ℕ) (values : List Value) (p : List Routine)
        → PicksRead (L.reads g.old vs) picks.now m
        → map (read (L.reads g.old vs)) args.now.items ≡ map sure values
        → program_shape p ≡ plain m (tree_of (task_with task.now))
        → DoneReads task.now.bounds.limits (L.reads g.new vs) r
        (evaluated task.now.bounds.limits p task.now.bounds.entry values)) }
{
    task.is_sound();
    let tree = task.tree();
    let types = task.submission_types();
    let bounds = task.bounds();
    let done = sym_run(
        alloc,
        g,
        tree,
        types,
        &bounds.limits,
        &bounds.entry,
        picks,
        args,
    )?;
    Ok(done)
}
