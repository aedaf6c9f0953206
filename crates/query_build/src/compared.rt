//! The reference and a rewriting of the submission on the same arguments, as bits.

ghost use Rattle.std.specs.Prelude.{◌≡◌, Bool, List, Option, true, IfOk, map, option_map};
ghost use Rattle.std.specs.declared.result.Result.{Result};
ghost use Rattle.mpy_tree.specs.declared.outcome.Halted.{Halted};
ghost use Rattle.mpy_tree.specs.declared.typing.Ty.{Ty as AnyType};
ghost use Rattle.mpy_tree.specs.declared.value.Value.{Value};
ghost use Rattle.mpy_tree.specs.Outcomes.{is_done, outcome_of};
ghost use Rattle.mpy_tree.specs.Running.{Done};
ghost use Rattle.mpy_tree.specs.Syntax.{Routine};
ghost use Rattle.bit_words.specs.Logic.{Extends};
ghost use Rattle.sym_values.specs.Forms.{form_for};
ghost use Rattle.sym_values.specs.Printed.{DoneReads, IsDoneIn};
ghost use Rattle.sym_values.specs.Reading.{read, sure};
ghost use Rattle.input_space.specs.TaskParts.{task_with};
ghost use Rattle.input_space.specs.TaskSpace.{wanted};
ghost use Rattle.query_build.specs.Asking.{Choose};
ghost use Rattle.query_build.specs.Comparing.{end_as_one, fails_on, meets_on};
ghost use Rattle.task_bits.specs.Tasks.{AreArgumentsOf, ArePicksOf};

use bit_words::NoMemory;
use bit_words::logic::Logic;
use input_space::Task;
use mpy_tree::Limits;
use std::alloc::Global;
use sym_nodes::Picks;
use sym_values::alike::ends_alike;
use sym_values::{SymDone, SymValue};
use task_bits::{candidates, reference};

/// Whether a run ends without a fault, and whether another ends so, too.
#[derive(Clone, Copy, Drop)]
pub struct Compared<B: Copy> {
    pub ends: B,
    pub meets: B,
}

/// Compares an end with another that has its form.
pub fn compare_ends<L: Logic>(
    alloc: Global,
    g: &mut L,
    limits: &Limits,
    wanted: &SymDone<L::Bit>,
    given: &SymDone<L::Bit>,
) -> Result<Compared<L::Bit>, NoMemory>
    requires formed { (t : Option AnyType)
        × IsDoneIn L.owns g.old limits.now (option_map (form_for limits.now) t) wanted.now
        × IsDoneIn L.owns g.old limits.now (option_map (form_for limits.now) t) given.now }
    ensures extends { Extends L.owns L.reads L.count g.old g.new }
    ensures owned_ends { IfOk result (λ r. L.owns g.new r.ends) }
    ensures owned_meets { IfOk result (λ r. L.owns g.new r.meets) }
    ensures ends { IfOk result (λ r. (vs : List Bool) (x : Result Done Halted)
        → DoneReads limits.now (L.reads g.old vs) wanted.now x
        → L.reads g.new vs r.ends ≡ is_done (outcome_of x)) }
    ensures meets { IfOk result (λ r. (vs : List Bool) (x y : Result Done Halted)
        → DoneReads limits.now (L.reads g.old vs) wanted.now x
        → DoneReads limits.now (L.reads g.old vs) given.now y
        → L.reads g.new vs r.meets ≡ end_as_one (outcome_of x) (outcome_of y)) }
{
    let equal = ends_alike(alloc, g, limits, wanted, given)?;
    let ends = g.not(wanted.fault);
    let given_ends = g.not(given.fault);
    let alike = g.and(given_ends, equal)?;
    let meets = g.and(ends, alike)?;
    Ok(Compared { ends, meets })
}

/// Compares the reference with the program that picks choose.
fn compare_programs<L: Logic>(
    alloc: Global,
    g: &mut L,
    task: &Task,
    picks: &Picks<L::Bit>,
    args: &Vec<SymValue<L::Bit>>,
) -> Result<Compared<L::Bit>, NoMemory>
    requires picks { ArePicksOf L.owns g.old (task_with task.now) picks.now }
    requires args { AreArgumentsOf L.owns g.old task.now.bounds args.now.items }
    ensures extends { Extends L.owns L.reads L.count g.old g.new }
    ensures owned_ends { IfOk result (λ r. L.owns g.new r.ends) }
    ensures owned_meets { IfOk result (λ r. L.owns g.new r.meets) }
    ensures ends { IfOk result (λ r. (vs : List Bool) (xs : List Value)
        → map (read (L.reads g.old vs)) args.now.items ≡ map sure xs
        → L.reads g.new vs r.ends ≡ is_done (wanted (task_with task.now) xs)) }
    ensures meets { IfOk result (λ r. (vs : List Bool) (xs : List Value) (p : List Routine)
        → Choose (L.reads g.old vs) (task_with task.now) picks.now p
        → map (read (L.reads g.old vs)) args.now.items ≡ map sure xs
        → L.reads g.new vs r.meets ≡ meets_on (task_with task.now) p xs) }
{
    let wanted = reference(alloc, g, task, args)?;
    let given = candidates(alloc, g, task, picks, args)?;
    let both = compare_ends(alloc, g, &task.bounds().limits, &wanted, &given)?;
    Ok(both)
}

/// Whether the reference ends without a fault.
pub fn ends<L: Logic>(
    alloc: Global,
    g: &mut L,
    task: &Task,
    args: &Vec<SymValue<L::Bit>>,
) -> Result<L::Bit, NoMemory>
    requires args { AreArgumentsOf L.owns g.old task.now.bounds args.now.items }
    ensures extends { Extends L.owns L.reads L.count g.old g.new }
    ensures owned { IfOk result (λ r. L.owns g.new r) }
    ensures value { IfOk result (λ r. (vs : List Bool) (xs : List Value)
        → map (read (L.reads g.old vs)) args.now.items ≡ map sure xs
        → L.reads g.new vs r ≡ is_done (wanted (task_with task.now) xs)) }
{
    let wanted = reference(alloc, g, task, args)?;
    Ok(g.not(wanted.fault))
}

/// Whether the reference ends without a fault, and the program that picks choose doesn't end so.
pub fn fails<L: Logic>(
    alloc: Global,
    g: &mut L,
    task: &Task,
    picks: &Picks<L::Bit>,
    args: &Vec<SymValue<L::Bit>>,
) -> Result<L::Bit, NoMemory>
    requires picks { ArePicksOf L.owns g.old (task_with task.now) picks.now }
    requires args { AreArgumentsOf L.owns g.old task.now.bounds args.now.items }
    ensures extends { Extends L.owns L.reads L.count g.old g.new }
    ensures owned { IfOk result (λ r. L.owns g.new r) }
    ensures value { IfOk result (λ r. (vs : List Bool) (xs : List Value) (p : List Routine)
        → Choose (L.reads g.old vs) (task_with task.now) picks.now p
        → map (read (L.reads g.old vs)) args.now.items ≡ map sure xs
        → L.reads g.new vs r ≡ fails_on (task_with task.now) p xs) }
{
    let both = compare_programs(alloc, g, task, picks, args)?;
    let differs = g.not(both.meets);
    let failing = g.and(both.ends, differs)?;
    Ok(failing)
}

/// Whether the reference ends without a fault, and the program that picks choose ends so, too.
pub fn meets<L: Logic>(
    alloc: Global,
    g: &mut L,
    task: &Task,
    picks: &Picks<L::Bit>,
    args: &Vec<SymValue<L::Bit>>,
) -> Result<L::Bit, NoMemory>
    requires picks { ArePicksOf L.owns g.old (task_with task.now) picks.now }
    requires args { AreArgumentsOf L.owns g.old task.now.bounds args.now.items }
    ensures extends { Extends L.owns L.reads L.count g.old g.new }
    ensures owned { IfOk result (λ r. L.owns g.new r) }
    ensures value { IfOk result (λ r. (vs : List Bool) (xs : List Value) (p : List Routine)
        → Choose (L.reads g.old vs) (task_with task.now) picks.now p
        → map (read (L.reads g.old vs)) args.now.items ≡ map sure xs
        → L.reads g.new vs r ≡ meets_on (task_with task.now) p xs) }
{
    let both = compare_programs(alloc, g, task, picks, args)?;
    Ok(both.meets)
}
