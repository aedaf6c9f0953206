//! An input whose bits are new variables, by cases.

ghost use Rattle.std.specs.Prelude.{◌≡◌, ◌&&◌, Bool, List, true, IfOk, IfSome, OnOk, Option};
ghost use Rattle.std.specs.Prelude.{Some, map, option_map};
ghost use Rattle.mpy_tree.specs.declared.value.Value.{Value};
ghost use Rattle.mpy_tree.specs.Syntax.{Routine};
ghost use Rattle.bit_words.specs.Later.{AddsVariables};
ghost use Rattle.bit_words.specs.Logic.{Extends, OwnsAll};
ghost use Rattle.input_space.specs.Inputs.{are_within, param_type};
ghost use Rattle.input_space.specs.TaskParts.{task_with};
ghost use Rattle.input_space.specs.ValueBits.{all_bits_for};
ghost use Rattle.query_build.specs.Asking.{MayChoose};
ghost use Rattle.query_build.specs.Comparing.{is_asked_for};
ghost use Rattle.query_build.specs.Inputs.{are_right, spells_input, values_in};
ghost use Rattle.sym_values.specs.Forms.{form_for, forms_of, values_bits};
ghost use Rattle.sym_values.specs.Reading.{read, sure};
ghost use Rattle.task_bits.specs.Tasks.{AreArgumentsOf, ArePicksOf};

use crate::compared::{ends, fails};
use bit_words::NoMemory;
use bit_words::gates::or;
use bit_words::logic::{Logic, Variables};
use bounds_reader::Bounds;
use input_bits::laws::{values_have_cases, what_is_read_decodes};
use input_bits::{InputCase, cases_count, fresh_values, input_case, ranged_value, splits};
use input_space::{Task, signature};
use std::alloc::Global;
use sym_nodes::Picks;
use sym_values::{SymValue, SymValues};

/// Values for the parameters, and whether they are within the ranges.
#[derive(Drop)]
pub struct AnyInput<B: Copy> {
    pub within: B,
    pub args: SymValues<B>,
}

/// Values with what the ranges of the parameters fix.
fn ranged<L: Logic>(
    alloc: Global,
    g: &mut L,
    bounds: &Bounds,
    values: &SymValues<L::Bit>,
) -> Result<AnyInput<L::Bit>, NoMemory>
    requires owned { OwnsAll L.owns g.old (values_bits values.now) }
    requires forms { forms_of values.now
        ≡ map (form_for bounds.now.limits) (map param_type bounds.now.params) }
    ensures extends { Extends L.owns L.reads L.count g.old g.new }
    ensures owned { IfOk result (λ r. L.owns g.new r.within) }
    ensures owned_args { IfOk result (λ r. OwnsAll L.owns g.new (values_bits r.args)) }
    ensures forms { IfOk result (λ r. forms_of r.args ≡ forms_of values.now) }
    ensures within { IfOk result (λ r. (vs : List Bool) → L.reads g.new vs r.within
        ≡ are_right bounds.now.params (map (read (L.reads g.old vs)) values.now)) }
    ensures same { IfOk result (λ r. (vs : List Bool) → L.reads g.new vs r.within ≡ true
        → map (read (L.reads g.new vs)) r.args ≡ map (read (L.reads g.old vs)) values.now) }
{
    let params = bounds.params.items();
    let mut within = g.constant(true);
    let mut args = SymValues::new(alloc);
    for i in 0..params.len() {
        let known = ranged_value(alloc, g, &bounds.limits, &params[i], values.at(i))?;
        within = g.and(within, known.within)?;
        args.push(known.value)?;
    }
    Ok(AnyInput { within, args })
}

/// An input whose bits are the first variables. They read as the input that the truth values
/// spell, where they spell one.
pub fn fresh_input<V: Variables>(
    alloc: Global,
    g: &mut V,
    bounds: &Bounds,
) -> Result<AnyInput<V::Bit>, NoMemory>
    requires first { V.count g.old ≡ 0 }
    ensures adds { OnOk result (AddsVariables V.owns V.reads V.count
        (all_bits_for bounds.now.limits (map param_type bounds.now.params)) g.old g.new) }
    ensures owned { IfOk result (λ r. V.owns g.new r.within) }
    ensures args { IfOk result (λ r. AreArgumentsOf V.owns g.new bounds.now r.args) }
    ensures within { IfOk result (λ r. (vs : List Bool) → V.reads g.new vs r.within
        ≡ spells_input bounds.now vs) }
    ensures value { IfOk result (λ r. (vs : List Bool) (xs : List Value)
        → values_in bounds.now vs ≡ Some xs → are_within bounds.now.params xs ≡ true
        → map (read (V.reads g.new vs)) r.args ≡ map sure xs) }
{
    what_is_read_decodes();
    let signature = signature(alloc, bounds)?;
    let values = fresh_values(alloc, g, &bounds.limits, signature.params.items())?;
    let input = ranged(alloc, g, bounds, &values)?;
    Ok(input)
}

/// Whether the reference gives a value on arguments; where picks are given, one that the program
/// that they choose doesn't give.
fn asked_bit<L: Logic>(
    alloc: Global,
    g: &mut L,
    task: &Task,
    picks: Option<&Picks<L::Bit>>,
    args: &Vec<SymValue<L::Bit>>,
) -> Result<L::Bit, NoMemory>
    requires picks { IfSome picks (λ ps. ArePicksOf L.owns g.old (task_with task.now) ps.now) }
    requires args { AreArgumentsOf L.owns g.old task.now.bounds args.now.items }
    ensures extends { Extends L.owns L.reads L.count g.old g.new }
    ensures owned { IfOk result (λ r. L.owns g.new r) }
    ensures value { IfOk result (λ r. (vs : List Bool) (xs : List Value)
        (p : Option (List Routine))
        → MayChoose (L.reads g.old vs) (task_with task.now)
        (option_map (λ ps. ps.now) picks.entry) p
        → map (read (L.reads g.old vs)) args.now.items ≡ map sure xs
        → L.reads g.new vs r ≡ is_asked_for (task_with task.now) p xs) }
{
    match picks {
        None => {
            let ending = ends(alloc, g, task, args)?;
            Ok(ending)
        }
        Some(chosen) => {
            let failing = fails(alloc, g, task, chosen, args)?;
            Ok(failing)
        }
    }
}

/// The same of the arguments of a case, where the values belong to it.
fn asked_in_case<L: Logic>(
    alloc: Global,
    g: &mut L,
    task: &Task,
    picks: Option<&Picks<L::Bit>>,
    case: InputCase<L::Bit>,
) -> Result<L::Bit, NoMemory>
    requires picks { IfSome picks (λ ps. ArePicksOf L.owns g.old (task_with task.now) ps.now) }
    requires owned { L.owns g.old case.condition }
    requires args { AreArgumentsOf L.owns g.old task.now.bounds case.args }
    ensures extends { Extends L.owns L.reads L.count g.old g.new }
    ensures owned { IfOk result (λ r. L.owns g.new r) }
    ensures value { IfOk result (λ r. (vs : List Bool) (xs : List Value)
        (p : Option (List Routine))
        → MayChoose (L.reads g.old vs) (task_with task.now)
        (option_map (λ ps. ps.now) picks.entry) p
        → (L.reads g.old vs case.condition ≡ true
        → map (read (L.reads g.old vs)) case.args ≡ map sure xs)
        → L.reads g.new vs r
        ≡ (L.reads g.old vs case.condition && is_asked_for (task_with task.now) p xs)) }
{
    let args = case.args.into_vec();
    let asked = asked_bit(alloc, g, task, picks, &args)?;
    let here = g.and(case.condition, asked)?;
    Ok(here)
}

/// Whether the reference gives a value on arguments, which are looked at case by case; where picks
/// are given, one that the program that they choose doesn't give.
pub fn asked_by_cases<'a, L: Logic>(
    alloc: Global,
    g: &mut L,
    task: &'a Task,
    picks: Option<&'a Picks<L::Bit>>,
    args: &SymValues<L::Bit>,
) -> Result<L::Bit, NoMemory>
    requires picks { IfSome picks (λ ps. ArePicksOf L.owns g.old (task_with task.now) ps.now) }
    requires args { AreArgumentsOf L.owns g.old task.now.bounds args.now }
    ensures extends { Extends L.owns L.reads L.count g.old g.new }
    ensures owned { IfOk result (λ r. L.owns g.new r) }
    ensures value { IfOk result (λ r. (vs : List Bool) (xs : List Value)
        (p : Option (List Routine))
        → MayChoose (L.reads g.old vs) (task_with task.now)
        (option_map (λ ps. ps.now) picks.entry) p
        → map (read (L.reads g.old vs)) args.now ≡ map sure xs
        → are_within task.now.bounds.params xs ≡ true
        → L.reads g.new vs r ≡ is_asked_for (task_with task.now) p xs) }
{
    values_have_cases();
    let found = splits(alloc, task.bounds())?;
    let parts = found.as_slice();
    let count = cases_count(parts);
    let mut some = g.constant(false);
    for number in 0..count {
        let case = input_case(alloc, g, args, parts, number)?;
        let here = asked_in_case(alloc, g, task, picks, case)?;
        some = or(g, some, here)?;
    }
    Ok(some)
}
