//! The goal of each question: a bit that is true exactly where the first variables spell what is
//! asked for.

ghost use Rattle.std.specs.Prelude.{◌≡◌, ◌↔◌, ◌≤◌, ℕ, Bool, List, true, IfOk, OnOk, IsSomeAnd};
ghost use Rattle.std.specs.Prelude.{length, option_map, map, take};
ghost use Rattle.mpy_tree.specs.Syntax.{Routine};
ghost use Rattle.bit_words.specs.Later.{AddsVariables};
ghost use Rattle.bit_words.specs.Logic.{Extends};
ghost use Rattle.choice_tree.specs.Selections.{cost};
ghost use Rattle.cegis_loop.specs.Space.{IsFail, IsInput, IsLow};
ghost use Rattle.input_space.specs.Sessions.{cases_of, question_of};
ghost use Rattle.input_space.specs.Statements.{IsAnswered, bits_of};
ghost use Rattle.input_space.specs.TaskCoding.{coding};
ghost use Rattle.input_space.specs.TaskParts.{task_with};
ghost use Rattle.input_space.specs.Tasks.{tree_of};
ghost use Rattle.input_space.specs.TaskSpace.{space};
ghost use Rattle.query_build.specs.Asking.{AreWanted, Choose, MakesProgram};
ghost use Rattle.query_build.specs.Comparing.{all_meet_on, is_cheap};
ghost use Rattle.sym_nodes.specs.Environments.{PicksRead};
ghost use Rattle.task_bits.specs.Tasks.{ArePicksOf};

use crate::compared::meets;
use crate::inputs::{asked_by_cases, fresh_input};
use bit_words::NoMemory;
use bit_words::logic::{Logic, Variables};
use choice_tree::Selection;
use input_space::{Case, Cases, Query, Task};
use pick_bits::fresh_members;
use selection_numbers::MemberCounts;
use selection_programs::selections_make_programs;
use std::alloc::{AllocError, Global};
use sym_nodes::Picks;
use task_bits::{constant_case, constant_picks, task_cost_reaches};

/// Whatever members are chosen, the rules make a program of the submission.
fn rules_make_programs(task: &Task)
    ensures { (m : ℕ → ℕ) → MakesProgram (task_with task.now) m }
{
    selections_make_programs();
    let _tree = task.tree();
}

/// Of `First`: an input on which the reference gives a value.
#[tactic(auto, using(bit_words::proofs::Kept::steps))]
fn first_goal<V: Variables>(alloc: Global, g: &mut V, task: &Task) -> Result<V::Bit, NoMemory>
    requires first { V.count g.old ≡ 0 }
    ensures adds { OnOk result (AddsVariables V.owns V.reads V.count
        (coding (task_with task.now)).input_bits g.old g.new) }
    ensures owned { IfOk result (λ r. V.owns g.new r) }
    ensures value { IfOk result (λ r. (budget : ℕ) (vs : List Bool)
        → (V.reads g.new vs r ≡ true)
        ↔ IsSomeAnd ((coding (task_with task.now)).input vs)
        (IsInput (space (task_with task.now) budget))) }
{
    let input = fresh_input(alloc, g, task.bounds())?;
    let asked = asked_by_cases(alloc, g, task, None, &input.args)?;
    let goal = g.and(input.within, asked)?;
    Ok(goal)
}

/// Of `Fail`: an input on which the reference gives a value, and the selection's program doesn't
/// give it.
#[tactic(auto, using(bit_words::proofs::Kept::steps))]
fn fail_goal<V: Variables>(
    alloc: Global,
    g: &mut V,
    task: &Task,
    selection: &Selection,
) -> Result<V::Bit, NoMemory>
    requires first { V.count g.old ≡ 0 }
    ensures adds { OnOk result (AddsVariables V.owns V.reads V.count
        (coding (task_with task.now)).input_bits g.old g.new) }
    ensures owned { IfOk result (λ r. V.owns g.new r) }
    ensures value { IfOk result (λ r. (budget : ℕ) (vs : List Bool)
        → (V.reads g.new vs r ≡ true)
        ↔ IsSomeAnd ((coding (task_with task.now)).input vs)
        (IsFail (space (task_with task.now) budget) selection.now)) }
{
    rules_make_programs(task);
    let input = fresh_input(alloc, g, task.bounds())?;
    let picks = constant_picks(alloc, g, task, selection)?;
    let asked = asked_by_cases(alloc, g, task, Some(&picks), &input.args)?;
    let goal = g.and(input.within, asked)?;
    Ok(goal)
}

/// Whether the members that picks read as cost at most `most`, where that is given. Where `most` is
/// the greatest u32, memory is wanting for a counter.
fn cost_within<L: Logic>(
    alloc: Global,
    g: &mut L,
    task: &Task,
    picks: &Picks<L::Bit>,
    most: Option<u32>,
) -> Result<L::Bit, NoMemory>
    requires picks { ArePicksOf L.owns g.old (task_with task.now) picks.now }
    ensures extends { Extends L.owns L.reads L.count g.old g.new }
    ensures owned { IfOk result (λ r. L.owns g.new r) }
    ensures value { IfOk result (λ r. (vs : List Bool) (m : ℕ → ℕ)
        → PicksRead (L.reads g.old vs) picks.now m
        → L.reads g.new vs r ≡ is_cheap most (cost m (tree_of (task_with task.now)))) }
{
    let Some(most) = most else {
        return Ok(g.constant(true));
    };
    if most == u32::MAX {
        return Err(AllocError);
    }
    let counter = task_cost_reaches(alloc, g, task, picks, most + 1)?;
    let above = counter.at(most as usize);
    Ok(g.not(above))
}

/// Whether the program that picks choose gives the reference's value on each of the cases.
fn meets_all<L: Logic>(
    alloc: Global,
    g: &mut L,
    task: &Task,
    picks: &Picks<L::Bit>,
    cases: &[Case],
) -> Result<L::Bit, NoMemory>
    requires picks { ArePicksOf L.owns g.old (task_with task.now) picks.now }
    requires wanted { AreWanted (task_with task.now) cases.now }
    ensures extends { Extends L.owns L.reads L.count g.old g.new }
    ensures owned { IfOk result (λ r. L.owns g.new r) }
    ensures value { IfOk result (λ r. (vs : List Bool) (p : List Routine)
        → Choose (L.reads g.old vs) (task_with task.now) picks.now p
        → L.reads g.new vs r ≡ all_meet_on (task_with task.now) p cases.now) }
{
    let mut all = g.constant(true);
    for case in cases {
        let args = constant_case(alloc, g, task.bounds(), case)?;
        let here = meets(alloc, g, task, picks, &args)?;
        all = g.and(all, here)?;
    }
    Ok(all)
}

/// Of `Low`: a selection that costs at most `most`, where that is given, and whose program gives
/// the reference's value on each of the cases.
#[tactic(auto, using(bit_words::proofs::Kept::steps))]
fn low_goal<V: Variables>(
    alloc: Global,
    g: &mut V,
    task: &Task,
    most: Option<u32>,
    cases: &[Case],
) -> Result<V::Bit, NoMemory>
    requires first { V.count g.old ≡ 0 }
    requires wanted { AreWanted (task_with task.now) cases.now }
    ensures adds { OnOk result (AddsVariables V.owns V.reads V.count
        (coding (task_with task.now)).choice_bits g.old g.new) }
    ensures owned { IfOk result (λ r. V.owns g.new r) }
    ensures value { IfOk result (λ r. (budget : ℕ) (vs : List Bool)
        → (V.reads g.new vs r ≡ true)
        ↔ IsSomeAnd ((coding (task_with task.now)).choice vs)
        (IsLow (space (task_with task.now) budget) most cases.now)) }
{
    rules_make_programs(task);
    let counts = MemberCounts::of(alloc, task.tree())?;
    let ranged = fresh_members(alloc, g, &counts)?;
    let picks = Picks::from_vec(ranged.members);
    let cheap = cost_within(alloc, g, task, &picks, most)?;
    let right = g.and(ranged.within, cheap)?;
    let meeting = meets_all(alloc, g, task, &picks, cases)?;
    let goal = g.and(right, meeting)?;
    Ok(goal)
}

/// Of a question, where these cases are kept.
pub fn goal<V: Variables>(
    alloc: Global,
    g: &mut V,
    task: &Task,
    kept: &Cases,
    query: &Query,
) -> Result<V::Bit, NoMemory>
    requires first { V.count g.old ≡ 0 }
    requires wanted { AreWanted (task_with task.now) kept.now }
    requires cases { cases_of query.now ≤ length kept.now }
    ensures adds { OnOk result (AddsVariables V.owns V.reads V.count
        (bits_of (coding (task_with task.now)) (question_of query.now)) g.old g.new) }
    ensures owned { IfOk result (λ r. V.owns g.new r) }
    ensures value { IfOk result (λ r. (budget : ℕ) (vs : List Bool)
        → (V.reads g.new vs r ≡ true)
        ↔ IsAnswered (space (task_with task.now) budget) (coding (task_with task.now)) kept.now
        (question_of query.now) vs) }
{
    match query {
        Query::First => {
            let first = first_goal(alloc, g, task)?;
            Ok(first)
        }
        Query::Low { most, cases } => {
            let low = low_goal(alloc, g, task, *most, &kept.items()[..*cases as usize])?;
            Ok(low)
        }
        Query::Fail(selection) => {
            let fail = fail_goal(alloc, g, task, selection)?;
            Ok(fail)
        }
    }
}
