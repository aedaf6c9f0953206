//! All inputs of a task, with how its reference ends on each.
ghost use Rattle.std.specs.Prelude.{◌≡◌, ◌<◌, ◌≤◌, [], IfOk, MatchOption, All, length};
ghost use Rattle.mpy_tree.specs.View.{routines_of};
ghost use Rattle.input_space.specs.Inputs.{inputs};
ghost use Rattle.input_space.specs.TaskParts.{task_with};
ghost use Rattle.input_space.specs.TaskSpace.{Meets, wanted_inputs};
ghost use Rattle.list_questions.specs.Asking.{ExpectedAt, IsExpected, IsFailing, NoneExpected};
ghost use Rattle.list_questions.specs.Asking.{all_ends, expected_in};
ghost use Rattle.list_questions.specs.Tables.{IsTable};

use crate::NoMemory;
use input_space::{Case, case_at, inputs_count};
use mpy_tree::{Outcome, Prog};
use std::alloc::AllocError;
use task_runs::Runs;

/// More inputs than this aren't tried.
const MOST_INPUTS: u64 = 1_000_000;

/// A case on which the reference gives a value, and how it ends there.
#[derive(Drop)]
pub(crate) struct Expected {
    pub(crate) case: Case,
    pub(crate) end: Outcome,
}

/// A case on which the reference gives a value, and how it ends there, as the table has it.
#[derive(Drop)]
struct Row<'t> {
    case: Case,
    end: &'t Outcome,
}

impl Row<'_> {
    // The case with a copy of the end.
    fn kept(self) -> Result<Expected, NoMemory>
        ensures { IfOk result (λ e. e ≡ expected_in self.entry) }
    {
        let end = self.end.copy()?;
        Ok(Expected {
            case: self.case,
            end,
        })
    }
}

/// How the reference ends on all inputs, in order.
pub(crate) fn ends_of(runs: &Runs<'_>) -> Result<Vec<Outcome>, NoMemory>
    ensures ends { IfOk result (λ v. v.items ≡ all_ends (task_with runs.now.task.now)) }
    ensures few { IfOk result (λ v. length v.items ≤ MOST_INPUTS) }
{
    let bounds = runs.task.bounds();
    let count = inputs_count(bounds);
    if count > MOST_INPUTS {
        return Err(AllocError);
    }
    let mut ends = Vec::new(runs.alloc);
    for place in 0..count {
        let case = case_at(runs.alloc, bounds, place)?;
        ends.push(runs.reference(&case)?)?;
    }
    Ok(ends)
}

/// The inputs of a task, and how its reference ends on each.
#[derive(Clone, Copy)]
pub(crate) struct Table<'a> {
    pub(crate) runs: Runs<'a>,
    pub(crate) ends: &'a [Outcome],
}

impl<'a> Table<'a> {
    // The input at a place, where the reference gives a value on it.
    fn row(&self, place: usize) -> Result<Option<Row<'a>>, NoMemory>
        requires table { IsTable self.now }
        requires place { place < length self.now.ends.now }
        ensures { IfOk result (λ o. MatchOption o
            (NoneExpected (task_with self.now.runs.task.now) place)
            (λ r. ExpectedAt (task_with self.now.runs.task.now) place (expected_in r))) }
    {
        let end = &self.ends[place];
        if !end.is_done() {
            return Ok(None);
        }
        Ok(Some(Row {
            case: case_at(self.runs.alloc, self.runs.task.bounds(), place as u64)?,
            end,
        }))
    }

    /// The first input on which the reference gives a value.
    pub(crate) fn first_expected(&self) -> Result<Option<Expected>, NoMemory>
        requires { IsTable self.now }
        ensures { IfOk result (λ o. MatchOption o
            (wanted_inputs (task_with self.now.runs.task.now) ≡ [])
            (IsExpected (task_with self.now.runs.task.now))) }
    {
        for place in 0..self.ends.len() {
            if let Some(row) = self.row(place)? {
                return Ok(Some(row.kept()?));
            }
        }
        Ok(None)
    }

    /// The first of these on which a program made of the submission doesn't give that value.
    pub(crate) fn first_failure(&self, program: &Prog) -> Result<Option<Expected>, NoMemory>
        requires { IsTable self.now }
        ensures { IfOk result (λ o. MatchOption o
            (All (Meets (task_with self.now.runs.task.now) (routines_of program.now))
            (wanted_inputs (task_with self.now.runs.task.now)))
            (IsFailing (task_with self.now.runs.task.now) (routines_of program.now))) }
    {
        for place in 0..self.ends.len() {
            if let Some(row) = self.row(place)? {
                if !self.runs.meets(program, &row.case, row.end)? {
                    return Ok(Some(row.kept()?));
                }
            }
        }
        Ok(None)
    }
}
