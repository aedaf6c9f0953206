//! Selections tried on the cases that are kept.
ghost use Rattle.std.specs.Prelude.{◌≡◌, ◌↔◌, ◌≤◌, IfOk, IsTrue, MatchOption, All, length};
ghost use Rattle.std.specs.List.Sorted.{IsPermutation};
ghost use Rattle.mpy_tree.specs.View.{routines_of};
ghost use Rattle.choice_tree.specs.StatementViews.{weighted_prog};
ghost use Rattle.input_space.specs.TaskParts.{task_with};
ghost use Rattle.input_space.specs.TaskSpace.{Meets, SelectionMeets, space};
ghost use Rattle.cegis_loop.specs.Space.{IsLow};
ghost use Rattle.cost_levels.specs.Levels.{level as level_of};
ghost use Rattle.list_questions.specs.Answering.{NoneLow};
ghost use Rattle.list_questions.specs.Asking.{IsBeyond, IsReached, wanted_on};
ghost use Rattle.list_questions.specs.Trials.{IsTrial, StopsAt};

use crate::NoMemory;
use choice_tree::{Selection, plain};
use cost_levels::Levels;
use input_space::Case;
use mpy_tree::{Outcome, Prog};
use task_runs::Runs;

/// How far the selections of a task were tried.
#[derive(Drop)]
pub(crate) struct Reached {
    // The selections of this cost, of which so many were passed by.
    pub(crate) cost: u32,
    pub(crate) level: Vec<Selection>,
    pub(crate) passed: usize,
}

/// The selections of a task by rising cost, the greatest of which is the last, and the kept cases
/// with how the reference ends there.
#[derive(Clone, Copy)]
pub(crate) struct Trial<'a> {
    pub(crate) runs: Runs<'a>,
    pub(crate) levels: &'a Levels<'a>,
    pub(crate) last: u32,
    pub(crate) kept: &'a [Case],
    pub(crate) ends: &'a [Outcome],
}

impl Trial<'_> {
    // Whether a program gives the values of the reference on the kept cases.
    fn agrees(&self, program: &Prog) -> Result<bool, NoMemory>
        requires { wanted_on (task_with self.now.runs.task.now) self.now.kept.now
            ≡ self.now.ends.now }
        ensures { IfOk result (λ b. IsTrue b ↔ All (Meets (task_with self.now.runs.task.now)
            (routines_of program.now)) self.now.kept.now) }
    {
        for (i, case) in self.kept.iter().enumerate() {
            if !self.runs.meets(program, case, &self.ends[i])? {
                return Ok(false);
            }
        }
        Ok(true)
    }

    // Whether a selection agrees on the kept cases.
    fn is_agreeing(&self, selection: &Selection) -> Result<bool, NoMemory>
        requires { IsTrial self.now }
        ensures { IfOk result (λ b. IsTrue b ↔ All (SelectionMeets
            (task_with self.now.runs.task.now) selection.now) self.now.kept.now) }
    {
        let program = plain(self.runs.alloc, self.runs.task.tree(), selection)?;
        self.agrees(&program)
    }

    // The place of the first selection of these, from a place on, that agrees on the kept cases.
    fn first_agreeing(&self, level: &[Selection], from: usize) -> Result<usize, NoMemory>
        requires trial { IsTrial self.now }
        requires within { from ≤ length level.now }
        ensures { IfOk result (StopsAt (task_with self.now.runs.task.now) self.now.kept.now
            level.now from) }
    {
        for place in from..level.len() {
            if self.is_agreeing(&level[place])? {
                return Ok(place);
            }
        }
        Ok(level.len())
    }

    /// The next selection that agrees on the kept cases and costs no more than the bound.
    pub(crate) fn next(
        &self,
        reached: &mut Reached,
        most: Option<u32>,
    ) -> Result<Option<Selection>, NoMemory>
        requires trial { IsTrial self.now }
        requires reached { IsReached (task_with self.now.runs.task.now) self.now.kept.now
            reached.old }
        ensures reached { IsReached (task_with self.now.runs.task.now) self.now.kept.now
            reached.new }
        ensures found { IfOk result (λ o. MatchOption o
            (NoneLow (task_with self.now.runs.task.now) most self.now.kept.now)
            (IsLow (space (task_with self.now.runs.task.now) 1) most self.now.kept.now)) }
    {
        'levels: loop {
            if is_beyond(most, reached.cost) {
                return Ok(None);
            }
            reached.passed = self.first_agreeing(reached.level.as_slice(), reached.passed)?;
            if reached.passed < reached.level.len() {
                return Ok(Some(reached.level[reached.passed].copy()?));
            }
            if self.last <= reached.cost {
                return Ok(None);
            }
            *reached = self.first_of(reached.cost + 1)?;
        }
    }

    // The level of a cost, of which none was tried.
    fn first_of(&self, cost: u32) -> Result<Reached, NoMemory>
        ensures cost { IfOk result (λ r. r.cost ≡ cost) }
        ensures level { IfOk result (λ r. IsPermutation (level_of
            (weighted_prog self.now.levels.now) cost) r.level.items) }
        ensures passed { IfOk result (λ r. r.passed ≡ 0) }
    {
        Ok(Reached {
            cost,
            level: self.levels.level(self.runs.alloc, cost)?,
            passed: 0,
        })
    }
}

/// Whether a cost is above the bound, if there is one.
fn is_beyond(most: Option<u32>, cost: u32) -> bool
    ensures { IsTrue result ↔ IsBeyond most cost }
{
    match most {
        None => false,
        Some(most) => cost > most,
    }
}
