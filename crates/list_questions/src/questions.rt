//! Questions about a task, answered by trying all.
ghost use Rattle.std.specs.Prelude.{◌≡◌, ◌++◌, ◌∷◌, [], IfOk, OnErr, OnOk, Some, MatchOption};
ghost use Rattle.std.specs.Prelude.{option_to_list};
ghost use Rattle.std.specs.List.{Contains};
ghost use Rattle.cegis_loop.specs.Space.{AgreesOn, IsFail};
ghost use Rattle.input_space.specs.TaskSpace.{space, wanted, wanted_inputs};
ghost use Rattle.list_questions.specs.Answering.{IsProposed, answer};
ghost use Rattle.list_questions.specs.Asking.{task_of};

use crate::NoMemory;
use crate::table::{Expected, Table, ends_of};
use crate::trial::{Reached, Trial};
use cegis_loop::{Asked, Questions};
use choice_tree::{Selection, cost, most_cost, plain};
use cost_levels::Levels;
use input_space::{Case, Cases, Task};
use mpy_tree::Outcome;
use std::alloc::Global;
use std::marker::Model;
use task_runs::Runs;

/// The questions of a search for the cheapest selection of a task that agrees with its reference,
/// answered by trying all selections and all inputs.
///
/// It doesn't tell what it was asked, logs nothing, and never answers that its budget is spent.
#[derive(Drop)]
pub struct ListQuestions<'a> {
    runs: Runs<'a>,
    levels: Levels<'a>,
    // The greatest cost of a selection.
    last: u32,
    // Each selection before the place that was reached fails on a kept case.
    reached: Reached,
    // How the reference ends on all inputs.
    table: Vec<Outcome>,
    kept: Cases,
    // How the reference ends on the kept cases.
    ends: Vec<Outcome>,
}

impl<'a> Model for ListQuestions<'a> {
    ghost use Rattle.input_space.specs.TaskParts.{task_with};
    ghost use Rattle.list_questions.specs.Asking.{Asking, IsAsking};
    ghost use Rattle.input_space.specs.contracts.task.TaskParts as parts;
    ghost use Rattle.std.specs.Coded.{codes};

    ghost Value = { Asking };

    ghost coded = { Prim.hlevel (codes, parts.the_row.coded) };

    ghost view = { λ q. record { parts = q.runs.task.now; kept = q.kept } };

    ghost invariant = { λ q. IsAsking (task_with q.runs.task.now) q.levels q.last q.reached
        q.table.items q.kept q.ends.items };
}

impl<'a> ListQuestions<'a> {
    /// The questions about a task, of which none was asked. Of a task with more than 1,000,000
    /// inputs the answer is want of memory.
    pub fn new(alloc: Global, t: &'a Task) -> Result<ListQuestions<'a>, NoMemory>
        ensures { IfOk result (λ q. q ≡ record { parts = t.now; kept = [] }) }
    {
        t.is_sound();
        let runs = Runs { alloc, task: t };
        let levels = Levels::of(alloc, t.tree())?;
        let reached = Reached {
            cost: 0,
            level: levels.level(alloc, 0)?,
            passed: 0,
        };
        let last = most_cost(t.tree());
        let table = ends_of(&runs)?;
        Ok(ListQuestions {
            runs,
            levels,
            last,
            reached,
            table,
            kept: Cases::from_vec(Vec::new(alloc)),
            ends: Vec::new(alloc),
        })
    }

    /// The inputs that are kept, in order.
    pub fn kept(&self) -> &Cases
        ensures { result.now ≡ self.now.kept }
    {
        &self.kept
    }

    // Keeps a case and how the reference ends there.
    fn push(&mut self, case: Case, end: Outcome) -> Result<(), NoMemory>
        requires { wanted (task_of self.old) case.values ≡ end }
        ensures parts { self.new.parts ≡ self.old.parts }
        ensures kept { OnOk result (self.new.kept ≡ self.old.kept ++ case ∷ []) }
        ensures as_before { OnErr result (self.new ≡ self.old) }
    {
        self.ends.reserve(1)?;
        self.kept.push(case)?;
        self.ends.push_reserved(end);
        Ok(())
    }

    // Keeps an input that was found.
    fn keep(&mut self, found: Expected) -> Result<Case, NoMemory>
        requires { wanted (task_of self.old) found.case.values ≡ found.end }
        ensures parts { self.new.parts ≡ self.old.parts }
        ensures kept { IfOk result (λ x. (x ≡ found.case)
            × (self.new.kept ≡ self.old.kept ++ found.case ∷ [])) }
        ensures as_before { OnErr result (self.new ≡ self.old) }
    {
        let Expected { case, end } = found;
        let copy = case.copy()?;
        self.push(copy, end)?;
        Ok(case)
    }

    // Passes by the selections that fail on kept cases, up to one that agrees within the bound.
    fn next_within(&mut self, most: Option<u32>) -> Result<Option<Selection>, NoMemory>
        ensures same { self.new ≡ self.old }
        ensures found { IfOk result (IsProposed self.old most) }
    {
        let trial = Trial {
            runs: self.runs,
            levels: &self.levels,
            last: self.last,
            kept: self.kept.items(),
            ends: self.ends.as_slice(),
        };
        trial.next(&mut self.reached, most)
    }

    // Finds the first input on which the reference gives a value, and keeps it.
    fn find_first(&mut self) -> Result<Option<Case>, NoMemory>
        ensures parts { self.new.parts ≡ self.old.parts }
        ensures kept { IfOk result (λ o. self.new.kept ≡ self.old.kept ++ option_to_list o) }
        ensures as_before { OnErr result (self.new ≡ self.old) }
        ensures found { IfOk result (λ o. MatchOption o (wanted_inputs (task_of self.old) ≡ [])
            (Contains (wanted_inputs (task_of self.old)))) }
    {
        let table = Table {
            runs: self.runs,
            ends: self.table.as_slice(),
        };
        match table.first_expected()? {
            None => Ok(None),
            Some(expected) => Ok(Some(self.keep(expected)?)),
        }
    }

    // Finds the first input on which a selection's program fails, and keeps it.
    fn find_failure(&mut self, c: &Selection) -> Result<Option<Case>, NoMemory>
        ensures parts { self.new.parts ≡ self.old.parts }
        ensures kept { IfOk result (λ o. self.new.kept ≡ self.old.kept ++ option_to_list o) }
        ensures as_before { OnErr result (self.new ≡ self.old) }
        ensures found { IfOk result (λ o. MatchOption o
            (AgreesOn (space (task_of self.old) 1) (wanted_inputs (task_of self.old)) c.now)
            (IsFail (space (task_of self.old) 1) c.now)) }
    {
        let program = plain(self.runs.alloc, self.runs.task.tree(), c)?;
        let table = Table {
            runs: self.runs,
            ends: self.table.as_slice(),
        };
        match table.first_failure(&program)? {
            None => Ok(None),
            Some(expected) => Ok(Some(self.keep(expected)?)),
        }
    }
}

// What is answered where this was looked for.
fn asked<T: Drop>(found: Result<Option<T>, NoMemory>) -> Asked<T>
    ensures { result ≡ answer found }
{
    match found {
        Ok(Some(it)) => Asked::Found(it),
        Ok(None) => Asked::Nothing,
        Err(_) => Asked::NoMemory,
    }
}

impl Questions for ListQuestions<'_> {
    type Choice = Selection;

    type Input = Case;

    ghost use Rattle.std.specs.Prelude.{None};
    ghost use Rattle.input_space.specs.Tasks.{Task as AnyTask};
    ghost use Rattle.list_questions.specs.Asking.{task_of};
    ghost use Rattle.input_space.specs.TaskSpace.{space};

    ghost Topic = { AnyTask };

    ghost topic = { task_of };

    ghost space = { λ k. space k 1 };

    ghost seen = { λ q. record { kept = q.kept; logged = 0; told = None } };

    fn first(&mut self) -> Asked<Case> {
        let found = self.find_first();
        asked(found)
    }

    fn propose(&mut self, most: Option<u32>) -> Asked<Selection> {
        let found = self.next_within(most);
        asked(found)
    }

    fn refute(&mut self, c: &Selection) -> Asked<Case> {
        let found = self.find_failure(c);
        asked(found)
    }

    fn most_cost(&self) -> u32 {
        self.last
    }

    fn cost_of(&self, c: &Selection) -> u32 {
        self.runs.task.is_sound();
        cost(self.runs.task.tree(), c)
    }
}
