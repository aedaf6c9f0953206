//! Selections tried one after another, and those that agree kept.
ghost use Rattle.std.specs.Prelude.{◌≡◌, ◌≢◌, ◌↔◌, ◌∷◌, ◌++◌, [], List, All, Any, IfOk, OnOk};
ghost use Rattle.std.specs.Prelude.{IsTrue, MatchBool, take, AllPairs};
ghost use Rattle.std.specs.Bool.{OnFalse, OnTrue};
ghost use Rattle.std.specs.List.{Contains};
ghost use Rattle.mpy_tree.specs.View.{routines_of};
ghost use Rattle.choice_tree.specs.declared.selection.Choice.{Choice};
ghost use Rattle.choice_tree.specs.Selections.{Fits};
ghost use Rattle.input_space.specs.Sessions.{logged};
ghost use Rattle.input_space.specs.TaskParts.{task_with};
ghost use Rattle.input_space.specs.Tasks.{tree_of};
ghost use Rattle.input_space.specs.TaskSpace.{Meets, wanted_inputs};
ghost use Rattle.certificate_laws.specs.BestLaws.{Makes};
ghost use Rattle.least_all.specs.Answers.{IsAnswer, IsSpent};
ghost use Rattle.least_all.specs.BestLists.{AreSame};
ghost use Rattle.least_all.specs.Listings.{AsksMore, HasAsked, HasBest, IsListing, IsVerdict};
ghost use Rattle.least_all.specs.Listings.{SameTopic, selections_in, task_of};
ghost use Rattle.least_all.specs.declared.answer.Best.TheVariants as best;

use crate::NoMemory;
use crate::answer::{Best, Selections};
use cegis_loop::{Asked, Questions};
use choice_tree::{Selection, plain};
use coding_laws::agreement_is_decided;
use input_space::{Case, MOST_COUNTED, Sessions, Task, case_at, inputs_count};
use mpy_tree::{Outcome, Prog, same};
use selection_programs::selections_make_programs;
use solver_questions::SolverQuestions;
use std::alloc::{AllocError, Global};
use task_runs::Runs;

/// About so many inputs are tried before any question is asked.
const SPREAD: u64 = 64;

/// An input on which selections are run, and how the reference ends there.
#[derive(Drop)]
pub(crate) struct Tried {
    pub(crate) case: Case,
    pub(crate) end: Outcome,
}

/// A selection whose program agrees with the reference, and that program.
#[derive(Drop)]
pub(crate) struct Found {
    pub(crate) selection: Selection,
    pub(crate) program: Prog,
}

/// What is found out about a selection.
#[derive(Clone, Copy, Drop)]
pub(crate) enum Verdict {
    /// Its program agrees with the reference.
    Agrees,
    /// It fails on some input.
    Fails,
    /// The budget is spent.
    Spent,
}

/// The selections that were found, the inputs on which others failed, and what was asked.
#[derive(Drop)]
pub(crate) struct Listing<'a> {
    pub(crate) runs: Runs<'a>,
    pub(crate) questions: SolverQuestions<'a>,
    pub(crate) tried: Vec<Tried>,
    pub(crate) found: Vec<Found>,
}

impl<'a> Listing<'a> {
    // Nothing was tried, and at most so many clauses are logged.
    fn new(alloc: Global, task: &'a Task, budget: u32) -> Result<Listing<'a>, NoMemory>
        ensures listing { IfOk result IsListing }
        ensures task { IfOk result (λ l. l.runs.task.now ≡ task.now) }
        ensures budget { IfOk result (λ l. l.questions.budget ≡ budget) }
        ensures found { IfOk result (λ l. l.found.items ≡ []) }
        ensures asked { IfOk result (λ l. l.questions.sessions ≡ []) }
    {
        Ok(Listing {
            runs: Runs { alloc, task },
            questions: SolverQuestions::new(alloc, task, budget)?,
            tried: Vec::new(alloc),
            found: Vec::new(alloc),
        })
    }

    // Whether a program was found before, lines aside.
    fn has(&self, program: &Prog) -> bool
        ensures { MatchBool result
            (Any (λ f. AreSame (routines_of f.program) (routines_of program.now))
            self.now.found.items)
            (All (λ f. AreSame (routines_of f.program) (routines_of program.now) → ⊥)
            self.now.found.items) }
    {
        for found in &self.found {
            if same(&found.program, program) {
                return true;
            }
        }
        false
    }

    // Whether a program gives the values of the reference on the inputs that were tried.
    fn passes(&self, program: &Prog) -> Result<bool, NoMemory>
        requires { IsListing self.now }
        ensures { IfOk result (λ b. IsTrue b ↔ All (λ e. Meets (task_of self.now)
            (routines_of program.now) e.case) self.now.tried.items) }
    {
        for tried in &self.tried {
            if !self.runs.meets(program, &tried.case, &tried.end)? {
                return Ok(false);
            }
        }
        Ok(true)
    }

    // Keeps an input on which a selection failed.
    fn keep(&mut self, case: Case) -> Result<(), NoMemory>
        requires listing { IsListing self.old }
        requires input { Contains (wanted_inputs (task_of self.old)) case }
        ensures listing { OnOk result (IsListing self.new) }
        ensures runs { self.new.runs ≡ self.old.runs }
        ensures questions { self.new.questions ≡ self.old.questions }
        ensures found { self.new.found ≡ self.old.found }
    {
        let end = self.runs.reference(&case)?;
        self.tried.push(Tried { case, end })?;
        Ok(())
    }

    // Keeps inputs spread over the space, so that few selections that fail need a question. Their
    // distance is odd: in an even one their last value would often be the same.
    fn spread(&mut self) -> Result<(), NoMemory>
        requires listing { IsListing self.old }
        ensures listing { OnOk result (IsListing self.new) }
        ensures runs { OnOk result (self.new.runs ≡ self.old.runs) }
        ensures questions { OnOk result (self.new.questions ≡ self.old.questions) }
        ensures found { OnOk result (self.new.found ≡ self.old.found) }
    {
        let runs = self.runs;
        let bounds = runs.task.bounds();
        let count = inputs_count(bounds);
        if count >= MOST_COUNTED {
            return Ok(());
        }
        let step = 2 * (count / (2 * SPREAD)) + 1;
        let mut place = 0;
        while place < count {
            let case = case_at(runs.alloc, bounds, place)?;
            if runs.reference(&case)?.is_done() {
                self.keep(case)?;
            }
            place += step;
        }
        Ok(())
    }

    // Asks whether a selection agrees on all inputs.
    fn ask(&mut self, selection: &Selection) -> Result<Verdict, NoMemory>
        requires listing { IsListing self.old }
        requires fits { Fits (tree_of (task_of self.old)) selection.now }
        ensures listing { OnOk result (IsListing self.new) }
        ensures topic { OnOk result (SameTopic self.old self.new) }
        ensures found { OnOk result (self.new.found ≡ self.old.found) }
        ensures verdict { IfOk result (IsVerdict (task_of self.old) selection.now
            self.new.questions) }
        ensures asked { OnOk result (AsksMore selection.now self.old.questions.sessions
            self.new.questions.sessions) }
    {
        match self.questions.refute(selection) {
            Asked::Found(case) => {
                self.keep(case)?;
                Ok(Verdict::Fails)
            }
            Asked::Nothing => Ok(Verdict::Agrees),
            Asked::Spent => Ok(Verdict::Spent),
            Asked::NoMemory => Err(AllocError),
        }
    }

    // Whether a selection agrees, which is asked only where it does on the inputs that were tried.
    fn judge(&mut self, selection: &Selection, program: &Prog) -> Result<Verdict, NoMemory>
        requires listing { IsListing self.old }
        requires fits { Fits (tree_of (task_of self.old)) selection.now }
        requires made { Makes (task_of self.old) selection.now (routines_of program.now) }
        ensures listing { OnOk result (IsListing self.new) }
        ensures topic { OnOk result (SameTopic self.old self.new) }
        ensures found { OnOk result (self.new.found ≡ self.old.found) }
        ensures verdict { IfOk result (IsVerdict (task_of self.old) selection.now
            self.new.questions) }
        ensures asked { OnOk result (AsksMore selection.now self.old.questions.sessions
            self.new.questions.sessions) }
    {
        if self.passes(program)? {
            self.ask(selection)
        } else {
            Ok(Verdict::Fails)
        }
    }

    // Tries the next selection; whether there was budget enough.
    fn add(&mut self, selection: &Selection) -> Result<bool, NoMemory>
        requires listing { IsListing self.old }
        requires fits { Fits (tree_of (task_of self.old)) selection.now }
        ensures listing { OnOk result (IsListing self.new) }
        ensures topic { OnOk result (SameTopic self.old self.new) }
        ensures best { IfOk result (λ b. OnTrue b ((done : List (List Choice))
            → HasBest (task_of self.old) done self.old.found.items
            → HasBest (task_of self.old) (done ++ selection.now ∷ []) self.new.found.items)) }
        ensures spent { IfOk result (λ b. OnFalse b
            (logged self.new.questions.sessions ≡ self.new.questions.budget)) }
        ensures asked { OnOk result (AsksMore selection.now self.old.questions.sessions
            self.new.questions.sessions) }
    {
        selections_make_programs();
        let program = plain(self.runs.alloc, self.runs.task.tree(), selection)?;
        if self.has(&program) {
            return Ok(true);
        }
        match self.judge(selection, &program)? {
            Verdict::Agrees => {
                let selection = selection.copy()?;
                self.found.push(Found { selection, program })?;
                Ok(true)
            }
            Verdict::Fails => Ok(true),
            Verdict::Spent => Ok(false),
        }
    }

    // The first selections that were found.
    fn first(&self, most: u32) -> Result<Selections, NoMemory>
        ensures { IfOk result (λ s. s ≡ take most (selections_in self.now.found.items)) }
    {
        let count = self.found.len().min(most as usize);
        let first = &self.found.as_slice()[..count];
        let mut picks = Selections::new(self.runs.alloc);
        for found in first {
            picks.push(found.selection.copy()?)?;
        }
        Ok(picks)
    }

    // The first programs that were found, and whether these are all.
    fn listed(&self, most: u32, whole: bool) -> Result<Best, NoMemory>
        ensures { IfOk result (λ b. b
            ≡ best.Listed (take most (selections_in self.now.found.items)) whole) }
    {
        let picks = self.first(most)?;
        Ok(Best::Listed { picks, whole })
    }

    // The sessions, where the budget is spent.
    fn into_sessions(self) -> Sessions
        requires listing { IsListing self }
        requires spent { logged self.questions.sessions ≡ self.questions.budget }
        ensures { (ss : List (List Choice)) → HasAsked ss self.entry.questions.sessions
            → IsSpent (task_of self.entry) ss self.entry.questions.budget result }
    {
        let _sessions = self.questions.sessions();
        self.questions.into_told().sessions
    }
}

/// Tries selections in order, until one program more than so many was found.
pub(crate) fn list(
    alloc: Global,
    task: &Task,
    selections: &[Selection],
    most: u32,
    budget: u32,
) -> Result<Best, NoMemory>
    requires fits { All (Fits (tree_of (task_with task.now))) selections.now }
    requires different { AllPairs (λ r s. r ≢ s) selections.now }
    ensures { IfOk result (IsAnswer (task_with task.now) selections.now most budget) }
{
    agreement_is_decided();
    selections_make_programs();
    let _tree = task.tree();
    let mut listing = Listing::new(alloc, task, budget)?;
    listing.spread()?;
    for selection in selections {
        if !listing.add(selection)? {
            let sessions = listing.into_sessions();
            return Ok(Best::Spent { sessions });
        }
        if listing.found.len() > most as usize {
            return listing.listed(most, false);
        }
    }
    listing.listed(most, true)
}
