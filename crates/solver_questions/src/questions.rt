//! Questions about a task, answered by a solver.

ghost use Rattle.std.specs.List.{Contains};
ghost use Rattle.std.specs.Prelude.{◌≡◌, ◌≤◌, ◌+◌, ◌++◌, [], All, IfOk, List, OnErr, OnOk, length};
ghost use Rattle.cegis_loop.specs.Asking.{IfFound, OnNothing, found, IsAsked};
ghost use Rattle.cegis_loop.specs.Space.{IsFail, IsLow};
ghost use Rattle.cegis_loop.specs.State.{Fail, Low};
ghost use Rattle.choice_tree.specs.declared.selection.Choice.{Choice};
ghost use Rattle.input_space.specs.declared.case.Case.{Case};
ghost use Rattle.input_space.specs.Sessions.{IsBacked, IsHonest, logged, question_of};
ghost use Rattle.input_space.specs.TaskCoding.{coding};
ghost use Rattle.input_space.specs.TaskSpace.{wanted_inputs};
ghost use Rattle.solver_questions.specs.Asking.{HasNoEmptyStep, IsNumbered, and_case};
ghost use Rattle.solver_questions.specs.Asking.{and_session, seen_in, space_of, task_of};
ghost use Rattle.solver_questions.specs.Asking.{topic_of};
ghost use Rattle.solver_questions.specs.Replies.{AsksForInput, IsInputFor, IsSessionOf, asked_of};

use crate::NoMemory;
use crate::reply::{Finding, Reply, ask_solver};
use cegis_loop::{Asked, Questions};
use choice_tree::{Selection, cost, most_cost};
use coding_laws::{agreement_is_decided, alphabets_are_printable, codings_are_full};
use input_space::{Case, Cases, Query, Session, Sessions, Task};
use query_build::{decode_case, decode_selection};
use selection_programs::selections_make_programs;
use std::alloc::Global;
use std::marker::Model;

/// The questions of a search for the cheapest selection of a task that agrees with its reference,
/// answered by a solver over formulas. Each question that is answered is told by its session.
#[derive(Drop)]
pub struct SolverQuestions<'a> {
    alloc: Global,
    task: &'a Task,
    budget: u32,
    // How many clauses the logs of the sessions have.
    logged: u32,
    kept: Cases,
    sessions: Sessions,
}

/// The inputs that were kept and the questions that were answered, in order.
#[derive(Drop)]
pub struct Told {
    pub kept: Cases,
    pub sessions: Sessions,
}

impl<'a> Model for SolverQuestions<'a> {
    ghost use Rattle.std.specs.Coded.{codes};
    ghost use Rattle.input_space.specs.contracts.task.TaskParts as parts;
    ghost use Rattle.solver_questions.specs.Asking.{Asking, IsCounted};

    ghost Value = { Asking };

    ghost coded = { Prim.hlevel (codes, parts.the_row.coded) };

    ghost view = { λ q. record {
      parts = q.task.now;
      budget = q.budget;
      kept = q.kept;
      sessions = q.sessions;
    } };

    ghost invariant = { λ q. IsCounted q.logged (record {
      parts = q.task.now;
      budget = q.budget;
      kept = q.kept;
      sessions = q.sessions;
    }) };
}

impl<'a> SolverQuestions<'a> {
    /// The questions about a task, of which none was asked. At most so many clauses are logged.
    pub fn new(alloc: Global, t: &'a Task, budget: u32) -> Result<SolverQuestions<'a>, NoMemory>
        ensures { IfOk result (λ q. q ≡ record {
          parts = t.now;
          budget = budget;
          kept = [];
          sessions = [];
        }) }
    {
        Ok(SolverQuestions {
            alloc,
            task: t,
            budget,
            logged: 0,
            kept: Cases::from_vec(Vec::new(alloc)),
            sessions: Sessions::new(alloc),
        })
    }

    /// The inputs that are kept, in order.
    pub fn kept(&self) -> &Cases
        ensures { result.now ≡ self.now.kept }
    {
        &self.kept
    }

    /// The questions that were answered, in order, each with its formula and its log.
    pub fn sessions(&self) -> &Sessions
        ensures all { result.now ≡ self.now.sessions }
        ensures backed { All (IsBacked (space_of (topic_of self.now)) (coding (task_of self.now))
            self.now.kept) self.now.sessions }
        ensures honest { All (IsHonest (coding (task_of self.now))) self.now.sessions }
        ensures unrefuted { All HasNoEmptyStep self.now.sessions }
        ensures numbered { All IsNumbered self.now.sessions }
        ensures budget { logged self.now.sessions ≤ self.now.budget }
    {
        &self.sessions
    }

    /// The kept inputs and the sessions, which no longer grow.
    pub fn into_told(self) -> Told
        ensures kept { result.kept ≡ self.entry.kept }
        ensures sessions { result.sessions ≡ self.entry.sessions }
    {
        Told {
            kept: self.kept,
            sessions: self.sessions,
        }
    }

    // How many clauses may still be logged.
    fn rest(&self) -> u32
        ensures { result + logged self.now.sessions ≡ self.now.budget }
    {
        self.budget - self.logged
    }

    // Keeps a session. Where memory lacks all is as before.
    fn tell(&mut self, session: Session) -> Result<(), NoMemory>
        requires within { logged self.old.sessions + length session.log.steps ≤ self.old.budget }
        requires session { IsSessionOf (task_of self.old) self.old.kept session.query
            (length session.log.steps) session }
        ensures told { OnOk result (self.new ≡ and_session self.old session) }
        ensures as_before { OnErr result (self.new ≡ self.old) }
    {
        let more = steps_in(&session);
        self.sessions.push(session)?;
        self.logged += more;
        Ok(())
    }

    // Keeps a case and a session. Where memory lacks all is as before.
    fn keep(&mut self, case: Case, session: Session) -> Result<(), NoMemory>
        requires within { logged self.old.sessions + length session.log.steps ≤ self.old.budget }
        requires wanted { Contains (wanted_inputs (task_of self.old)) case }
        requires session { IsSessionOf (task_of self.old) self.old.kept session.query
            (length session.log.steps) session }
        ensures kept { OnOk result (self.new ≡ and_case self.old case session) }
        ensures as_before { OnErr result (self.new ≡ self.old) }
    {
        let more = steps_in(&session);
        self.kept.push(case)?;
        if let Err(error) = self.sessions.push(session) {
            self.kept.pop();
            return Err(error);
        }
        self.logged += more;
        Ok(())
    }

    // Asks for an input, which is kept.
    fn ask_input(&mut self, query: Query) -> Result<Asked<Case>, NoMemory>
        requires { AsksForInput query }
        ensures same { topic_of self.new ≡ topic_of self.old }
        ensures found { IfFound (asked_of result)
            (IsInputFor (space_of (topic_of self.old)) query) }
        ensures nothing { OnNothing (asked_of result)
            ((x : Case) → IsInputFor (space_of (topic_of self.old)) query x → ⊥) }
        ensures kept { self.new.kept ≡ self.old.kept ++ found (asked_of result) }
        ensures asked { IsAsked (space_of (topic_of self.old)) (question_of query)
            (asked_of result) (seen_in self.old) (seen_in self.new) }
    {
        codings_are_full();
        alphabets_are_printable(self.task.bounds());
        let Reply { finding, session } = ask_solver(
            self.alloc,
            self.task,
            &self.kept,
            query,
            self.rest(),
        )?;
        match finding {
            Finding::Values(values) => {
                let case = decode_case(self.alloc, self.task, &values)?;
                self.keep(case.copy()?, session)?;
                Ok(Asked::Found(case))
            }
            Finding::Nothing => {
                self.tell(session)?;
                Ok(Asked::Nothing)
            }
            Finding::Spent => {
                self.tell(session)?;
                Ok(Asked::Spent)
            }
        }
    }

    // Asks for an input on which a selection fails.
    fn ask_failure(&mut self, c: &Selection) -> Result<Asked<Case>, NoMemory>
        ensures same { topic_of self.new ≡ topic_of self.old }
        ensures found { IfFound (asked_of result) (IsFail (space_of (topic_of self.old)) c.now) }
        ensures nothing { OnNothing (asked_of result)
            ((x : Case) → IsFail (space_of (topic_of self.old)) c.now x → ⊥) }
        ensures kept { self.new.kept ≡ self.old.kept ++ found (asked_of result) }
        ensures asked { IsAsked (space_of (topic_of self.old)) (Fail c.now) (asked_of result)
            (seen_in self.old) (seen_in self.new) }
    {
        let _ = &self.alloc;
        let selection = c.copy()?;
        let found = self.ask_input(Query::Fail(selection))?;
        Ok(found)
    }

    // Asks for a selection of a cost of at most `most`, where that is given, that agrees on the
    // kept cases.
    fn ask_selection(&mut self, most: Option<u32>) -> Result<Asked<Selection>, NoMemory>
        ensures same { topic_of self.new ≡ topic_of self.old }
        ensures found { IfFound (asked_of result)
            (IsLow (space_of (topic_of self.old)) most self.old.kept) }
        ensures nothing { OnNothing (asked_of result) ((c : List Choice)
            → IsLow (space_of (topic_of self.old)) most self.old.kept c → ⊥) }
        ensures kept { self.new.kept ≡ self.old.kept }
        ensures asked { IsAsked (space_of (topic_of self.old))
            (Low most (length self.old.kept)) (asked_of result) (seen_in self.old)
            (seen_in self.new) }
    {
        codings_are_full();
        alphabets_are_printable(self.task.bounds());
        let cases = self.kept.count();
        let Reply { finding, session } = ask_solver(
            self.alloc,
            self.task,
            &self.kept,
            Query::Low { most, cases },
            self.rest(),
        )?;
        match finding {
            Finding::Values(values) => {
                let selection = decode_selection(self.alloc, self.task, &values)?;
                self.tell(session)?;
                Ok(Asked::Found(selection))
            }
            Finding::Nothing => {
                self.tell(session)?;
                Ok(Asked::Nothing)
            }
            Finding::Spent => {
                self.tell(session)?;
                Ok(Asked::Spent)
            }
        }
    }
}

// How many clauses the log of a session has.
fn steps_in(session: &Session) -> u32
    ensures { result ≡ length session.now.log.steps }
{
    session.log.steps.count()
}

// What is answered: an error is want of memory.
fn answered<T: Drop>(found: Result<Asked<T>, NoMemory>) -> Asked<T>
    ensures { result ≡ asked_of found }
{
    match found {
        Ok(asked) => asked,
        Err(_) => Asked::NoMemory,
    }
}

impl Questions for SolverQuestions<'_> {
    type Choice = Selection;

    type Input = Case;

    ghost use Rattle.solver_questions.specs.Asking.{Topic as About, seen_in, space_of, topic_of};

    ghost Topic = { About };

    ghost topic = { topic_of };

    ghost space = { space_of };

    ghost seen = { seen_in };

    fn first(&mut self) -> Asked<Case> {
        let found = self.ask_input(Query::First);
        answered(found)
    }

    fn propose(&mut self, most: Option<u32>) -> Asked<Selection> {
        let found = self.ask_selection(most);
        answered(found)
    }

    fn refute(&mut self, c: &Selection) -> Asked<Case> {
        agreement_is_decided();
        selections_make_programs();
        let _tree = self.task.tree();
        let found = self.ask_failure(c);
        answered(found)
    }

    fn most_cost(&self) -> u32 {
        self.task.is_sound();
        most_cost(self.task.tree())
    }

    fn cost_of(&self, c: &Selection) -> u32 {
        self.task.is_sound();
        cost(self.task.tree(), c)
    }
}
