//! The search for the answer to a task.
ghost use Rattle.std.specs.Prelude.{IfOk};
ghost use Rattle.input_space.specs.TaskParts.{task_with};
ghost use Rattle.grade_core.specs.Runs.{Certifies, HasRun, IsClaimOf, IsFoundBy, IsRight, IsRun};
ghost use Rattle.grade_core.specs.Runs.{KeepsCases, MayBeCertified, StandsForFound};

use crate::NoMemory;
use crate::failing::first_failure;
use cegis_loop::Least;
use cert_text::Claim;
use certificate_laws::least_choices_are_best;
use choice_tree::Selection;
use feedback_text::Answer;
use input_space::{Cases, Sessions, Task};
use search_certificates::{Search, certificate as write_certificate};
use std::alloc::{AllocError, Global};
use task_runs::Runs;
use task_search::search;

/// The answer to a task, the inputs that were kept to find it, and the questions that were asked,
/// each with its formula and its log.
#[derive(Drop)]
pub struct Run {
    pub answer: Answer,
    pub kept: Cases,
    pub sessions: Sessions,
}

/// Searches for the answer to a task: the cheapest selection of its tree that agrees with the
/// reference on all inputs on which that ends. At most so many clauses are logged.
pub fn answer(alloc: Global, t: &Task, budget: u32) -> Run
    ensures right { IsRight (task_with t.now) result.kept result.answer }
    ensures kept { KeepsCases (task_with t.now) result.kept result.answer }
    ensures run { IsRun (task_with t.now) budget result.answer result.kept result.sessions }
{
    match find(alloc, t, budget) {
        Ok(run) => run,
        Err(_) => Run {
            answer: Answer::NoMemory,
            kept: Cases::from_vec(Vec::new(alloc)),
            sessions: Sessions::new(alloc),
        },
    }
}

// The search, and its answer.
fn find(alloc: Global, t: &Task, budget: u32) -> Result<Run, NoMemory>
    ensures right { IfOk result (λ r. IsRight (task_with t.now) r.kept r.answer) }
    ensures kept { IfOk result (λ r. KeepsCases (task_with t.now) r.kept r.answer) }
    ensures run { IfOk result (λ r. IsRun (task_with t.now) budget r.answer r.kept r.sessions) }
{
    let Search {
        found,
        kept,
        sessions,
    } = search(alloc, t, budget)?;
    let runs = Runs { alloc, task: t };
    let answer = told(&runs, &kept, found, budget)?;
    Ok(Run {
        answer,
        kept,
        sessions,
    })
}

// What is told of what was found.
fn told(
    runs: &Runs<'_>,
    kept: &Cases,
    found: Least<Selection>,
    budget: u32,
) -> Result<Answer, NoMemory>
    requires { IsFoundBy (task_with runs.now.task.now) budget kept.now found }
    ensures right { IfOk result (IsRight (task_with runs.now.task.now) kept.now) }
    ensures kept { IfOk result (KeepsCases (task_with runs.now.task.now) kept.now) }
    ensures stands { IfOk result (λ a. StandsForFound budget a found) }
{
    runs.task.is_sound();
    least_choices_are_best();
    match found {
        Least::Found { cost: 0, .. } => Ok(Answer::Correct),
        Least::Found { choice, cost } => Ok(Answer::Corrected {
            selection: choice,
            cost,
            fails: first_failure(runs, kept)?,
        }),
        Least::Nothing => Ok(Answer::NoCorrection {
            fails: first_failure(runs, kept)?,
        }),
        Least::NoCase => Ok(Answer::EmptyReference),
        Least::Spent { at_least } => Ok(Answer::Spent { at_least, budget }),
        Least::NoMemory => Err(AllocError),
    }
}

// What is claimed of an answer.
fn claim_of(answer: &Answer) -> Claim
    requires { MayBeCertified answer.now }
    ensures { IsClaimOf answer.now result }
{
    match answer {
        Answer::Correct => Claim::Cost(0),
        Answer::Corrected { cost, .. } => Claim::Cost(*cost),
        Answer::NoCorrection { .. } => Claim::Nothing,
        Answer::Spent { budget, .. } => Claim::Spent(*budget),
        Answer::EmptyReference | Answer::NoMemory => unreachable!(),
    }
}

/// The text of the certificate of a run.
pub fn certificate(alloc: Global, t: &Task, r: &Run) -> Result<Vec<u8>, NoMemory>
    requires answer { MayBeCertified r.now.answer }
    requires run { HasRun (task_with t.now) r.now.answer r.now.kept r.now.sessions }
    ensures { IfOk result (λ text. Certifies (task_with t.now) r.now.answer r.now.kept
        r.now.sessions text.items) }
{
    let claim = claim_of(&r.answer);
    let text = write_certificate(alloc, t, claim, &r.kept, &r.sessions)?;
    Ok(text)
}
