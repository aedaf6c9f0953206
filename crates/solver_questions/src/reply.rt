//! What a solver says of a question.

ghost use Rattle.std.specs.Prelude.{◌≤◌, IfOk, length};
ghost use Rattle.input_space.specs.Sessions.{cases_of};
ghost use Rattle.input_space.specs.TaskParts.{task_with};
ghost use Rattle.query_build.specs.Asking.{AreWanted};
ghost use Rattle.solver_questions.specs.Replies.{IsSessionOf, Shows};

use crate::NoMemory;
use clause_base::solved::Solved;
use clause_base::truths::Truths;
use derivation_check::soundness::what_follows_holds;
use input_space::{Cases, Query, Session, Task};
use query_build::formula;
use sat_core::solve;
use std::alloc::{AllocError, Global};

/// What a solver found out about a question.
#[derive(Drop)]
pub enum Finding {
    /// These values of the formula's variables spell what is asked for.
    Values(Truths),
    /// There is nothing.
    Nothing,
    /// As many clauses were logged as was allowed.
    Spent,
}

/// What was found, and the session.
#[derive(Drop)]
pub struct Reply {
    pub finding: Finding,
    pub session: Session,
}

/// Asks a solver a question, where these cases are kept and at most so many clauses may be logged.
pub fn ask_solver(
    alloc: Global,
    task: &Task,
    kept: &Cases,
    query: Query,
    budget: u32,
) -> Result<Reply, NoMemory>
    requires wanted { AreWanted (task_with task.now) kept.now }
    requires cases { cases_of query ≤ length kept.now }
    ensures session { IfOk result (λ r. IsSessionOf (task_with task.now) kept.now query budget
        r.session) }
    ensures finding { IfOk result (λ r. Shows (task_with task.now) kept.now query budget
        r.session.log.steps r.finding) }
{
    what_follows_holds();
    let formula = formula(alloc, task, kept, &query)?;
    match solve(alloc, &formula, budget) {
        Solved::Holds(values, log) => Ok(Reply {
            finding: Finding::Values(values),
            session: Session {
                query,
                formula,
                log,
            },
        }),
        Solved::Refuted(log) => Ok(Reply {
            finding: Finding::Nothing,
            session: Session {
                query,
                formula,
                log,
            },
        }),
        Solved::Spent(log) => Ok(Reply {
            finding: Finding::Spent,
            session: Session {
                query,
                formula,
                log,
            },
        }),
        Solved::NoMemory => Err(AllocError),
    }
}
