//! The search for the cheapest correction, by solver.

ghost use Rattle.std.specs.Prelude.{IfOk};
ghost use Rattle.input_space.specs.TaskParts.{task_with};
ghost use Rattle.search_certificates.specs.Searches.{IsSearchOf};

use crate::NoMemory;
use crate::ruled::cases_ruled;
use cegis_loop::{Least, close_search, least};
use input_space::Task;
use search_certificates::Search;
use solver_questions::{SolverQuestions, Told};
use std::alloc::{AllocError, Global};

/// Searches for the cheapest selection of a task's tree that agrees with the reference on all
/// inputs on which that ends, with the closing question where that is needed. At most so many
/// clauses are logged.
pub fn search(alloc: Global, t: &Task, budget: u32) -> Result<Search, NoMemory>
    ensures { IfOk result (IsSearchOf (task_with t.now) budget) }
{
    let mut questions = SolverQuestions::new(alloc, t, budget)?;
    let first = least(&mut questions);
    let kept = questions.kept().items().len();
    let ruled = cases_ruled(questions.sessions().items());
    let found = close_search(&mut questions, first, kept, ruled);
    let _sessions = questions.sessions();
    let Told { kept, sessions } = questions.into_told();
    if let Least::NoMemory = found {
        return Err(AllocError);
    }
    Ok(Search {
        found,
        kept,
        sessions,
    })
}
