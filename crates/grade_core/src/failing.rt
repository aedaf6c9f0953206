//! The kept case on which a submission fails.
ghost use Rattle.std.specs.Prelude.{IfOk, MatchOption, All};
ghost use Rattle.std.specs.List.{Contains};
ghost use Rattle.input_space.specs.TaskParts.{task_with};
ghost use Rattle.input_space.specs.TaskSpace.{Meets, wanted_inputs};
ghost use Rattle.feedback_text.specs.AnswerViews.{failure_of};
ghost use Rattle.grade_core.specs.Runs.{FailsSo, IsFirstFailure, SomeFails};

use crate::NoMemory;
use feedback_text::Failure;
use input_space::{Case, Cases};
use task_runs::Runs;

// The failure of the submission on a case, if it fails there.
fn failure_on(runs: &Runs<'_>, case: &Case) -> Result<Option<Failure>, NoMemory>
    ensures { IfOk result (λ o. MatchOption o
        (Meets (task_with runs.now.task.now) (task_with runs.now.task.now).submission case.now)
        (FailsSo (task_with runs.now.task.now) case.now)) }
{
    let wanted = runs.reference(case)?;
    if !wanted.is_done() {
        return Ok(None);
    }
    let gives = runs.submission(case)?;
    if gives.is(&wanted) {
        return Ok(None);
    }
    Ok(Some(Failure {
        case: case.copy()?,
        gives,
        wanted,
    }))
}

/// The first of the kept cases on which the submission fails, where it fails on some.
pub(crate) fn first_failure(runs: &Runs<'_>, kept: &Cases) -> Result<Failure, NoMemory>
    requires inputs { All (Contains (wanted_inputs (task_with runs.now.task.now))) kept.now }
    requires some { SomeFails (task_with runs.now.task.now) kept.now }
    ensures { IfOk result (λ f. IsFirstFailure (task_with runs.now.task.now) kept.now
        (failure_of f)) }
{
    for case in kept.items() {
        if let Some(failure) = failure_on(runs, case)? {
            return Ok(failure);
        }
    }
    unreachable!()
}
