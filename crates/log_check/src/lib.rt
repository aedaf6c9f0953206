//! Checks a whole log: which of its steps is the first that doesn't follow.
#![tactic(auto)]

ghost use Rattle.std.specs.Prelude.{◌≡◌, ◌≤◌, ◌+◌, suc, IfOk, MatchOption, length};
ghost use Rattle.clause_base.specs.Logs.{LogFollows};
ghost use Rattle.log_check.specs.BadSteps.{IsBadPlace};
ghost use Rattle.step_lines.specs.Limits.{KeepsSteps};

use clause_base::answer::StepAnswer;
use clause_base::formula::Formula;
use clause_base::laws::one_step_more;
use clause_base::log::Log;
use derivation_check::checker::Checker;
use std::alloc::{AllocError, Global};

/// Want of memory, where a call has no other refusal.
pub type NoMemory = AllocError;

/// The place, counted from 1, of the first step that doesn't follow from the formula and the steps
/// before it. The formula's list of clauses grows by those of the steps, so none of its clauses is
/// copied.
pub fn first_bad(alloc: Global, formula: Formula, log: &Log) -> Result<Option<u32>, NoMemory>
    requires { KeepsSteps formula.vars (suc (length formula.clauses)) log.now.steps }
    ensures { IfOk result (λ o. MatchOption o
        (LogFollows formula.vars formula.clauses log.now.steps)
        (IsBadPlace formula log.now.steps)) }
{
    one_step_more();
    let mut checker = Checker::new(alloc, formula.vars)?;
    let mut known = formula.clauses;
    for i in 0..log.steps.count() {
        let step = log.steps.at(i as usize);
        match checker.step(&known, &step.clause, &step.hints) {
            StepAnswer::Good => {}
            StepAnswer::NotUnit(_) | StepAnswer::NoEnd => return Ok(Some(i + 1)),
        }
        known.push(step.clause.copy()?)?;
    }
    Ok(None)
}
