//! What `sat` answers to the text of a formula.
ghost use Rattle.std.specs.Prelude.{◌≡◌, ◌≤◌, ℕ, List, [], ◌∷◌, IfOk, Some, length};
ghost use Rattle.dimacs_text.specs.Tidy.{IsCnfOf};
ghost use Rattle.file_commands.specs.Reports.{IsReport, bytes_of};
ghost use Rattle.formula_commands.specs.Commands.{sat_command};
ghost use Rattle.formula_commands.specs.Decisions.{proof_text};
ghost use Rattle.formula_commands.specs.Requests.{sat_of};
ghost use Rattle.formula_commands.specs.Words.{SatWords as AnySat};

use crate::NoMemory;
use crate::words::SatWords;
use crate::writing::{no_form, none_text, spent_text, values_text};
use clause_base::formula::Formula;
use clause_base::log::Log;
use clause_base::solved::Solved;
use derivation_check::soundness::what_follows_holds;
use dimacs_text::{CnfError, kept_is_true, read_cnf, write_proof};
use file_commands::Report;
use grade_io::Status;
use sat_core::solve;
use std::alloc::{AllocError, Global};

/// Where the solver refuted a formula, or derived as many clauses as it may: the text, its status,
/// and the proof that is kept.
fn with_proof(
    alloc: Global,
    formula: &Formula,
    log: &Log,
    status: Status,
    text: Vec<u8>,
) -> Result<Report, NoMemory>
    ensures text { IfOk result (λ r. r.text.items ≡ text.items) }
    ensures status { IfOk result (λ r. r.status ≡ status) }
    ensures kept { IfOk result (λ r. bytes_of r ≡ Some (proof_text log.now.steps)) }
{
    let proof = write_proof(alloc, formula.clauses.count(), log)?;
    Ok(Report {
        status,
        text,
        kept: Some(proof),
    })
}

/// The report of what the solver finds out about a formula.
fn solved(alloc: Global, formula: &Formula, budget: u32) -> Result<Report, NoMemory>
    ensures { IfOk result (λ r. (w : AnySat) (cnf : List ℕ) → w.budget ≡ budget
        → IsCnfOf cnf formula.now → IsReport (sat_command w) (cnf ∷ []) r) }
{
    kept_is_true();
    what_follows_holds();
    let _vars = formula.vars;
    let _clauses = formula.clauses.count();
    match solve(alloc, formula, budget) {
        Solved::Holds(values, _) => Ok(Report {
            status: Status::Correct,
            text: values_text(alloc, &values)?,
            kept: None,
        }),
        Solved::Refuted(log) => {
            let text = none_text(alloc)?;
            with_proof(alloc, formula, &log, Status::NoCorrection, text)
        }
        Solved::Spent(log) => {
            let text = spent_text(alloc, budget)?;
            with_proof(alloc, formula, &log, Status::Spent, text)
        }
        Solved::NoMemory => Err(AllocError),
    }
}

/// What is written and kept of the text of a formula.
pub(crate) fn report_text(
    alloc: Global,
    words: &SatWords<'_>,
    cnf: &[u8],
) -> Result<Report, NoMemory>
    requires { length cnf.now ≤ 1073741824 }
    ensures { IfOk result (IsReport (sat_command (sat_of words.now)) (cnf.now ∷ [])) }
{
    match read_cnf(alloc, cnf) {
        Ok(formula) => solved(alloc, &formula, words.budget),
        Err(CnfError::Line(line)) => no_form(alloc, words.cnf, line, "Cnf"),
        Err(CnfError::NoMemory) => Err(AllocError),
    }
}
