//! What `unsat` answers to the texts of a formula and of a proof.
ghost use Rattle.std.specs.Prelude.{◌≡◌, ◌≤◌, ℕ, List, [], ◌∷◌, suc, IfOk, None, length};
ghost use Rattle.dimacs_text.specs.Tidy.{IsCnfOf};
ghost use Rattle.file_commands.specs.Reports.{IsReport, bytes_of};
ghost use Rattle.formula_commands.specs.Commands.{unsat_command};
ghost use Rattle.formula_commands.specs.Decisions.{IsProofFor};
ghost use Rattle.formula_commands.specs.Requests.{unsat_of};
ghost use Rattle.formula_commands.specs.Texts.{bad_step_text};
ghost use Rattle.formula_commands.specs.Words.{UnsatWords as AnyUnsat};
ghost use Rattle.step_lines.specs.Limits.{KeepsSteps};

use crate::NoMemory;
use crate::words::UnsatWords;
use crate::writing::{no_form, verdict};
use clause_base::formula::Formula;
use clause_base::log::Log;
use derivation_check::soundness::what_follows_holds;
use dimacs_text::{CnfError, kept_is_true, read_cnf, read_proof};
use file_commands::Report;
use grade_io::Status;
use log_check::first_bad;
use std::alloc::{AllocError, Global};

/// The report that a step doesn't follow.
fn bad_step(alloc: Global, step: u32) -> Result<Report, NoMemory>
    ensures text { IfOk result (λ r. r.text.items ≡ bad_step_text step) }
    ensures status { IfOk result (λ r. r.status ≡ Status.Rejected) }
    ensures kept { IfOk result (λ r. bytes_of r ≡ None) }
{
    let text = format!(in alloc; "rejected BadStep step {step}\n")?;
    Ok(Report {
        status: Status::Rejected,
        text: text.into_bytes(),
        kept: None,
    })
}

/// The report of what a proof shows. Whether its last clause is empty is asked first.
fn judged(alloc: Global, formula: Formula, log: &Log) -> Result<Report, NoMemory>
    requires { KeepsSteps formula.vars (suc (length formula.clauses)) log.now.steps }
    ensures { IfOk result (λ r. (w : AnyUnsat) (cnf proof : List ℕ)
        → IsProofFor cnf proof formula log.now.steps
        → IsReport (unsat_command w) (cnf ∷ proof ∷ []) r) }
{
    kept_is_true();
    what_follows_holds();
    if !log.refutes() {
        return verdict(alloc, Status::Rejected, "rejected WrongClaim\n");
    }
    match first_bad(alloc, formula, log)? {
        Some(step) => bad_step(alloc, step),
        None => verdict(alloc, Status::Correct, "unsatisfiable\n"),
    }
}

/// The report of a proof for a formula.
fn report_proof(
    alloc: Global,
    words: &UnsatWords<'_>,
    formula: Formula,
    proof: &[u8],
) -> Result<Report, NoMemory>
    requires { length proof.now ≤ 1073741824 }
    ensures { IfOk result (λ r. (cnf : List ℕ) → IsCnfOf cnf formula
        → IsReport (unsat_command (unsat_of words.now)) (cnf ∷ proof.now ∷ []) r) }
{
    match read_proof(alloc, proof, formula.clauses.count(), formula.vars) {
        Ok(log) => judged(alloc, formula, &log),
        Err(CnfError::Line(line)) => no_form(alloc, words.log, line, "Proof"),
        Err(CnfError::NoMemory) => Err(AllocError),
    }
}

/// What is written of the texts of a formula and of a proof.
pub(crate) fn report_text(
    alloc: Global,
    words: &UnsatWords<'_>,
    cnf: &[u8],
    proof: &[u8],
) -> Result<Report, NoMemory>
    requires formula { length cnf.now ≤ 1073741824 }
    requires proof { length proof.now ≤ 1073741824 }
    ensures { IfOk result
        (IsReport (unsat_command (unsat_of words.now)) (cnf.now ∷ proof.now ∷ [])) }
{
    match read_cnf(alloc, cnf) {
        Ok(formula) => report_proof(alloc, words, formula, proof),
        Err(CnfError::Line(line)) => no_form(alloc, words.cnf, line, "Cnf"),
        Err(CnfError::NoMemory) => Err(AllocError),
    }
}
