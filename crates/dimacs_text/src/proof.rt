//! Reading and writing proofs.
ghost use Rattle.std.specs.Prelude.{◌≡◌, ◌≤◌, ◌++◌, ℕ, List, Err, IfOk, OnOk, length, map, suc};
ghost use Rattle.clause_base.specs.declared.log.Step.{Step as AnyStep};
ghost use Rattle.step_lines.specs.LineForms.{step_line};
ghost use Rattle.step_lines.specs.Limits.{KeepsSteps};
ghost use Rattle.step_lines.specs.Lines.{ended};
ghost use Rattle.dimacs_text.specs.ProofTexts.{IsProofOf, ProofStopsAt, proof_lines};
ghost use Rattle.dimacs_text.specs.declared.error.CnfError.TheVariants as cnf_error;

use crate::NoMemory;
use crate::error::CnfError;
use clause_base::log::{Log, Steps};
use std::alloc::Global;
use step_lines::steps::{read_step, write_step};
use step_lines::words::next_line;

/// The log of whose form the text is, over the first `vars` variables and so many known clauses. A
/// line comes exactly where the text is of the form of none; it is the least line at which the form
/// can't go on, for a missing end the line after the last.
pub fn read_proof(alloc: Global, bytes: &[u8], known: u32, vars: u32) -> Result<Log, CnfError>
    requires { length bytes.now ≤ 1073741824 }
    ensures read { IfOk result (λ l. IsProofOf known vars bytes.now l.steps) }
    ensures line { (line : ℕ) → result ≡ Err (cnf_error.Line line) →
        (steps : List AnyStep) → IsProofOf known vars bytes.now steps → ⊥ }
    ensures place { (line : ℕ) → result ≡ Err (cnf_error.Line line) →
        ProofStopsAt known vars bytes.now line }
{
    let mut steps = Steps::new(alloc);
    let mut rest = bytes;
    let mut line = 1;
    'lines: loop {
        let Some(cut) = next_line(rest) else {
            return Err(CnfError::Line(line));
        };
        if cut.piece == b"end".as_slice() {
            if cut.rest.is_empty() {
                return Ok(Log { steps });
            }
            return Err(CnfError::Line(line + 1));
        }
        let own_number = known as usize + line as usize;
        let Some(step) = read_step(alloc, vars, own_number, cut.piece)? else {
            return Err(CnfError::Line(line));
        };
        steps.push(step)?;
        rest = cut.rest;
        line += 1;
    }
}

fn write_steps(out: &mut Vec<u8>, steps: &Steps) -> Result<(), NoMemory>
    ensures { OnOk result (out.new.items ≡ out.old.items ++ ended (map step_line steps.now)) }
{
    for i in 0..steps.len() {
        write_step(out, steps.at(i))?;
    }
    Ok(())
}

/// The text of a log. It is that of a proof over so many known clauses, where the log keeps the
/// limits of literals and of hints.
pub fn write_proof(alloc: Global, known: u32, log: &Log) -> Result<Vec<u8>, NoMemory>
    ensures text { IfOk result (λ text. text.items ≡ ended (proof_lines log.now.steps)) }
    ensures proof { IfOk result (λ text. (vars : ℕ) → KeepsSteps vars (suc known) log.now.steps
        → IsProofOf known vars text.items log.now.steps) }
{
    let mut out = Vec::new(alloc);
    write_steps(&mut out, &log.steps)?;
    out.extend_from_slice(b"end\n")?;
    Ok(out)
}
