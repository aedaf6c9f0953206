//! What is written of a verdict.

ghost use Rattle.std.specs.Prelude.{◌≡◌, ◌++◌, IfOk, OnOk, codes};
ghost use Rattle.std.specs.Fmt.{decimal};
ghost use Rattle.mpy_tree.specs.Printing.{program_text};
ghost use Rattle.mpy_tree.specs.View.{routines_of};
ghost use Rattle.check_core.specs.Decisions.{IsLeftOpen, IsMore};
ghost use Rattle.check_core.specs.Reports.{KeepsLeft, KeepsMore, NamesCase};
ghost use Rattle.check_core.specs.Texts.{anew_line, verdict_status, verdict_text};

use crate::NoMemory;
use cert_text::{Cert, CertParts, Claim, case_line, write_parts};
use certificate_judge::{Shown, Verdict};
use choice_tree::Selection;
use clause_base::formula::Formula;
use clause_base::log::Log;
use grade_io::Status;
use input_space::Session;
use mpy_printer::print_prog;
use mpy_tree::Prog;
use std::alloc::{AllocError, Global};

/// How many clauses a question that is asked anew may log.
const BUDGET: u32 = 200_000;

/// Accepted or rejected.
pub(crate) fn verdict_status(verdict: &Verdict) -> Status
    ensures { result ≡ verdict_status verdict.now }
{
    match verdict {
        Verdict::Accepted { .. } | Verdict::AcceptedNone { .. } => Status::Correct,
        Verdict::WrongCase { .. }
        | Verdict::WrongCost
        | Verdict::WrongClaim
        | Verdict::OtherFormula { .. }
        | Verdict::BadStep { .. }
        | Verdict::NoMemory => Status::Rejected,
    }
}

// The line for how many questions were asked anew, if any were.
fn push_anew(alloc: Global, text: &mut Vec<u8>, anew: u32) -> Result<(), NoMemory>
    ensures { OnOk result (text.new.items ≡ text.old.items ++ anew_line anew) }
{
    if anew > 0 {
        let line = format!(in alloc; "asked anew {anew}\n")?;
        text.extend_from_slice(line.as_bytes())?;
    }
    Ok(())
}

// The lines of an accepted program.
fn accepted(alloc: Global, cost: u32, program: &Prog, anew: u32) -> Result<Vec<u8>, NoMemory>
    ensures { IfOk result (λ v. v.items ≡ codes "accepted cost " ++ decimal cost ++ codes "\n"
        ++ anew_line anew ++ codes "program\n" ++ program_text (routines_of program.now)) }
{
    let mut text = format!(in alloc; "accepted cost {cost}\n")?.into_bytes();
    push_anew(alloc, &mut text, anew)?;
    text.extend_from_slice(b"program\n")?;
    text.extend_from_slice(print_prog(alloc, program)?.as_slice())?;
    Ok(text)
}

// The lines for that no rewriting agrees.
fn accepted_none(alloc: Global, anew: u32) -> Result<Vec<u8>, NoMemory>
    ensures { IfOk result (λ v. v.items ≡ codes "accepted none\n" ++ anew_line anew) }
{
    let mut text = b"accepted none\n".to_vec(alloc)?;
    push_anew(alloc, &mut text, anew)?;
    Ok(text)
}

/// The lines of a verdict.
pub(crate) fn verdict_text(alloc: Global, c: &Cert, verdict: &Verdict) -> Result<Vec<u8>, NoMemory>
    requires { NamesCase c.now verdict.now }
    ensures { IfOk result (λ v. v.items ≡ verdict_text c.now verdict.now) }
{
    match verdict {
        Verdict::Accepted {
            cost,
            program,
            anew,
        } => accepted(alloc, *cost, program, *anew),
        Verdict::AcceptedNone { anew } => accepted_none(alloc, *anew),
        Verdict::WrongCase { case } => {
            let line = case_line(c, *case);
            let text = format!(in alloc; "rejected WrongCase line {line}\n")?;
            Ok(text.into_bytes())
        }
        Verdict::WrongCost => b"rejected WrongCost\n".to_vec(alloc),
        Verdict::WrongClaim => b"rejected WrongClaim\n".to_vec(alloc),
        Verdict::OtherFormula {
            session,
            clause,
            ..
        } => {
            let text = format!(in alloc;
                "rejected OtherFormula session {session} clause {clause}\n",
            )?;
            Ok(text.into_bytes())
        }
        Verdict::BadStep { session, step } => {
            let text = format!(in alloc; "rejected BadStep session {session} step {step}\n")?;
            Ok(text.into_bytes())
        }
        Verdict::NoMemory => Ok(Vec::new(alloc)),
    }
}

// The certificate of a question that was asked anew and left open.
fn left_open(
    alloc: Global,
    c: &Cert,
    session: u32,
    built: Formula,
    log: Log,
) -> Result<Vec<u8>, NoMemory>
    requires { KeepsLeft c.now session built log }
    ensures { IfOk result (λ v. IsLeftOpen c.now session built log v.items) }
{
    let asked = &c.sessions.items()[session as usize - 1];
    let query = asked.query.copy()?;
    let none = Selection::from_vec(Vec::new(alloc));
    let sessions = [Session {
        query,
        formula: built,
        log,
    }];
    let text = write_parts(
        alloc,
        &CertParts {
            claim: Claim::Spent(BUDGET),
            selection: &none,
            cases: &c.cases,
            sessions: &sessions,
            more: &[],
        },
    )?;
    Ok(text)
}

/// What is written behind the lines of a verdict.
pub(crate) fn behind(alloc: Global, c: &Cert, verdict: Verdict) -> Result<Vec<u8>, NoMemory>
    requires { KeepsMore c.now verdict }
    ensures { IfOk result (λ v. IsMore c.now verdict v.items) }
{
    match verdict {
        Verdict::OtherFormula {
            session,
            clause: _,
            built,
            shown,
        } => match shown {
            Shown::Values(_) => Ok(Vec::new(alloc)),
            Shown::Spent(log) => left_open(alloc, c, session, built, log),
        },
        Verdict::Accepted { .. }
        | Verdict::AcceptedNone { .. }
        | Verdict::WrongCase { .. }
        | Verdict::WrongCost
        | Verdict::WrongClaim
        | Verdict::BadStep { .. } => Ok(Vec::new(alloc)),
        Verdict::NoMemory => Err(AllocError),
    }
}
