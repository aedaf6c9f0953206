//! Writing certificates.
ghost use Rattle.std.specs.Prelude.{◌≡◌, ◌++◌, IfOk, OnOk, map};
ghost use Rattle.cert_text.specs.Certificates.{IsCertOf, WritesCases, cert_with, front_lines};
ghost use Rattle.cert_text.specs.Certificates.{session_lines, sessions_lines};
ghost use Rattle.cert_text.specs.Limits.{KeepsForm};
ghost use Rattle.step_lines.specs.LineForms.{step_line};
ghost use Rattle.step_lines.specs.Lines.{ended};
ghost use Rattle.cert_text.specs.LineForms.{clause_line};

use crate::NoMemory;
use crate::cases::write_case;
use crate::cert::{Cert, CertParts, Claim};
use crate::claims::{write_claim, write_selection};
use crate::clauses::{write_clause, write_vars};
use crate::queries::write_query;
use choice_tree::Selection;
use clause_base::formula::Clauses;
use clause_base::log::Steps;
use input_space::{Case, Session};
use std::alloc::Global;
use step_lines::steps::write_step;

fn write_clauses(out: &mut Vec<u8>, clauses: &Clauses) -> Result<(), NoMemory>
    ensures { OnOk result
        (out.new.items ≡ out.old.items ++ ended (map clause_line clauses.now)) }
{
    for i in 0..clauses.len() {
        write_clause(out, clauses.at(i))?;
    }
    Ok(())
}

fn write_steps(out: &mut Vec<u8>, steps: &Steps) -> Result<(), NoMemory>
    ensures { OnOk result (out.new.items ≡ out.old.items ++ ended (map step_line steps.now)) }
{
    for i in 0..steps.len() {
        write_step(out, steps.at(i))?;
    }
    Ok(())
}

fn write_session(out: &mut Vec<u8>, s: &Session) -> Result<(), NoMemory>
    ensures { OnOk result (out.new.items ≡ out.old.items ++ ended (session_lines s.now)) }
{
    write_query(out, &s.query)?;
    write_vars(out, s.formula.vars)?;
    write_clauses(out, &s.formula.clauses)?;
    write_steps(out, &s.log.steps)
}

fn write_sessions(out: &mut Vec<u8>, sessions: &[Session]) -> Result<(), NoMemory>
    ensures { OnOk result (out.new.items ≡ out.old.items ++ ended (sessions_lines sessions.now)) }
{
    for s in sessions {
        write_session(out, s)?;
    }
    Ok(())
}

fn write_cases(alloc: Global, out: &mut Vec<u8>, cases: &[Case]) -> Result<(), NoMemory>
    ensures { OnOk result (WritesCases out.old.items out.new.items cases.now) }
{
    for case in cases {
        write_case(alloc, out, case)?;
    }
    Ok(())
}

// The lines before the cases.
fn write_front(out: &mut Vec<u8>, claim: Claim, selection: &Selection) -> Result<(), NoMemory>
    ensures { OnOk result
        (out.new.items ≡ out.old.items ++ ended (front_lines claim selection.now)) }
{
    out.extend_from_slice(b"mpycert 1\n")?;
    write_claim(out, claim)?;
    match claim {
        Claim::Cost(_) => write_selection(out, selection.items()),
        Claim::Nothing | Claim::Spent(_) => Ok(()),
    }
}

/// The text of a certificate by its parts, where it keeps the limits and the order of the form.
pub fn write_parts(alloc: Global, p: &CertParts<'_>) -> Result<Vec<u8>, NoMemory>
    requires { KeepsForm (cert_with p.now.claim p.now.selection.now p.now.cases.now
        (p.now.sessions.now ++ p.now.more.now)) }
    ensures { IfOk result (λ text. IsCertOf text.items (cert_with p.now.claim
        p.now.selection.now p.now.cases.now (p.now.sessions.now ++ p.now.more.now))) }
{
    let mut out = Vec::new(alloc);
    write_front(&mut out, p.claim, p.selection)?;
    write_cases(alloc, &mut out, p.cases.items())?;
    write_sessions(&mut out, p.sessions)?;
    write_sessions(&mut out, p.more)?;
    out.extend_from_slice(b"end\n")?;
    Ok(out)
}

/// The text of a certificate that keeps the limits and the order of the form.
pub fn write_cert(alloc: Global, c: &Cert) -> Result<Vec<u8>, NoMemory>
    requires { KeepsForm c.now }
    ensures { IfOk result (λ text. IsCertOf text.items c.now) }
{
    let text = write_parts(
        alloc,
        &CertParts {
            claim: c.claim,
            selection: &c.selection,
            cases: &c.cases,
            sessions: c.sessions.items(),
            more: &[],
        },
    )?;
    Ok(text)
}
