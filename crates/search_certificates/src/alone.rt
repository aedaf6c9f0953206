//! The certificate of sessions alone.

ghost use Rattle.std.specs.Prelude.{◌≤◌, ◌+◌, [], All, IfOk, length};
ghost use Rattle.cert_text.specs.Certificates.{IsCertOf, cert_with};
ghost use Rattle.cert_text.specs.Limits.{greatest_budget};
ghost use Rattle.cert_text.specs.declared.cert.Claim.TheVariants as Claim;
ghost use Rattle.input_space.specs.Sessions.{IsBacked};
ghost use Rattle.input_space.specs.TaskCoding.{coding};
ghost use Rattle.input_space.specs.TaskParts.{task_with};
ghost use Rattle.input_space.specs.TaskSpace.{space};

use crate::NoMemory;
use crate::limits::keep_asked;
use cert_text::{CertParts, Claim, write_parts};
use choice_tree::Selection;
use input_space::{Cases, Sessions, Task};
use std::alloc::{AllocError, Global};

/// The text of a certificate without cases: that so many clauses were logged in these sessions.
pub fn sessions_text(
    alloc: Global,
    t: &Task,
    clauses: u32,
    sessions: &Sessions,
) -> Result<Vec<u8>, NoMemory>
    requires some { 1 ≤ clauses }
    requires few { clauses ≤ greatest_budget }
    requires backed { All (IsBacked (space (task_with t.now) clauses) (coding (task_with t.now)) [])
        sessions.now }
    requires numbered { All (λ x. length x.formula.clauses + length x.log.steps ≤ 2147483647)
        sessions.now }
    ensures { IfOk result (λ text. IsCertOf text.items
        (cert_with (Claim.Spent clauses) [] [] sessions.now)) }
{
    let _bounds = t.bounds();
    if !keep_asked(sessions.items()) {
        return Err(AllocError);
    }
    let none = Selection::from_vec(Vec::new(alloc));
    let cases = Cases::from_vec(Vec::new(alloc));
    let text = write_parts(
        alloc,
        &CertParts {
            claim: Claim::Spent(clauses),
            selection: &none,
            cases: &cases,
            sessions: sessions.items(),
            more: &[],
        },
    )?;
    Ok(text)
}
