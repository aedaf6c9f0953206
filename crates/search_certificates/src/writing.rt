//! The certificate of what a search found.

ghost use Rattle.std.specs.Prelude.{IfOk};
ghost use Rattle.input_space.specs.TaskParts.{task_with};
ghost use Rattle.search_certificates.specs.Certified.{IsCertified, IsClaimed};
ghost use Rattle.cert_text.specs.declared.cert.Claim.TheVariants as Claim;

use crate::NoMemory;
use crate::limits::{MOST_COST, keep_asked};
use crate::places::{Wanted, session_of};
use cegis_loop::{any_ruled_out, cheaper_ruled_out, choice_didnt_fail};
use cert_text::{CertParts, Claim, write_parts};
use certificate_laws::NoQuestions;
use choice_tree::Selection;
use input_space::{Cases, Query, Sessions, Task};
use std::alloc::{AllocError, Global};

// The text for a cost: that the selection that was found fails nowhere, and that none that is
// cheaper agrees on all kept cases.
fn cost_text(
    alloc: Global,
    t: &Task,
    cost: u32,
    kept: &Cases,
    sessions: &Sessions,
) -> Result<Vec<u8>, NoMemory>
    requires { IsClaimed (task_with t.now) (Claim.Cost cost) kept.now sessions.now }
    ensures { IfOk result (λ text. IsCertified (task_with t.now) (Claim.Cost cost) kept.now
        sessions.now text.items) }
{
    choice_didnt_fail::<NoQuestions>();
    cheaper_ruled_out::<NoQuestions>();
    let _bounds = t.bounds();
    let cases = kept.count();
    let all = sessions.items();
    let failing = session_of(Wanted::Failure, all);
    let Query::Fail(selection) = &failing[0].query else {
        unreachable!();
    };
    let cheaper = if cost == 0 {
        &all[..0]
    } else {
        let most = Some(cost - 1);
        session_of(Wanted::Low { most, cases }, all)
    };
    if cost > MOST_COST || !keep_asked(failing) || !keep_asked(cheaper) {
        return Err(AllocError);
    }
    let text = write_parts(
        alloc,
        &CertParts {
            claim: Claim::Cost(cost),
            selection,
            cases: kept,
            sessions: failing,
            more: cheaper,
        },
    )?;
    Ok(text)
}

// The text for no selection: that none of any cost agrees on all kept cases.
fn none_text(
    alloc: Global,
    t: &Task,
    kept: &Cases,
    sessions: &Sessions,
) -> Result<Vec<u8>, NoMemory>
    requires { IsClaimed (task_with t.now) Claim.Nothing kept.now sessions.now }
    ensures { IfOk result (λ text. IsCertified (task_with t.now) Claim.Nothing kept.now
        sessions.now text.items) }
{
    any_ruled_out::<NoQuestions>();
    let _bounds = t.bounds();
    let cases = kept.count();
    let any = session_of(Wanted::Low { most: None, cases }, sessions.items());
    let none = Selection::from_vec(Vec::new(alloc));
    let text = write_parts(
        alloc,
        &CertParts {
            claim: Claim::Nothing,
            selection: &none,
            cases: kept,
            sessions: any,
            more: &[],
        },
    )?;
    Ok(text)
}

// The text for a budget that is spent: the whole search.
fn spent_text(
    alloc: Global,
    t: &Task,
    clauses: u32,
    kept: &Cases,
    sessions: &Sessions,
) -> Result<Vec<u8>, NoMemory>
    requires { IsClaimed (task_with t.now) (Claim.Spent clauses) kept.now sessions.now }
    ensures { IfOk result (λ text. IsCertified (task_with t.now) (Claim.Spent clauses) kept.now
        sessions.now text.items) }
{
    let _bounds = t.bounds();
    let _cases = kept.count();
    if !keep_asked(sessions.items()) {
        return Err(AllocError);
    }
    let none = Selection::from_vec(Vec::new(alloc));
    let text = write_parts(
        alloc,
        &CertParts {
            claim: Claim::Spent(clauses),
            selection: &none,
            cases: kept,
            sessions: sessions.items(),
            more: &[],
        },
    )?;
    Ok(text)
}

/// The text of the certificate of what a search about a task found: of a cost, that no selection
/// agrees, or that the budget is spent. The kept cases and the sessions are those of the search.
pub fn certificate(
    alloc: Global,
    t: &Task,
    claim: Claim,
    kept: &Cases,
    sessions: &Sessions,
) -> Result<Vec<u8>, NoMemory>
    requires { IsClaimed (task_with t.now) claim kept.now sessions.now }
    ensures { IfOk result (λ text. IsCertified (task_with t.now) claim kept.now sessions.now
        text.items) }
{
    match claim {
        Claim::Cost(cost) => cost_text(alloc, t, cost, kept, sessions),
        Claim::Nothing => none_text(alloc, t, kept, sessions),
        Claim::Spent(clauses) => spent_text(alloc, t, clauses, kept, sessions),
    }
}
