//! A look at one session.

ghost use Rattle.std.specs.Prelude.{◌≤◌, IfOk, length};
ghost use Rattle.cert_text.specs.Limits.{KeepsSession};
ghost use Rattle.certificate_judge.specs.Looks.{IsLook};
ghost use Rattle.input_space.specs.Sessions.{cases_of};
ghost use Rattle.input_space.specs.TaskParts.{task_with};
ghost use Rattle.query_build.specs.Asking.{AreWanted};

use crate::NoMemory;
use crate::anew::ask_anew;
use crate::difference::difference;
use crate::verdict::Shown;
use clause_base::formula::Formula;
use input_space::{Cases, Session, Task};
use log_check::first_bad;
use query_build::formula;
use std::alloc::Global;

/// What a look at a session gives.
#[derive(Drop)]
pub(crate) enum Look {
    /// Its formula is the one that is built, and its steps follow.
    Follows,
    /// Its formula is another, and the one that is built was refuted.
    Anew,
    /// Its formula differs at a place from the one that is built, which isn't refuted.
    Other {
        clause: u32,
        built: Formula,
        shown: Shown,
    },
    /// Its formula is the one that is built, and the step at a place doesn't follow.
    Bad(u32),
}

/// Looks at a session: its formula is compared with the one that is built, and only where they
/// differ the question is asked anew. No third formula is made.
pub(crate) fn look_at(alloc: Global, t: &Task, kept: &Cases, x: &Session) -> Result<Look, NoMemory>
    requires wanted { AreWanted (task_with t.now) kept.now }
    requires cases { cases_of x.now.query ≤ length kept.now }
    requires keeps { KeepsSession (length kept.now) x.now }
    ensures { IfOk result (IsLook (task_with t.now) kept.now x.now) }
{
    let built = formula(alloc, t, kept, &x.query)?;
    match difference(&x.formula, &built) {
        Some(clause) => ask_anew(alloc, built, clause),
        None => match first_bad(alloc, built, &x.log)? {
            Some(step) => Ok(Look::Bad(step)),
            None => Ok(Look::Follows),
        },
    }
}
