//! A question that is asked anew.

ghost use Rattle.std.specs.Prelude.{◌≤◌, IfOk, length};
ghost use Rattle.certificate_judge.specs.Looks.{IsAsked};

use crate::NoMemory;
use crate::look::Look;
use crate::verdict::Shown;
use clause_base::formula::Formula;
use clause_base::solved::Solved;
use sat_core::solve;
use std::alloc::{AllocError, Global};

// How many clauses are logged at most for a question that is asked anew.
const BUDGET: u32 = 200_000;

/// Asks the question of a formula that was built for a session, whose own formula differs from it
/// at this place.
pub(crate) fn ask_anew(alloc: Global, built: Formula, clause: u32) -> Result<Look, NoMemory>
    requires { length built.clauses ≤ 2147483647 }
    ensures { IfOk result (IsAsked built clause) }
{
    match solve(alloc, &built, BUDGET) {
        Solved::Refuted(_) => Ok(Look::Anew),
        Solved::Holds(values, _) => Ok(Look::Other {
            clause,
            built,
            shown: Shown::Values(values),
        }),
        Solved::Spent(log) => Ok(Look::Other {
            clause,
            built,
            shown: Shown::Spent(log),
        }),
        Solved::NoMemory => Err(AllocError),
    }
}
