//! What is said of a certificate.

use clause_base::formula::Formula;
use clause_base::log::Log;
use clause_base::truths::Truths;
use mpy_tree::Prog;

/// What is shown of a formula that isn't refuted.
#[derive(Drop)]
pub enum Shown {
    /// Values that satisfy it.
    Values(Truths),
    /// As many clauses that follow from it as are allowed.
    Spent(Log),
}

/// What is said of a certificate. Cases, sessions, clauses and steps count from 1, and `anew` is
/// how many sessions passed because their question was refuted when it was asked anew.
#[derive(Drop)]
pub enum Verdict {
    /// The program is a best rewriting, at this cost.
    Accepted {
        cost: u32,
        program: Prog,
        anew: u32,
    },
    /// No rewriting agrees.
    AcceptedNone {
        anew: u32,
    },
    /// A case isn't an input within the bounds on which the reference ends; the first such.
    WrongCase {
        case: u32,
    },
    /// The selection doesn't fit, or costs something else than is claimed.
    WrongCost,
    /// The budget is spent, there is no case, or the sessions aren't those of the claim.
    WrongClaim,
    /// The formula of a session isn't the one that is built, and that one isn't refuted; `clause`
    /// is the first place at which they differ, 0 where the number of variables does alone.
    OtherFormula {
        session: u32,
        clause: u32,
        built: Formula,
        shown: Shown,
    },
    /// A step of a session doesn't follow from the clauses before it by its hints; the first such.
    BadStep {
        session: u32,
        step: u32,
    },
    /// There was no memory.
    NoMemory,
}
