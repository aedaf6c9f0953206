//! Laws of logs, over the definitions.

ghost use Rattle.clause_base.specs.LogLaws.{FollowsByPlace, FollowsPushed, FreshByPlace};
ghost use Rattle.clause_base.specs.LogLaws.{FreshPushed, KnownByPlace, KnownCounted, KnownPushed};

/// A law over the definitions: what is known after some steps are the clauses of the formula and
/// then those of the steps, each in its place.
pub fn what_is_known()
    ensures pushed { KnownPushed }
    ensures counted { KnownCounted }
    ensures by_place { KnownByPlace }
{}

/// A law over the definitions: a log follows, and is fresh, exactly where each of its steps does
/// and is by what is known before it.
pub fn logs_by_place()
    ensures follows { FollowsByPlace }
    ensures fresh { FreshByPlace }
{}

/// A law over the definitions: a log with one step more follows, and is fresh, exactly where the
/// log does and is, and the step by what is known after it.
pub fn one_step_more()
    ensures follows { FollowsPushed }
    ensures fresh { FreshPushed }
{}
