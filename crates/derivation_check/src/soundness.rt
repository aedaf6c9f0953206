//! What a log that follows says of the values that satisfy its formula.

ghost use Rattle.derivation_check.specs.Soundness.{FollowingHolds, RefutedHasNoValues};

/// A law over the definitions: where values satisfy a formula they make each clause true that
/// follows from it, and so no values satisfy a formula that a log refutes.
pub fn what_follows_holds()
    ensures holds { FollowingHolds }
    ensures refuted { RefutedHasNoValues }
{}
