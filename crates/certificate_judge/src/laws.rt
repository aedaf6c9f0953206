//! What verdicts say of right certificates: laws, each the contract of a function without a body.

ghost use Rattle.certificate_judge.specs.VerdictLaws.{RightAsItStands, RightIsAccepted};

use derivation_check::soundness::what_follows_holds;

/// A certificate that is accepted with no question asked anew is right as it stands.
pub fn right_as_it_stands()
    ensures { RightAsItStands }
{}

/// A right certificate of a cost, or of no rewriting, is accepted, unless a question that was asked
/// anew was left open or memory lacked.
pub fn right_is_accepted()
    ensures { RightIsAccepted }
{
    what_follows_holds();
}
