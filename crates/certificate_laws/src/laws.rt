//! What right certificates show, and how many clauses honest sessions log.
ghost use Rattle.certificate_laws.specs.BestLaws.{FreeChoiceIsSubmission, LeastChoiceIsBest};
ghost use Rattle.certificate_laws.specs.BestLaws.{NoChoiceNoRewriting};
ghost use Rattle.certificate_laws.specs.CertificateLaws.{CostShowsBest, NothingShowsNone};
ghost use Rattle.certificate_laws.specs.CertificateLaws.{HonestTrailsAreShort, RightUnderAnyBudget};
ghost use Rattle.certificate_laws.specs.CertificateLaws.{SpentBudgetsAreSmall};

use crate::spaces::NoQuestions;
use cegis_loop::few_questions;
use coding_laws::{agreement_is_decided, codings_are_full};
use derivation_check::soundness::what_follows_holds;
use sat_watch::laws::fresh_logs_are_short;
use selection_programs::selections_make_programs;

/// From the choices of a search to the rewritings of a submission: a choice of least cost that
/// agrees makes a best rewriting, where none agrees no rewriting does, and where one that costs
/// nothing agrees the submission itself is best.
pub fn least_choices_are_best()
    ensures best { LeastChoiceIsBest }
    ensures none { NoChoiceNoRewriting }
    ensures submission { FreeChoiceIsSubmission }
{
    selections_make_programs();
}

/// A certificate that is right for a task is so whatever budget the task's space has.
pub fn right_under_any_budget()
    ensures { RightUnderAnyBudget }
{}

/// For whoever has a certificate from an untrusted grader: a right one of a cost makes the program
/// of its selection a best rewriting at that cost, and by one of no rewriting none agrees with the
/// reference. In both the reference gives a value on some input.
pub fn right_certificates_show()
    ensures cost { CostShowsBest }
    ensures nothing { NothingShowsNone }
{
    what_follows_holds();
    codings_are_full();
    agreement_is_decided();
    selections_make_programs();
    least_choices_are_best();
}

/// How many clauses the honest sessions of a whole search log at most; a budget above that is never
/// spent.
pub fn honest_trails_are_short()
    ensures trails { HonestTrailsAreShort }
    ensures spent { SpentBudgetsAreSmall }
{
    few_questions::<NoQuestions>();
    fresh_logs_are_short();
}
