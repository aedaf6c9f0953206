//! Laws of the rewritings of a program, and of those of a task's submission.
ghost use Rattle.rewriting_laws.specs.RewritingLaws.{RewritingsStayProper, RewritingsStayTyped};
ghost use Rattle.rewriting_laws.specs.RewritingLaws.{RewritingsStayUnshared};
ghost use Rattle.rewriting_laws.specs.TaskLaws.{CandidatesAreProper};
ghost use Rattle.rewriting_laws.specs.TaskLaws.{CandidatesAreTypedAndUnshared};

/// Facts that type a program type every rewriting of it.
pub fn rewritings_stay_typed()
    ensures { RewritingsStayTyped }
{}

/// Where no statement of a program shares a list, none of any rewriting does.
pub fn rewritings_stay_unshared()
    ensures { RewritingsStayUnshared }
{}

/// A rewriting of a proper program by proper rules is proper: a text can spell it.
pub fn rewritings_stay_proper()
    ensures { RewritingsStayProper }
{}

/// The first two hold of each rewriting of the submission of a task.
pub fn candidates_are_typed_and_unshared()
    ensures { CandidatesAreTypedAndUnshared }
{}

/// Each rewriting of the submission of a task is proper.
pub fn candidates_are_proper()
    ensures { CandidatesAreProper }
{}
