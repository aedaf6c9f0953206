//! Laws of chosen cases and marks, each the contract of a function that does nothing.
ghost use Rattle.test_picker.specs.PickLaws.{MarksStay, OneChoice};

/// Programs choose one list of cases, and have one list of marks.
pub fn one_choice()
    ensures { OneChoice }
{}

/// Marks stay true of the cases at the end.
pub fn marks_stay()
    ensures { MarksStay }
{}
