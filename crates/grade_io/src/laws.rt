//! The law of the puts of a text.
ghost use Rattle.grade_io.specs.PutLaws.{PutsAreOne};

/// How the puts of a text end, what they write and what they leave of the plan is a function of
/// the plan and the share, unless memory lacks.
pub fn puts_are_one()
    ensures holds { PutsAreOne }
{}
