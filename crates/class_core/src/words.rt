//! The words of `mpyclass`.
ghost use Rattle.std.specs.Prelude.{◌≡◌, ◌≤◌};

use class_run::ClassFiles;
use grade_core::GradeWords;

/// The names of the four files of a class, and the budget of each submission, from 1 to 200,000
/// clauses.
#[derive(Clone, Copy)]
pub(crate) struct ClassWords<'a> {
    pub(crate) files: ClassFiles<'a>,
    pub(crate) budget: u32,
    ghost some: { 1 ≤ budget },
    ghost within: { budget ≤ 200000 },
}

impl<'a> ClassWords<'a> {
    ghost use Rattle.grade_core.specs.Requests.{grade_of};
    ghost use Rattle.grade_core.specs.Words.{IsBudget};
    ghost use Rattle.class_core.specs.Requests.{words_of};
    ghost use Rattle.class_core.specs.Words.{grade_words};

    /// The words by which `grade` is asked for a file. There is no certificate to be stored.
    pub(crate) fn grade(&self, submission: &'a str) -> GradeWords<'a>
        ensures words { grade_of result ≡ grade_words (words_of self.now) submission.now }
        ensures budget { IsBudget result.budget }
    {
        GradeWords {
            bounds: self.files.bounds,
            reference: self.files.reference,
            submission,
            rules: self.files.rules,
            cert: "",
            budget: self.budget,
        }
    }
}
