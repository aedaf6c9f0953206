//! Laws of what is graded and run: what the texts of a command spell, and what comes of them, is
//! one thing.
ghost use Rattle.grade_top.specs.OneOutcome.{HaveOneRefusal, NotRefusedAndDecided, RunOnce};
ghost use Rattle.grade_top.specs.OneOutcome.{SpellOneTask};
ghost use Rattle.grade_top.specs.PrintedPrograms.{CorrectionsAreSpelled};

use mpy_round_trip::{spelled_by_its_text, spelled_by_no_other};
use rewriting_laws::candidates_are_proper;
use task_read::tasks_are_sound;

/// The texts of `grade` spell one task at most.
pub fn one_task()
    ensures holds { SpellOneTask }
{}

/// The texts of `run` and its values are one run at most.
pub fn one_run()
    ensures holds { RunOnce }
{}

/// One refusal at most is the first.
pub fn one_refusal()
    ensures holds { HaveOneRefusal }
{}

/// No texts are both refused and answered.
pub fn not_refused_and_decided()
    ensures holds { NotRefusedAndDecided }
{}

/// The text of a correction's program spells that program, and no other, lines aside.
pub fn corrections_are_spelled()
    ensures holds { CorrectionsAreSpelled }
{
    tasks_are_sound();
    candidates_are_proper();
    spelled_by_its_text();
    spelled_by_no_other();
}
