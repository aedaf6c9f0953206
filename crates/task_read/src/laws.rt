//! What texts spell, and whether they are refused, are one thing.
ghost use Rattle.task_read.specs.ProgramLaws.{NotTypedAndRefused, OneProgramRefusal};
ghost use Rattle.task_read.specs.ProgramLaws.{OneTypedProgram, ReadOrRefused};
ghost use Rattle.task_read.specs.TaskLaws.{NotTaskAndRefused, OneTask, OneTaskRefusal};
ghost use Rattle.task_read.specs.TaskLaws.{RulesAreProper, TaskReadOrRefused, TasksAreSound};

use mpy_round_trip::what_is_read_is_proper;

/// A text spells one typed program at most.
pub fn one_typed_program()
    ensures holds { OneTypedProgram }
{}

/// A text spells a typed program, or is refused.
pub fn typed_or_refused()
    ensures holds { ReadOrRefused }
{}

/// A text that spells a typed program isn't refused.
pub fn not_typed_and_refused()
    ensures holds { NotTypedAndRefused }
{}

/// A text is refused for one cause, at one line.
pub fn one_program_refusal()
    ensures holds { OneProgramRefusal }
{}

/// Four texts spell one task at most.
pub fn one_task()
    ensures holds { OneTask }
{}

/// Four texts spell a task, or are refused.
pub fn task_or_refused()
    ensures holds { TaskReadOrRefused }
{}

/// Texts that spell a task aren't refused.
pub fn not_task_and_refused()
    ensures holds { NotTaskAndRefused }
{}

/// Texts are refused for one cause, in one source at one line.
pub fn one_task_refusal()
    ensures holds { OneTaskRefusal }
{}

/// The rules that a text spells are proper.
pub fn rules_are_proper()
    ensures holds { RulesAreProper }
{}

/// A task that texts spell is sound.
pub fn tasks_are_sound()
    ensures holds { TasksAreSound }
{
    what_is_read_is_proper();
}
