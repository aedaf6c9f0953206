//! What is written of an answer.
ghost use Rattle.std.specs.Prelude.{◌≡◌, IfOk};
ghost use Rattle.input_space.specs.TaskParts.{task_with};
ghost use Rattle.grade_core.specs.Commands.{empty_reference};
ghost use Rattle.grade_core.specs.Gradings.{IsTextOf, IsTold};

use crate::NoMemory;
use crate::grading::Graded;
use feedback_text::{Answer, report};
use input_space::Task;
use mpy_tree::{Cause, Refusal, Source};
use std::alloc::Global;
use task_read::{entry_line, refusal_text};

// The refusal of a reference that gives no value on any input.
fn empty_reference(task: &Task) -> Refusal
    ensures { result ≡ empty_reference (task_with task.now) }
{
    Refusal {
        source: Source::Reference,
        cause: Cause::EmptyReference,
        line: entry_line(task.bounds(), task.reference()),
    }
}

/// What is written of an answer: its report, or that the reference is refused, by the word that
/// names it, where it gives no value on any input.
pub fn answer_text(alloc: Global, reference: &str, graded: &Graded) -> Result<Vec<u8>, NoMemory>
    requires { IsTold (task_with graded.now.task) graded.now.answer }
    ensures { IfOk result (λ v. IsTextOf reference.now (task_with graded.now.task)
        graded.now.answer v.items) }
{
    match &graded.answer {
        Answer::EmptyReference => { refusal_text(alloc, reference, &empty_reference(&graded.task)) }
        answer => report(alloc, &graded.task, answer),
    }
}
