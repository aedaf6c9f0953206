//! Four texts, from their task to its answer.
ghost use Rattle.std.specs.Prelude.{◌≡◌, IfOk, length, MatchResult, option_map};
ghost use Rattle.input_space.specs.TaskParts.{task_with};
ghost use Rattle.source_files.specs.Fetches.{StopsAs};
ghost use Rattle.source_files.specs.Texts.{AllFit};
ghost use Rattle.source_files.specs.Views.{texts_of};
ghost use Rattle.feedback_text.specs.declared.answer.Answer.{Answer as AnyAnswer};
ghost use Rattle.grade_core.specs.Decisions.{task_sources, task_step};
ghost use Rattle.grade_core.specs.Gradings.{HasStatus, IsGradedSo};
ghost use Rattle.grade_core.specs.Runs.{IsKeptFor, IsRunOf};
ghost use Rattle.grade_core.specs.Words.{IsBudget};

use crate::NoMemory;
use crate::run::{Run, answer, certificate};
use certificate_laws::right_under_any_budget;
use feedback_text::Answer;
use grade_io::Status;
use input_space::Task;
use source_files::Stop;
use std::alloc::Global;
use task_read::read_task;

/// A task that nothing refuses, its answer, and the text of a certificate of it. There is none
/// where the reference gives no value.
#[derive(Drop)]
pub struct Graded {
    pub task: Task,
    pub answer: Answer,
    pub cert: Option<Vec<u8>>,
}

// The task that the texts spell.
fn read(alloc: Global, texts: &[Vec<u8>]) -> Result<Task, Stop>
    requires four { length texts.now ≡ 4 }
    requires fit { AllFit task_sources (texts_of texts.now) }
    ensures { MatchResult result (λ t. (task_step (texts_of texts.now)).gives (task_with t))
        (StopsAs (task_step (texts_of texts.now)).refuses) }
{
    let [bounds, reference, submission, rules] = texts else {
        unreachable!();
    };
    Ok(read_task(alloc, bounds, reference, submission, rules)?)
}

// The text of the certificate of a run; of a reference that gives no value there is none.
fn kept(alloc: Global, task: &Task, run: &Run, budget: u32) -> Result<Option<Vec<u8>>, NoMemory>
    requires budget { IsBudget budget }
    requires run { IsRunOf (task_with task.now) budget run.now.answer run.now.kept
        run.now.sessions }
    ensures { IfOk result (λ o. IsKeptFor (task_with task.now) run.now.answer run.now.kept
        run.now.sessions (option_map (λ v. v.items) o)) }
{
    if let Answer::EmptyReference | Answer::NoMemory = run.answer {
        return Ok(None);
    }
    let text = certificate(alloc, task, run)?;
    Ok(Some(text))
}

/// Grades four texts: those of the bounds, the reference, the submission and the rules.
///
/// # Errors
///
/// The first refusal of the texts, or want of memory.
pub fn grade_texts(alloc: Global, texts: &[Vec<u8>], budget: u32) -> Result<Graded, Stop>
    requires four { length texts.now ≡ 4 }
    requires fit { AllFit task_sources (texts_of texts.now) }
    requires budget { IsBudget budget }
    ensures { MatchResult result (IsGradedSo budget (texts_of texts.now))
        (StopsAs (task_step (texts_of texts.now)).refuses) }
{
    right_under_any_budget();
    let task = read(alloc, texts)?;
    let run = answer(alloc, &task, budget);
    if let Answer::NoMemory = run.answer {
        return Err(Stop::NoMemory);
    }
    let cert = kept(alloc, &task, &run, budget)?;
    Ok(Graded {
        task,
        answer: run.answer,
        cert,
    })
}

/// The status of an answer that is written whole; or that memory lacked.
pub fn answer_status(answer: &Answer) -> Status
    ensures written { HasStatus answer.now result }
    ensures no_memory { answer.now ≡ Answer.NoMemory → result ≡ Status.NoMemory }
{
    match answer {
        Answer::Correct => Status::Correct,
        Answer::Corrected { .. } => Status::Corrected,
        Answer::NoCorrection { .. } => Status::NoCorrection,
        Answer::EmptyReference => Status::Refused,
        Answer::Spent { .. } => Status::Spent,
        Answer::NoMemory => Status::NoMemory,
    }
}
