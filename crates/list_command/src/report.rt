//! What is written of the texts of the four sources.
ghost use Rattle.std.specs.Prelude.{◌≡◌, ◌++◌, ℕ, List, IfOk, OnOk, length, option_map};
ghost use Rattle.input_space.specs.TaskParts.{task_with};
ghost use Rattle.source_files.specs.Texts.{AllFit};
ghost use Rattle.source_files.specs.Views.{texts_of};
ghost use Rattle.file_commands.specs.Reports.{IsFound, IsReport};
ghost use Rattle.grade_core.specs.Decisions.{task_sources};
ghost use Rattle.grade_core.specs.Gradings.{IsGradedSo, IsTold};
ghost use Rattle.grade_core.specs.Words.{IsBudget};
ghost use Rattle.list_command.specs.Commands.{all_command};
ghost use Rattle.list_command.specs.Reports.{HasNoCorrection, cert_behind};
ghost use Rattle.list_command.specs.Requests.{all_of};

use crate::NoMemory;
use crate::listing::list_report;
use crate::words::AllWords;
use feedback_text::{Answer, correction_lines};
use file_commands::Report;
use grade_core::{Graded, answer_status, answer_text, grade_texts};
use source_files::Stop;
use std::alloc::Global;

// Adds the certificate of a spent budget.
fn push_cert(text: &mut Vec<u8>, graded: &Graded) -> Result<(), NoMemory>
    ensures { OnOk result (text.new.items ≡ text.old.items
        ++ cert_behind graded.now.answer (option_map (λ c. c.items) graded.now.cert)) }
{
    let Answer::Spent { .. } = graded.answer else {
        return Ok(());
    };
    let Some(cert) = &graded.cert else {
        return Ok(());
    };
    text.extend_from_slice(cert.as_slice())
}

// The report of an answer without a correction: what `grade` writes, and where the budget is spent
// the certificate.
fn graded_report(alloc: Global, words: &AllWords<'_>, graded: &Graded) -> Result<Report, NoMemory>
    requires told { IsTold (task_with graded.now.task) graded.now.answer }
    requires none { HasNoCorrection graded.now.answer }
    ensures { IfOk result (λ r. (ts : List (List ℕ))
        → IsGradedSo words.now.budget ts graded.now
        → IsReport (all_command (all_of words.now)) ts r) }
{
    let mut text = answer_text(alloc, words.reference, graded)?;
    push_cert(&mut text, graded)?;
    Ok(Report {
        status: answer_status(&graded.answer),
        text,
        kept: None,
    })
}

// The report of what the search for the least cost answers.
fn report_graded(alloc: Global, words: &AllWords<'_>, graded: &Graded) -> Result<Report, NoMemory>
    requires budget { IsBudget words.now.budget }
    requires told { IsTold (task_with graded.now.task) graded.now.answer }
    ensures { IfOk result (λ r. (ts : List (List ℕ))
        → IsGradedSo words.now.budget ts graded.now
        → IsReport (all_command (all_of words.now)) ts r) }
{
    match &graded.answer {
        Answer::Correct => list_report(alloc, words, &graded.task, 0),
        Answer::Corrected {
            selection,
            cost,
            ..
        } => {
            // What was found is listed with the others.
            let _lines = correction_lines(alloc, &graded.task, selection)?;
            list_report(alloc, words, &graded.task, *cost)
        }
        _ => graded_report(alloc, words, graded),
    }
}

/// What is written of what the texts of the four sources decide.
pub(crate) fn report_texts(
    alloc: Global,
    words: &AllWords<'_>,
    texts: &[Vec<u8>],
) -> Result<Report, Stop>
    requires four { length texts.now ≡ 4 }
    requires fit { AllFit task_sources (texts_of texts.now) }
    requires budget { IsBudget words.now.budget }
    ensures { IsFound (all_command (all_of words.now)) (texts_of texts.now) result }
{
    let graded = grade_texts(alloc, texts, words.budget)?;
    Ok(report_graded(alloc, words, &graded)?)
}
