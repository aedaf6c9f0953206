//! The command `sample`.
ghost use Rattle.std.specs.Prelude.{◌≡◌, ◌≤◌, ◌++◌, [], IfOk, OnOk, length, option_map};
ghost use Rattle.grade_io.specs.Devices.{ShelfState, devices};
ghost use Rattle.mpy_limits.specs.Limits.{all_statements};
ghost use Rattle.input_space.specs.TaskParts.{task_with};
ghost use Rattle.file_commands.specs.Ends.{Ends};
ghost use Rattle.file_commands.specs.Reports.{IsFound};
ghost use Rattle.grade_core.specs.Gradings.{IsTold};
ghost use Rattle.grade_top.specs.Commands.{sample_command as command_sample};
ghost use Rattle.grade_top.specs.Outcomes.{IsSampleOf, IsSpent, Summarizes};
ghost use Rattle.grade_top.specs.Reports.{cert_bytes, sample_lines};

use choice_tree::{Selection, edits, plain};
use feedback_text::Answer;
use file_commands::{Lines, Report, end_at_once};
use grade_core::{Graded, answer_status, answer_text, grade_texts};
use grade_io::{Sink, Status};
use input_space::Task;
use mpy_limits::statements_count;
use mpy_tree::{NoMemory, Refusal, Source};
use sample_maker::sample;
use source_files::Stop;
use std::alloc::Global;
use task_read::refusal_text;

/// The budget by which a sample is graded.
const BUDGET: u32 = 200_000;

/// The lines of a sample that is graded.
fn lines(
    alloc: Global,
    number: u32,
    task: &Task,
    edits: usize,
    cost: u32,
) -> Result<Vec<u8>, NoMemory>
    requires few { length (all_statements (task_with task.now).submission) ≤ 200 }
    ensures { IfOk result (λ v. v.items ≡ sample_lines number (task_with task.now) edits cost) }
{
    let Some(statements) = statements_count(task.submission()) else {
        unreachable!();
    };
    let text = format!(in alloc;
        "sample {number}\nstatements {statements}\nedits {edits}\ncost {cost}\n",
    )?;
    Ok(text.into_bytes())
}

/// The lines of a sample that a selection corrects.
fn corrected_lines(
    alloc: Global,
    number: u32,
    task: &Task,
    selection: &Selection,
    cost: u32,
) -> Result<Vec<u8>, NoMemory>
    requires few { length (all_statements (task_with task.now).submission) ≤ 200 }
    ensures { IfOk result (λ v. Summarizes number (task_with task.now) selection.now cost
        v.items) }
{
    let edits = edits(alloc, task.tree(), selection)?;
    // The answer has a corrected program, which isn't written.
    let _program = plain(alloc, task.tree(), selection)?;
    lines(alloc, number, task, edits.items.len(), cost)
}

/// Adds the certificate, if there is one.
fn push_cert(text: &mut Vec<u8>, cert: &Option<Vec<u8>>) -> Result<(), NoMemory>
    ensures { OnOk result (text.new.items ≡ text.old.items
        ++ cert_bytes (option_map (λ c. c.items) cert.now)) }
{
    match cert {
        Some(cert) => {
            text.extend_from_slice(cert.as_slice())?;
            Ok(())
        }
        None => Ok(()),
    }
}

/// What is written of a sample whose budget is spent: what `grade` writes, and its certificate.
fn spent_lines(alloc: Global, number: u32, graded: &Graded) -> Result<Vec<u8>, NoMemory>
    requires told { IsTold (task_with graded.now.task) graded.now.answer }
    requires spent { IsSpent graded.now.answer }
    ensures { IfOk result (λ v. IsSampleOf number (task_with graded.now.task) graded.now.answer
        (option_map (λ c. c.items) graded.now.cert) v.items) }
{
    let mut text = format!(in alloc; "sample {number}\n")?.into_bytes();
    let lines = answer_text(alloc, "reference", graded)?;
    text.extend_from_slice(lines.as_slice())?;
    push_cert(&mut text, &graded.cert)?;
    Ok(text)
}

/// What is written of the answer to a sample.
fn text(alloc: Global, number: u32, graded: &Graded) -> Result<Vec<u8>, NoMemory>
    requires told { IsTold (task_with graded.now.task) graded.now.answer }
    requires few { length (all_statements (task_with graded.now.task).submission) ≤ 200 }
    ensures { IfOk result (λ v. IsSampleOf number (task_with graded.now.task) graded.now.answer
        (option_map (λ c. c.items) graded.now.cert) v.items) }
{
    match &graded.answer {
        Answer::Correct => lines(alloc, number, &graded.task, 0, 0),
        Answer::Corrected {
            selection,
            cost,
            ..
        } => corrected_lines(alloc, number, &graded.task, selection, *cost),
        Answer::Spent { .. } => spent_lines(alloc, number, graded),
        Answer::NoCorrection { .. } | Answer::EmptyReference | Answer::NoMemory => {
            answer_text(alloc, "reference", graded)
        }
    }
}

/// What is written of the sample of a number.
fn find_report(alloc: Global, number: u32) -> Result<Report, Stop>
    requires { number ≤ 65535 }
    ensures { IsFound (command_sample number) [] result }
{
    let made = sample(alloc, number)?;
    let texts = [
        made.bounds.into_vec(),
        made.reference.into_vec(),
        made.submission.into_vec(),
        made.rules.into_vec(),
    ];
    let graded = grade_texts(alloc, &texts, BUDGET)?;
    let text = text(alloc, number, &graded)?;
    Ok(Report {
        status: answer_status(&graded.answer),
        text,
        kept: None,
    })
}

/// The sources of a sample, which are no files.
#[derive(Clone, Copy)]
struct SampleSources;

impl Lines for SampleSources {
    ghost use Rattle.mpy_tree.specs.Refusals.{refusal_text};
    ghost use Rattle.grade_top.specs.Commands.{sample_word};

    ghost line_of = { λ s r. refusal_text (sample_word r.source) r };

    fn line(&self, alloc: Global, refusal: &Refusal) -> Result<Vec<u8>, NoMemory> {
        let name = match refusal.source {
            Source::Bounds => "bounds",
            Source::Reference => "reference",
            Source::Submission => "submission",
            Source::Rules => "rules",
            Source::Cert | Source::Word(_) => "",
        };
        refusal_text(alloc, name, refusal)
    }
}

/// Grades the sample of a number, and writes a summary. No file is touched.
pub(crate) fn sample_command<K: Sink>(alloc: Global, number: u32, out: &mut K) -> Status
    requires { number ≤ 65535 }
    ensures { (shelf : ShelfState) → Ends (command_sample number)
        (devices shelf (K.seen out.old)) (devices shelf (K.seen out.new)) result }
{
    let found = find_report(alloc, number);
    end_at_once(alloc, &SampleSources, found, out)
}
