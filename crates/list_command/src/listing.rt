//! What is listed of a task.
ghost use Rattle.std.specs.Prelude.{◌≡◌, ◌++◌, None, IfOk, OnOk, All, length};
ghost use Rattle.choice_tree.specs.Selections.{Fits};
ghost use Rattle.input_space.specs.TaskParts.{task_with};
ghost use Rattle.input_space.specs.Tasks.{tree_of};
ghost use Rattle.file_commands.specs.Reports.{bytes_of};
ghost use Rattle.grade_core.specs.Words.{IsBudget};
ghost use Rattle.least_all.specs.Answers.{IsSpent, live_at};
ghost use Rattle.list_command.specs.Decisions.{TooMany};
ghost use Rattle.list_command.specs.Reports.{AddsCorrection, IsListReport, IsSpentText};
ghost use Rattle.list_command.specs.Reports.{ListsChanges};
ghost use Rattle.list_command.specs.Requests.{all_of};
ghost use Rattle.list_command.specs.Texts.{best_status, heading_text, listing_text};
ghost use Rattle.list_command.specs.Texts.{number_text, whole_text};

use crate::NoMemory;
use crate::words::AllWords;
use choice_tree::Selection;
use cost_levels::selections_have_levels;
use feedback_text::{Answer, correction_lines, report};
use file_commands::Report;
use grade_io::{Status, refusal_line};
use input_space::{Sessions, Task};
use least_all::{Best, Selections, list_best};
use search_certificates::sessions_text;
use std::alloc::{AllocError, Global};
use task_read::entry_line;

// How the line of a number ends that is written of corrections.
fn ending(whole: bool) -> &'static str
    ensures { result.now ≡ whole_text whole }
{
    if whole { ", whole\n" } else { ", more\n" }
}

// The cost, and how many corrections are written.
fn heading(alloc: Global, cost: u32, count: usize, whole: bool) -> Result<Vec<u8>, NoMemory>
    ensures { IfOk result (λ v. v.items ≡ heading_text cost count whole) }
{
    let end = ending(whole);
    let text = format!(in alloc; "cost {cost}\nfound {count}{end}")?;
    Ok(text.into_bytes())
}

// Adds the line of a correction's number.
fn push_number(alloc: Global, number: usize, out: &mut Vec<u8>) -> Result<(), NoMemory>
    ensures { OnOk result (out.new.items ≡ out.old.items ++ number_text number) }
{
    let line = format!(in alloc; "correction {number}\n")?;
    out.extend_from_slice(line.as_bytes())
}

// Adds the edits and the program of a selection.
fn push_correction(
    alloc: Global,
    task: &Task,
    pick: &Selection,
    out: &mut Vec<u8>,
) -> Result<(), NoMemory>
    requires { Fits (tree_of (task_with task.now)) pick.now }
    ensures { OnOk result (AddsCorrection (task_with task.now) pick.now out.old.items
        out.new.items) }
{
    let lines = correction_lines(alloc, task, pick)?;
    out.extend_from_slice(lines.as_slice())
}

// Adds the corrections by selections, numbered from 1.
fn push_corrections(
    alloc: Global,
    task: &Task,
    picks: &[Selection],
    out: &mut Vec<u8>,
) -> Result<(), NoMemory>
    requires { All (Fits (tree_of (task_with task.now))) picks.now }
    ensures { OnOk result (ListsChanges (task_with task.now) picks.now out.old.items
        out.new.items) }
{
    for (i, pick) in picks.iter().enumerate() {
        push_number(alloc, i + 1, out)?;
        push_correction(alloc, task, pick, out)?;
    }
    Ok(())
}

// The status of corrections of a cost.
fn status_of(cost: u32) -> Status
    ensures { result ≡ best_status cost }
{
    match cost {
        0 => Status::Correct,
        _ => Status::Corrected,
    }
}

// The report of corrections.
fn best_report(
    alloc: Global,
    task: &Task,
    cost: u32,
    picks: &Selections,
    whole: bool,
) -> Result<Report, NoMemory>
    requires { All (Fits (tree_of (task_with task.now))) picks.now }
    ensures status { IfOk result (λ r. r.status ≡ best_status cost) }
    ensures kept { IfOk result (λ r. bytes_of r ≡ None) }
    ensures text { IfOk result (λ r. ListsChanges (task_with task.now) picks.now
        (heading_text cost (length picks.now) whole) r.text.items) }
{
    let picks = picks.items();
    let mut text = heading(alloc, cost, picks.len(), whole)?;
    push_corrections(alloc, task, picks, &mut text)?;
    Ok(Report {
        status: status_of(cost),
        text,
        kept: None,
    })
}

// The report that too many live selections have the least cost.
fn many_report(alloc: Global, words: &AllWords<'_>, task: &Task) -> Result<Report, NoMemory>
    ensures text { IfOk result (λ r. r.text.items ≡ listing_text (all_of words.now)
        (task_with task.now) 0 TooMany) }
    ensures status { IfOk result (λ r. r.status ≡ Status.Refused) }
    ensures kept { IfOk result (λ r. bytes_of r ≡ None) }
{
    let line = entry_line(task.bounds(), task.submission());
    Ok(Report {
        status: Status::Refused,
        text: refusal_line(alloc, words.submission, line, "Many")?,
        kept: None,
    })
}

// The report that the budget is spent: what `grade` writes of it, and the certificate.
fn spent_report(
    alloc: Global,
    task: &Task,
    cost: u32,
    budget: u32,
    sessions: &Sessions,
) -> Result<Report, NoMemory>
    requires budget { IsBudget budget }
    requires spent { IsSpent (task_with task.now) (live_at (task_with task.now) cost) budget
        sessions.now }
    ensures text { IfOk result (λ r. IsSpentText (task_with task.now) cost budget r.text.items) }
    ensures status { IfOk result (λ r. r.status ≡ Status.Spent) }
    ensures kept { IfOk result (λ r. bytes_of r ≡ None) }
{
    let spent = Answer::Spent {
        at_least: cost,
        budget,
    };
    let mut text = report(alloc, task, &spent)?;
    let cert = sessions_text(alloc, task, budget, sessions)?;
    text.extend_from_slice(cert.as_slice())?;
    Ok(Report {
        status: Status::Spent,
        text,
        kept: None,
    })
}

/// The report of what is listed of a task at a cost.
pub(crate) fn list_report(
    alloc: Global,
    words: &AllWords<'_>,
    task: &Task,
    cost: u32,
) -> Result<Report, NoMemory>
    requires budget { IsBudget words.now.budget }
    ensures { IfOk result (IsListReport (all_of words.now) (task_with task.now) cost) }
{
    selections_have_levels();
    match list_best(alloc, task, cost, words.most, words.budget) {
        Best::Listed { picks, whole } => best_report(alloc, task, cost, &picks, whole),
        Best::Many => many_report(alloc, words, task),
        Best::Spent { sessions } => spent_report(alloc, task, cost, words.budget, &sessions),
        Best::NoMemory => Err(AllocError),
    }
}
