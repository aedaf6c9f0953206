//! The report of an answer.
ghost use Rattle.std.specs.Prelude.{IfOk};
ghost use Rattle.choice_tree.specs.Selections.{Fits};
ghost use Rattle.feedback_text.specs.AnswerViews.{IsReported};
ghost use Rattle.feedback_text.specs.ReportViews.{IsReportOf, ShowsCorrection, ShowsEdits};
ghost use Rattle.input_space.specs.TaskParts.{task_with};
ghost use Rattle.input_space.specs.Tasks.{tree_of};

use crate::NoMemory;
use crate::answer::Answer;
use crate::edits::rule_lines;
use crate::failures::fails_line;
use crate::texts::push_number;
use choice_tree::{Selection, edits, plain};
use input_space::Task;
use mpy_printer::print_prog;
use std::alloc::Global;

/// The lines for the edits by which a selection makes its program, one for each, in order of place.
pub fn edit_lines(alloc: Global, t: &Task, s: &Selection) -> Result<Vec<u8>, NoMemory>
    requires { Fits (tree_of (task_with t.now)) s.now }
    ensures { IfOk result (λ v. ShowsEdits (task_with t.now) s.now v.items) }
{
    let edits = edits(alloc, t.tree(), s)?;
    let lines = rule_lines(alloc, t.rules(), &edits)?;
    Ok(lines)
}

/// The lines for what a selection makes: its edits, `program` and its program.
pub fn correction_lines(alloc: Global, t: &Task, s: &Selection) -> Result<Vec<u8>, NoMemory>
    requires { Fits (tree_of (task_with t.now)) s.now }
    ensures { IfOk result (λ v. ShowsCorrection (task_with t.now) s.now v.items) }
{
    let program = plain(alloc, t.tree(), s)?;
    let mut text = edit_lines(alloc, t, s)?;
    text.extend_from_slice(b"program\n")?;
    text.extend_from_slice(print_prog(alloc, &program)?.as_slice())?;
    Ok(text)
}

/// The report of an answer, whose lines each end with byte 10.
///
/// It is `correct`; or `cost K`, the line for an input on which the submission fails, a line for
/// each edit in order of place, `program` and the corrected program; or `no correction` and the
/// line for an input; or `budget spent N` and `at least cost K`.
pub fn report(alloc: Global, t: &Task, a: &Answer) -> Result<Vec<u8>, NoMemory>
    requires { IsReported (task_with t.now) a.now }
    ensures { IfOk result (λ v. IsReportOf (task_with t.now) a.now v.items) }
{
    match a {
        Answer::Correct => b"correct\n".to_vec(alloc),
        Answer::Corrected {
            selection,
            cost,
            fails,
        } => {
            let mut text = b"cost ".to_vec(alloc)?;
            push_number(alloc, &mut text, *cost)?;
            text.extend_from_slice(b"\n")?;
            text.extend_from_slice(fails_line(alloc, t.bounds(), fails)?.as_slice())?;
            text.extend_from_slice(correction_lines(alloc, t, selection)?.as_slice())?;
            Ok(text)
        }
        Answer::NoCorrection { fails } => {
            let mut text = b"no correction\n".to_vec(alloc)?;
            text.extend_from_slice(fails_line(alloc, t.bounds(), fails)?.as_slice())?;
            Ok(text)
        }
        Answer::Spent { at_least, budget } => {
            let mut text = Vec::new(alloc);
            text.extend_from_slice(b"budget spent ")?;
            push_number(alloc, &mut text, *budget)?;
            text.extend_from_slice(b"\nat least cost ")?;
            push_number(alloc, &mut text, *at_least)?;
            text.extend_from_slice(b"\n")?;
            Ok(text)
        }
        Answer::EmptyReference | Answer::NoMemory => unreachable!(),
    }
}
