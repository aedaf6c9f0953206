//! The line for an input on which the submission fails.
ghost use Rattle.std.specs.Prelude.{◌≡◌, ◌++◌, IfOk, OnOk};
ghost use Rattle.feedback_text.specs.AnswerViews.{failure_of};
ghost use Rattle.feedback_text.specs.Reports.{fails_text, maybe_text, outcome_text, printed_text};

use crate::NoMemory;
use crate::answer::Failure;
use bounds_reader::Bounds;
use input_space::{compares, print_case, print_value, print_values};
use mpy_tree::{Outcome, Value, Values};
use std::alloc::Global;

/// Adds a value, or `None`.
fn push_value(out: &mut Vec<u8>, value: &Option<Value>) -> Result<(), NoMemory>
    ensures { OnOk result (out.new.items ≡ out.old.items ++ maybe_text value.now) }
{
    match value {
        None => out.extend_from_slice(b"None")?,
        Some(v) => print_value(out, v)?,
    }
    Ok(())
}

/// Adds what was printed, or `nothing`.
fn push_printed(out: &mut Vec<u8>, printed: &Values) -> Result<(), NoMemory>
    ensures { OnOk result (out.new.items ≡ out.old.items ++ printed_text printed.now) }
{
    match printed.items() {
        [] => out.extend_from_slice(b"nothing")?,
        vs => print_values(out, vs)?,
    }
    Ok(())
}

/// Adds how a run ended: its value, and what it printed where that is compared; or `fault` and its
/// kind.
fn push_outcome(out: &mut Vec<u8>, compared: bool, outcome: &Outcome) -> Result<(), NoMemory>
    ensures { OnOk result (out.new.items ≡ out.old.items ++ outcome_text compared outcome.now) }
{
    match outcome {
        Outcome::Done { value, printed } => {
            push_value(out, value)?;
            if compared {
                out.extend_from_slice(b" printing ")?;
                push_printed(out, printed)?;
            }
        }
        Outcome::Fault { kind, .. } => {
            out.extend_from_slice(b"fault ")?;
            out.extend_from_slice(kind.name().as_bytes())?;
        }
    }
    Ok(())
}

/// The line for an input on which the submission fails.
pub(crate) fn fails_line(alloc: Global, b: &Bounds, fails: &Failure) -> Result<Vec<u8>, NoMemory>
    ensures { IfOk result (λ v. v.items ≡ fails_text b.now (failure_of fails.now)) }
{
    let compared = compares(&b.limits);
    let mut text = b"fails ".to_vec(alloc)?;
    text.extend_from_slice(b.entry.bytes())?;
    text.extend_from_slice(b"(")?;
    text.extend_from_slice(print_case(alloc, &fails.case)?.as_slice())?;
    text.extend_from_slice(b"): gives ")?;
    push_outcome(&mut text, compared, &fails.gives)?;
    text.extend_from_slice(b", wanted ")?;
    push_outcome(&mut text, compared, &fails.wanted)?;
    text.extend_from_slice(b"\n")?;
    Ok(text)
}
