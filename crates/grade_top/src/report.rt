//! The lines for how a run ended.
ghost use Rattle.std.specs.Prelude.{◌≡◌, ◌++◌, IfOk, OnOk};
ghost use Rattle.std.specs.List.{flat_map};
ghost use Rattle.grade_top.specs.Reports.{printed_line, run_text as text_of_run};

use input_space::print_value;
use mpy_tree::{NoMemory, Outcome, Value};
use std::alloc::Global;

// Adds the line of a value that was printed.
fn push_line(out: &mut Vec<u8>, v: &Value) -> Result<(), NoMemory>
    ensures { OnOk result (out.new.items ≡ out.old.items ++ printed_line v.now) }
{
    out.extend_from_slice(b"printed ")?;
    print_value(out, v)?;
    out.extend_from_slice(b"\n")?;
    Ok(())
}

// Adds a line for each value that was printed.
fn push_printed(out: &mut Vec<u8>, printed: &[Value]) -> Result<(), NoMemory>
    ensures { OnOk result (out.new.items ≡ out.old.items ++ flat_map printed_line printed.now) }
{
    for v in printed {
        push_line(out, v)?;
    }
    Ok(())
}

/// The lines for how a run ended.
pub(crate) fn run_text(alloc: Global, outcome: &Outcome) -> Result<Vec<u8>, NoMemory>
    ensures { IfOk result (λ v. v.items ≡ text_of_run outcome.now) }
{
    match outcome {
        Outcome::Done { value, printed } => {
            let mut text = b"value ".to_vec(alloc)?;
            match value {
                None => text.extend_from_slice(b"None")?,
                Some(v) => print_value(&mut text, v)?,
            }
            text.extend_from_slice(b"\n")?;
            push_printed(&mut text, printed.items())?;
            Ok(text)
        }
        Outcome::Fault { kind, line } => {
            let text = format!(in alloc; "fault {} line {line}\n", kind.name())?;
            Ok(text.into_bytes())
        }
    }
}
