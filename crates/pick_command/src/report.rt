//! The lines of an answer.
ghost use Rattle.std.specs.Prelude.{◌≡◌, ◌++◌, ℕ, List, IfOk, OnOk, length, map};
ghost use Rattle.std.specs.List.{flat_map};
ghost use Rattle.std.specs.String.{string_bytes};
ghost use Rattle.test_picker.specs.Programs.{inputs_of};
ghost use Rattle.pick_command.specs.Texts.{input_line, mark_lines, mark_text};

use crate::NoMemory;
use input_space::{Case, Cases, print_case};
use mpy_tree::Name;
use std::alloc::Global;
use test_picker::Marks;

// The line of a case.
fn push_input(alloc: Global, out: &mut Vec<u8>, entry: &Name, case: &Case) -> Result<(), NoMemory>
    ensures { OnOk result (out.new.items ≡ out.old.items ++ input_line entry.now case.now.values) }
{
    out.extend_from_slice(b"input ")?;
    out.extend_from_slice(entry.bytes())?;
    out.extend_from_slice(b"(")?;
    out.extend_from_slice(print_case(alloc, case)?.as_slice())?;
    out.extend_from_slice(b")\n")?;
    Ok(())
}

// What a mark says.
fn mark_text(alloc: Global, mark: u32) -> Result<Vec<u8>, NoMemory>
    ensures { IfOk result (λ v. v.items ≡ mark_text mark) }
{
    if mark == 0 {
        return Ok(b" agrees\n".to_vec(alloc)?);
    }
    let text = format!(in alloc; " fails input {mark}\n")?;
    Ok(text.into_bytes())
}

// A line for each submission.
fn push_marks(
    alloc: Global,
    out: &mut Vec<u8>,
    files: &[String],
    marks: &[u32],
) -> Result<(), NoMemory>
    requires { length marks.now ≡ length files.now }
    ensures { OnOk result (out.new.items ≡ out.old.items
        ++ mark_lines (map string_bytes files.now) marks.now) }
{
    for (i, file) in files.iter().enumerate() {
        out.extend_from_slice(file.as_bytes())?;
        out.extend_from_slice(mark_text(alloc, marks[i])?.as_slice())?;
    }
    Ok(())
}

/// The lines of cases and marks.
pub(crate) fn pick_text(
    alloc: Global,
    entry: &Name,
    cases: &Cases,
    files: &[String],
    marks: &Marks,
) -> Result<Vec<u8>, NoMemory>
    requires { length marks.now ≡ length files.now }
    ensures { IfOk result (λ v. v.items ≡ flat_map (input_line entry.now) (inputs_of cases.now)
        ++ mark_lines (map string_bytes files.now) marks.now) }
{
    let mut out = Vec::new(alloc);
    for case in cases.items() {
        push_input(alloc, &mut out, entry, case)?;
    }
    push_marks(alloc, &mut out, files, marks.items())?;
    Ok(out)
}
