//! A program's text in the standard layout.
ghost use Rattle.std.specs.Prelude.{◌≡◌, ◌≤◌, IfOk, IfErr, List, length};
ghost use Rattle.mpy_tree.specs.Printing.{program_text};
ghost use Rattle.mpy_tree.specs.Syntax.{Routine};
ghost use Rattle.mpy_parser.specs.Programs.{IsAnswered, IsProgram};

use mpy_parser::{ReadError, read_prog};
use mpy_printer::print_prog;
use std::alloc::Global;

/// The text of the program that the bytes spell, in the standard layout.
///
/// # Errors
///
/// The first cause for which the bytes spell no program, with its line, and want of memory.
pub(crate) fn formatted(alloc: Global, bytes: &[u8]) -> Result<Vec<u8>, ReadError>
    requires { length bytes.now ≤ 1073741824 }
    ensures text { IfOk result (λ v. (rs : List Routine) × (IsProgram bytes.now rs × (v.items
        ≡ program_text rs))) }
    ensures refused { IfErr result (IsAnswered bytes.now) }
{
    let program = read_prog(alloc, bytes)?;
    Ok(print_prog(alloc, &program)?)
}
