//! Faults of columns.
ghost use Rattle.std.specs.Prelude.{◌≡◌, [], IfOk};
ghost use Rattle.mpy_parser.specs.Faults.{indent_fault, is_indent_fault};
ghost use Rattle.mpy_parser.specs.Open.{past, ends_at};

use crate::NoMemory;
use crate::stacks::Stack;
use mpy_lexer::Line;
use std::alloc::Global;

// Takes the deeper columns away.
#[tactic(auto, using(crate::proofs::Falls::columns))]
fn close(above: &mut Stack<u32>, column: u32)
    ensures { above.new ≡ past column above.old }
{
    while let Some(nearest) = above.top() {
        if nearest <= column {
            return;
        }
        let _ = above.pop();
    }
}

fn ends_at(above: &Stack<u32>, column: u32) -> bool
    ensures { result ≡ ends_at column above.now }
{
    match above.top() {
        None => false,
        Some(nearest) => column == nearest,
    }
}

// Whether the column is at fault below the open ones; the deeper ones are taken away.
#[tactic(auto, using(crate::proofs::Falls::indents))]
fn is_at_fault(above: &mut Stack<u32>, column: u32) -> bool
    ensures answer { result ≡ is_indent_fault column above.old }
    ensures left { above.new ≡ past column above.old }
{
    match above.top() {
        None => 0 < column,
        Some(nearest) => {
            close(above, column);
            column < nearest && !ends_at(above, column)
        }
    }
}

/// The first line whose column is at fault: the first line of all, if its column isn't 0, or one
/// that falls to a column that no line above it opened.
///
/// Takes time and memory linear in the number of lines.
#[tactic(auto, using(crate::proofs::Falls::column_faults))]
pub(crate) fn indent_fault(alloc: Global, lines: &[Line]) -> Result<Option<u32>, NoMemory>
    ensures { IfOk result (λ r. r ≡ indent_fault [] lines.now) }
{
    let mut above = Stack::new(alloc);
    let mut rest = lines;
    while let [line, behind @ ..] = rest {
        if is_at_fault(&mut above, line.column) {
            return Ok(Some(line.line));
        }
        above.push(line.column)?;
        rest = behind;
    }
    Ok(None)
}
