//! Logical lines by what they spell.
ghost use Rattle.std.specs.Prelude.{◌≡◌, Option, IfOk, IfErr, IfSome, IfNone};
ghost use Rattle.mpy_parser.specs.Programs.{IsItem, AreItems, NotSpelled, IsFirstUnspelled};
ghost use Rattle.mpy_parser.specs.Views.{line_of, lines_of};

use crate::NoMemory;
use crate::items::{Item, line_item};
use mpy_expressions::terminals_of;
use mpy_lexer::Line;
use std::alloc::Global;

/// A logical line: the physical line on which it begins, its column, and what it spells.
#[derive(Drop)]
pub struct Entry {
    pub line: u32,
    pub column: u32,
    pub item: Item,
}

// The entry of a line, if it spells an item.
fn make_entry(alloc: Global, line: &Line) -> Result<Option<Entry>, NoMemory>
    ensures some { IfOk result (λ r. IfSome r (λ e. IsItem line.now (line_of e))) }
    ensures none { IfOk result (λ r. IfNone r (NotSpelled line.now)) }
{
    let seen = terminals_of(alloc, line.tokens.items())?;
    match line_item(alloc, &seen)? {
        None => Ok(None),
        Some(item) => Ok(Some(Entry {
            line: line.line,
            column: line.column,
            item,
        })),
    }
}

/// The entries of all lines, or the line of the first that spells no item.
pub(crate) fn entries(alloc: Global, lines: &[Line]) -> Result<Result<Vec<Entry>, u32>, NoMemory>
    ensures ok { IfOk result (λ r. IfOk r (λ v. AreItems lines.now (lines_of v.items))) }
    ensures err { IfOk result (λ r. IfErr r (λ line. IsFirstUnspelled lines.now line)) }
{
    let mut found = Vec::new(alloc);
    for line in lines {
        let Some(entry) = make_entry(alloc, line)? else {
            return Ok(Err(line.line));
        };
        found.push(entry)?;
    }
    Ok(Ok(found))
}
