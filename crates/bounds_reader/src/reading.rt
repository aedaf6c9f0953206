//! Bounds read from their text.
ghost use Rattle.std.specs.Prelude.{◌≡◌, ◌≤◌, ◌<◌, ◌^◌, ℕ, None, length, map, OnOk, IfOk, IfErr};
ghost use Rattle.mpy_tree.specs.declared.refusal.Cause.{Cause as AnyCause};
ghost use Rattle.bounds_reader.specs.declared.bounds.Bounds.{Bounds as AnyBounds};
ghost use Rattle.bounds_reader.specs.declared.place.Place.TheVariants as place;
ghost use Rattle.bounds_reader.specs.Files.{byte_fault, SpellItems, SpellsFile, items_of, IsBounds};
ghost use Rattle.bounds_reader.specs.Files.{IsRefused, IsAnswered};
ghost use Rattle.bounds_reader.specs.Files.{IsGiven, IsRefusal};
ghost use Rattle.bounds_reader.specs.Views.{file_view, is_whole, IsMisspelled};

use crate::NoMemory;
use crate::bounds::Bounds;
use crate::bounds_error::BoundsError;
use crate::building::bounds_from;
use crate::file::File;
use crate::foreign::byte_fault;
use crate::lines::text_lines;
use crate::place::Place;
use crate::ranges::{limit_fault, range_fault};
use mpy_tree::Cause;
use std::alloc::Global;

fn is_whole(due: Place) -> bool
    ensures { result ≡ is_whole due }
{
    matches!(due, Place::Param | Place::End)
}

// What the lines say, if each is the one that is expected and none is missing.
fn file_of(alloc: Global, lines: &[&[u8]]) -> Result<File, BoundsError>
    requires { length lines.now < 2 ^ 31 }
    ensures whole { IfOk result (λ f. SpellItems place.Width 1 (map (λ l. l.now) lines.now)
        (items_of (file_view f))) }
    ensures misspelled { IfErr result (IsMisspelled (map (λ l. l.now) lines.now)) }
{
    let mut file = File::new(alloc);
    for (i, line) in lines.iter().enumerate() {
        let number = i as u32 + 1;
        if !file.take(alloc, number, line)? {
            return Err(BoundsError::Fault {
                cause: Cause::Syntax,
                line: number,
            });
        }
    }
    if is_whole(file.due) {
        Ok(file)
    } else {
        Err(BoundsError::Fault {
            cause: Cause::Syntax,
            line: lines.len() as u32 + 1,
        })
    }
}

// What a text without faulty bytes says.
fn file_from(alloc: Global, bytes: &[u8]) -> Result<File, BoundsError>
    requires { length bytes.now ≤ 1073741824 }
    ensures spelled { IfOk result (λ f. SpellsFile bytes.now (file_view f)) }
    ensures bytes { OnOk result (byte_fault bytes.now ≡ None) }
    ensures refused { IfErr result (IsAnswered bytes.now) }
{
    let lines = text_lines(alloc, bytes)?;
    match byte_fault(&lines) {
        None => file_of(alloc, &lines),
        Some(line) => {
            let cause = Cause::Byte;
            Err(BoundsError::Fault { cause, line })
        }
    }
}

// One step after another, each over the whole text.
fn parse(alloc: Global, bytes: &[u8]) -> Result<Bounds, BoundsError>
    requires { length bytes.now ≤ 1073741824 }
    ensures read { IfOk result (IsBounds bytes.now) }
    ensures refused { IfErr result (IsAnswered bytes.now) }
{
    let file = file_from(alloc, bytes)?;
    if let Some(line) = limit_fault(&file) {
        let cause = Cause::Limit;
        return Err(BoundsError::Fault { cause, line });
    }
    if let Some(line) = range_fault(&file) {
        let cause = Cause::BoundRange;
        return Err(BoundsError::Fault { cause, line });
    }
    Ok(bounds_from(alloc, file)?)
}

/// Reads bounds from their text, of at most 1,073,741,824 bytes.
///
/// The text is refused by the first cause that stands in it, each looked for in the whole text
/// before the next: `Byte`; `Syntax` on the first line that isn't the expected one, or behind the
/// last line where lines are missing; `Limit` for a name of more than 40 bytes or a fifth
/// parameter; `BoundRange` for a number out of its range. Takes time linear in the text.
pub fn read_bounds(alloc: Global, bytes: &[u8]) -> Result<Bounds, BoundsError>
    requires { length bytes.now ≤ 1073741824 }
    ensures read { IfOk result (IsBounds bytes.now) }
    ensures refused { IfErr result (IsAnswered bytes.now) }
    ensures bounds { (b : AnyBounds) → IsBounds bytes.now b → IsGiven b result }
    ensures refusal { (c : AnyCause) (line : ℕ)
        → IsRefused bytes.now c line → IsRefusal c line result }
{
    parse(alloc, bytes)
}
