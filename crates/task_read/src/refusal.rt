//! The line of a refusal.
ghost use Rattle.std.specs.Prelude.{◌≡◌, IfOk};
ghost use Rattle.mpy_tree.specs.Refusals.{refusal_text};

use grade_io::refusal_line;
use mpy_tree::{NoMemory, Refusal};
use std::alloc::Global;

/// The line that is written for a refusal of a file, by the word that names the file.
pub fn refusal_text(alloc: Global, file: &str, r: &Refusal) -> Result<Vec<u8>, NoMemory>
    ensures { IfOk result (λ v. v.items ≡ refusal_text file.now r.now) }
{
    refusal_line(alloc, file, r.line, r.cause.name())
}
