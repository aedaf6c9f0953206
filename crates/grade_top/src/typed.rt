//! A typed program.
ghost use Rattle.std.specs.Prelude.{MatchResult};
ghost use Rattle.mpy_tree.specs.declared.refusal.Source.{Source as AnySource};
ghost use Rattle.source_files.specs.Fetches.{StopsAs};
ghost use Rattle.source_files.specs.Texts.{Fits};
ghost use Rattle.input_space.specs.Tasks.{entry_at};
ghost use Rattle.task_read.specs.Sources.{program_step};
ghost use Rattle.grade_top.specs.Views.{typed_of};

use bounds_reader::Bounds;
use mpy_tree::{Prog, Source, Types};
use source_files::Stop;
use std::alloc::Global;
use task_read::read_program;

/// A program, and the types of its names and results.
#[derive(Drop)]
pub(crate) struct Typed {
    pub(crate) program: Prog,
    pub(crate) types: Types,
}

/// The typed program that a text spells.
pub(crate) fn read_typed(
    alloc: Global,
    bounds: &Bounds,
    text: &[u8],
    source: Source,
) -> Result<Typed, Stop>
    requires { Fits source text.now }
    ensures { MatchResult result
        (λ p. (program_step source text.now (entry_at bounds.now)).gives (typed_of p))
        (StopsAs (program_step source text.now (entry_at bounds.now)).refuses) }
{
    let (program, types) = read_program(alloc, bounds, text, source)?;
    Ok(Typed { program, types })
}
