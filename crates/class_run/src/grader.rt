//! What grades a listed file.
ghost use Rattle.std.specs.Prelude.{◌≡◌, ◌≢◌, ℕ, List, IfOk};
ghost use Rattle.std.specs.String.{string_bytes};
ghost use Rattle.mpy_tree.specs.declared.refusal.Source.TheVariants as source;
ghost use Rattle.source_files.specs.Texts.{Fits};
ghost use Rattle.class_text.specs.Entries.{Entry as AnyEntry};
ghost use Rattle.class_text.specs.EntryViews.{entry_of};
ghost use Rattle.class_run.specs.Classes.{Shared};
ghost use Rattle.class_run.specs.Views.{AreShort, shared_of};

use crate::NoMemory;
use crate::files::SharedTexts;
use class_text::Entry;
use grade_io::Status;
use std::alloc::Global;

/// What grades a listed file. `tells` is what may be told of one by the texts that all share, its
/// name and its own text.
pub trait Grader {
    ghost tells: { Self → Shared → List ℕ → List ℕ → AnyEntry → Type 0 };

    /// The entry of a file of this name and text.
    fn entry(
        &self,
        alloc: Global,
        shared: &SharedTexts<'_>,
        name: &str,
        text: Vec<u8>,
    ) -> Result<Entry, NoMemory>
        requires shared { AreShort (shared_of shared.now) }
        requires text { Fits source.Submission text.items }
        ensures told { IfOk result (λ e. tells self.now (shared_of shared.now) name.now text.items
            (entry_of e)) }
        ensures read { IfOk result (λ e. e.status ≢ Status.ReadFailed) }
        ensures file { IfOk result (λ e. string_bytes e.file ≡ name.now) };
}
