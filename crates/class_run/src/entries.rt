//! The entries of listed files.
ghost use Rattle.std.specs.Prelude.{◌≡◌, ◌⊎◌, ◌∷◌, [], IfOk, map};
ghost use Rattle.std.specs.String.{string_bytes};
ghost use Rattle.grade_io.specs.Devices.{Fetch, added};
ghost use Rattle.grade_io.specs.Kept.{FilesLeft};
ghost use Rattle.class_text.specs.EntryViews.{entry_of};
ghost use Rattle.class_run.specs.Classes.{IsRefusedLong, IsUnread};
ghost use Rattle.class_run.specs.Listed.{AreEntries, CountsIn, FetchesFirst, IsEntry};
ghost use Rattle.class_run.specs.Views.{AreShort, class_with, shared_of};

use crate::NoMemory;
use crate::files::{ClassFiles, SharedTexts};
use crate::grader::Grader;
use class_text::Entry;
use grade_io::{FetchError, Shelf, Status};
use mpy_tree::Source;
use source_files::limit_of;
use std::alloc::{AllocError, Global};

/// The entry of a file that couldn't be read.
fn unread(alloc: Global, name: &str) -> Result<Entry, NoMemory>
    ensures told { IfOk result (λ e. IsUnread (entry_of e)) }
    ensures file { IfOk result (λ e. string_bytes e.file ≡ name.now) }
{
    Ok(Entry {
        file: String::from_str(alloc, name)?,
        status: Status::ReadFailed,
        report: String::new(alloc),
        certificate: None,
    })
}

/// The entry of a file that is too long.
fn too_long(alloc: Global, name: &str) -> Result<Entry, NoMemory>
    ensures told { IfOk result (λ e. IsRefusedLong name.now (entry_of e)) }
    ensures file { IfOk result (λ e. string_bytes e.file ≡ name.now) }
{
    let line = 0u32;
    let cause = "Long";
    Ok(Entry {
        file: String::from_str(alloc, name)?,
        status: Status::Refused,
        report: format!(in alloc; "refused {name} line {line}: {cause}\n")?,
        certificate: None,
    })
}

/// What grades the listed files of a class, with the texts that all of them share.
#[derive(Clone, Copy)]
pub(crate) struct Grading<'a, G> {
    pub(crate) alloc: Global,
    pub(crate) files: &'a ClassFiles<'a>,
    pub(crate) grader: &'a G,
    pub(crate) shared: SharedTexts<'a>,
}

impl<G: Grader> Grading<'_, G> {
    /// The entry of a listed file, which is fetched.
    fn entry<S: Shelf>(&self, name: &str, shelf: &mut S) -> Result<Entry, NoMemory>
        requires { AreShort (shared_of self.now.shared) }
        ensures entry { IfOk result (λ e. IsEntry
            (class_with self.now.files.now (G.tells self.now.grader.now))
            (shared_of self.now.shared) (S.seen shelf.old) name.now (entry_of e)
            (S.seen shelf.old) (S.seen shelf.new)) }
        ensures call { ((S.seen shelf.new).calls
            ≡ added (S.seen shelf.old).calls (Fetch name.now ∷ []))
            ⊎ ((S.seen shelf.new).calls ≡ (S.seen shelf.old).calls) }
        ensures fault { CountsIn name.now (S.seen shelf.old) (S.seen shelf.new) }
        ensures left { FilesLeft (S.seen shelf.old) (S.seen shelf.new) }
    {
        match shelf.fetch(self.alloc, name, limit_of(Source::Submission)) {
            Ok(text) => self.grader.entry(self.alloc, &self.shared, name, text),
            Err(FetchError::Failed) => unread(self.alloc, name),
            Err(FetchError::Long) => too_long(self.alloc, name),
            Err(FetchError::NoMemory) => Err(AllocError),
        }
    }

    /// The entries of listed files, each fetched in its turn.
    pub(crate) fn entries<S: Shelf>(
        &self,
        names: &[String],
        shelf: &mut S,
    ) -> Result<Vec<Entry>, NoMemory>
        requires { AreShort (shared_of self.now.shared) }
        ensures entries { IfOk result (λ v. AreEntries
            (class_with self.now.files.now (G.tells self.now.grader.now))
            (shared_of self.now.shared) (S.seen shelf.old) (map string_bytes names.now)
            (map entry_of v.items) (S.seen shelf.old) (S.seen shelf.new)) }
        ensures calls { FetchesFirst (map string_bytes names.now) (S.seen shelf.old)
            (S.seen shelf.new) }
        ensures left { FilesLeft (S.seen shelf.old) (S.seen shelf.new) }
    {
        let mut entries = Vec::new(self.alloc);
        for name in names {
            let entry = self.entry(name.as_str(), shelf)?;
            entries.push(entry)?;
        }
        Ok(entries)
    }
}
