//! The texts of files, fetched in order.
ghost use Rattle.std.specs.Prelude.{◌≡◌, ◌∷◌, ◌++◌, [], map, IfErr, IfOk, OnOk};
ghost use Rattle.grade_io.specs.Devices.{Fetch};
ghost use Rattle.grade_io.specs.Kept.{FilesLeft, Holds};
ghost use Rattle.source_files.specs.Fetches.{FetchedAll, FetchesInOrder, IsLongFile, IsLongSource};
ghost use Rattle.source_files.specs.Fetches.{MadeOneFetch, OnRefused, ReadFaults, stop_of};
ghost use Rattle.source_files.specs.Files.{sources_of};
ghost use Rattle.source_files.specs.Texts.{AllFit, AreHeld, Fits};
ghost use Rattle.source_files.specs.Views.{file_of, texts_of};

use crate::file::{File, limit_of};
use crate::stop::{Stop, refused};
use grade_io::{FetchError, Shelf};
use mpy_tree::{Cause, NoMemory, Source};
use std::alloc::Global;

// What stops at a source whose fetch gave this error.
fn stop(source: Source, error: FetchError) -> Stop
    ensures { result ≡ stop_of source error }
{
    match error {
        FetchError::Failed => Stop::Failed,
        FetchError::Long => refused(source, Cause::Long, 0),
        FetchError::NoMemory => Stop::NoMemory,
    }
}

// The text of a file.
fn fetch<S: Shelf>(alloc: Global, file: &File<'_>, shelf: &mut S) -> Result<Vec<u8>, Stop>
    ensures fit { IfOk result (λ v. Fits file.now.source v.items) }
    ensures held { IfOk result (λ v. Holds (S.seen shelf.old) file.now.word.now v.items) }
    ensures long { IfErr result (OnRefused (IsLongFile (file_of file.now)
        (S.seen shelf.old) (S.seen shelf.new))) }
    ensures calls { MadeOneFetch result (Fetch file.now.word.now) (S.seen shelf.old).calls
        (S.seen shelf.new).calls }
    ensures kept { FilesLeft (S.seen shelf.old) (S.seen shelf.new) }
    ensures faults { ReadFaults result (S.seen shelf.old) (S.seen shelf.new) }
{
    match shelf.fetch(alloc, file.word, limit_of(file.source)) {
        Ok(bytes) => Ok(bytes),
        Err(e) => Err(stop(file.source, e)),
    }
}

// One text more.
fn push(texts: &mut Vec<Vec<u8>>, text: Vec<u8>) -> Result<(), NoMemory>
    ensures { OnOk result (texts.new.items ≡ texts.old.items ++ text ∷ []) }
{
    texts.push(text)?;
    Ok(())
}

/// Fetches the files in order, until one isn't had.
///
/// # Errors
///
/// The refusal of a file that is longer than its source may be; that a fetch failed; or want of
/// memory.
pub fn fetch_all<S: Shelf>(
    alloc: Global,
    files: &[File<'_>],
    shelf: &mut S,
) -> Result<Vec<Vec<u8>>, Stop>
    ensures fit { IfOk result (λ v. AllFit (sources_of (map file_of files.now))
        (texts_of v.items)) }
    ensures held { IfOk result (λ v. AreHeld (S.seen shelf.old) (map file_of files.now)
        (texts_of v.items)) }
    ensures long { IfErr result (OnRefused (IsLongSource (map file_of files.now)
        (S.seen shelf.old) (S.seen shelf.new))) }
    ensures calls { FetchesInOrder (map file_of files.now) (S.seen shelf.old) (S.seen shelf.new) }
    ensures all { OnOk result (FetchedAll (map file_of files.now) (S.seen shelf.old)
        (S.seen shelf.new)) }
    ensures kept { FilesLeft (S.seen shelf.old) (S.seen shelf.new) }
    ensures faults { ReadFaults result (S.seen shelf.old) (S.seen shelf.new) }
{
    let mut texts = Vec::new(alloc);
    for file in files {
        let text = fetch(alloc, file, shelf)?;
        push(&mut texts, text)?;
    }
    Ok(texts)
}
