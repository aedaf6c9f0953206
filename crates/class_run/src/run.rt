//! A class, from its files to its status.
ghost use Rattle.std.specs.Prelude.{◌≡◌, ℕ, List, codes, map};
ghost use Rattle.grade_io.specs.Devices.{devices};
ghost use Rattle.grade_io.specs.Kept.{FilesLeft};
ghost use Rattle.grade_io.specs.Words.{refusal_line};
ghost use Rattle.mpy_tree.specs.declared.refusal.Refusal.{Refusal as AnyRefusal};
ghost use Rattle.mpy_tree.specs.Refusals.{refusal_text};
ghost use Rattle.source_files.specs.Files.{sources_of};
ghost use Rattle.source_files.specs.Texts.{IsTooLong, Tells};
ghost use Rattle.class_text.specs.EntryViews.{entry_of};
ghost use Rattle.class_text.specs.Reports.{class_text};
ghost use Rattle.class_text.specs.Listings.{Lists, StopsAt};
ghost use Rattle.class_run.specs.Classes.{Shared, files_of, word_of};
ghost use Rattle.class_run.specs.Claims.{AreTold, IsDone, IsSaid};
ghost use Rattle.class_run.specs.Ends.{CallsInOrder, Ends};
ghost use Rattle.class_run.specs.Says.{Says};
ghost use Rattle.class_run.specs.Stops.{IsTold};
ghost use Rattle.class_run.specs.Views.{class_with, names_of};

use crate::files::ClassFiles;
use crate::find::find_entries;
use crate::grader::Grader;
use crate::status::ClassStatus;
use crate::stop::ClassStop;
use crate::writing::say;
use class_text::{Entry, class_text, one_listing};
use grade_io::{Shelf, Sink, refusal_line};
use mpy_tree::{Refusal, Source};
use std::alloc::Global;

/// The word that names a file.
fn word<'a>(files: &ClassFiles<'a>, source: Source) -> &'a str
    ensures { result.now ≡ word_of (names_of files.now) source }
{
    match source {
        Source::Bounds => files.bounds,
        Source::Reference => files.reference,
        Source::Rules => files.rules,
        Source::Submission => files.list,
        Source::Cert | Source::Word(_) => "",
    }
}

/// Writes the line of a refusal of a file.
fn say_refusal<K: Sink>(
    alloc: Global,
    word: &str,
    line: u32,
    cause: &str,
    out: &mut K,
) -> ClassStatus
    ensures { Says (refusal_line word.now line cause.now) ClassStatus.Refused (K.seen out.old)
        (K.seen out.new) result }
{
    match refusal_line(alloc, word, line, cause) {
        Ok(text) => say(out, text.as_slice(), ClassStatus::Refused),
        Err(_) => ClassStatus::NoMemory,
    }
}

/// Writes the report of a class.
fn say_entries<K: Sink>(alloc: Global, entries: Vec<Entry>, out: &mut K) -> ClassStatus
    ensures { Says (class_text (map entry_of entries.items)) ClassStatus.Done (K.seen out.old)
        (K.seen out.new) result }
{
    match class_text(alloc, entries) {
        Ok(text) => say(out, text.as_bytes(), ClassStatus::Done),
        Err(_) => ClassStatus::NoMemory,
    }
}

/// Writes what was found of a class.
fn tell<K: Sink>(
    alloc: Global,
    files: &ClassFiles<'_>,
    found: Result<Vec<Entry>, ClassStop>,
    out: &mut K,
) -> ClassStatus
    ensures { IsTold (names_of files.now) found (K.seen out.old) (K.seen out.new) result }
{
    match found {
        Ok(entries) => say_entries(alloc, entries, out),
        Err(ClassStop::LongFile(r)) => {
            say_refusal(alloc, word(files, r.source), r.line, r.cause.name(), out)
        }
        Err(ClassStop::NoList(line)) => say_refusal(alloc, files.list, line, "Listing", out),
        Err(ClassStop::Failed) => ClassStatus::ReadFailed,
        Err(ClassStop::NoMemory) => ClassStatus::NoMemory,
    }
}

/// Grades a class: the four files are fetched in order, and then each file that the list names, to
/// which the grader has an entry; the report of the entries is written. Nothing is stored.
pub fn run_class<G: Grader, S: Shelf, K: Sink>(
    alloc: Global,
    files: &ClassFiles<'_>,
    grader: &G,
    shelf: &mut S,
    out: &mut K,
) -> ClassStatus
    // What the status means, and what stands in the output.
    ensures ends { Ends (class_with files.now (G.tells grader.now))
        (devices (S.seen shelf.old) (K.seen out.old))
        (devices (S.seen shelf.new) (K.seen out.new)) result }
    // The fetches of the four files and of the listed ones, in order, each once, up to some point.
    ensures calls { CallsInOrder (names_of files.now) (S.seen shelf.old) (S.seen shelf.new) }
    ensures left { FilesLeft (S.seen shelf.old) (S.seen shelf.new) }
    // A class whose list is of its form has its entries, unless a fetch of the four files or a put
    // failed or memory lacked.
    ensures done { (t : Shared) (list : List ℕ) (names : List (List ℕ))
        → AreTold (names_of files.now) (S.seen shelf.old) t list → Lists list names
        → IsDone (class_with files.now (G.tells grader.now)) t names
        (devices (S.seen shelf.old) (K.seen out.old))
        (devices (S.seen shelf.new) (K.seen out.new)) result }
    // A list that isn't is refused at its first such line, and a file that is too long.
    ensures no_list { (t : Shared) (list : List ℕ) (line : ℕ)
        → AreTold (names_of files.now) (S.seen shelf.old) t list → StopsAt list line
        → IsSaid (refusal_line files.now.list.now line (codes "Listing")) ClassStatus.Refused
        (devices (S.seen shelf.old) (K.seen out.old))
        (devices (S.seen shelf.new) (K.seen out.new)) result }
    ensures long { (ts : List (List ℕ)) (r : AnyRefusal)
        → Tells (S.seen shelf.old) (files_of (names_of files.now)) ts
        → IsTooLong (sources_of (files_of (names_of files.now))) ts r
        → IsSaid (refusal_text (word_of (names_of files.now) r.source) r) ClassStatus.Refused
        (devices (S.seen shelf.old) (K.seen out.old))
        (devices (S.seen shelf.new) (K.seen out.new)) result }
{
    one_listing();
    let found = find_entries(alloc, files, grader, shelf);
    tell(alloc, files, found, out)
}
