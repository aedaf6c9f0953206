//! What is found of a class.
ghost use Rattle.std.specs.Prelude.{◌≡◌, IfErr, IfOk, OnOk};
ghost use Rattle.grade_io.specs.Kept.{FilesLeft};
ghost use Rattle.source_files.specs.Fetches.{FetchedAll, FetchesInOrder, IsLongSource, OnRefused};
ghost use Rattle.source_files.specs.Fetches.{ReadFaults};
ghost use Rattle.source_files.specs.Files.{file as source_file, sources_of};
ghost use Rattle.source_files.specs.Texts.{AllFit, AreHeld};
ghost use Rattle.source_files.specs.Views.{file_of, texts_of};
ghost use Rattle.class_run.specs.Classes.{files_of};
ghost use Rattle.class_run.specs.Ends.{CallsInOrder};
ghost use Rattle.class_run.specs.Found.{CallsBehind, IsListed};
ghost use Rattle.class_run.specs.Stops.{IsFound};
ghost use Rattle.class_run.specs.Views.{class_with, names_of};

use crate::entries::Grading;
use crate::files::{ClassFiles, SharedTexts};
use crate::grader::Grader;
use crate::stop::ClassStop;
use class_text::{Entry, read_list};
use grade_io::Shelf;
use mpy_tree::Source;
use source_files::{File, Stop, fetch_all};
use std::alloc::Global;

fn file(source: Source, word: &str) -> File<'_>
    ensures { file_of result ≡ source_file source word.now }
{
    File { source, word }
}

/// The texts of the four files.
fn fetch<S: Shelf>(
    alloc: Global,
    files: &ClassFiles<'_>,
    shelf: &mut S,
) -> Result<Vec<Vec<u8>>, Stop>
    ensures fit { IfOk result (λ v. AllFit (sources_of (files_of (names_of files.now)))
        (texts_of v.items)) }
    ensures held { IfOk result (λ v. AreHeld (S.seen shelf.old) (files_of (names_of files.now))
        (texts_of v.items)) }
    ensures long { IfErr result (OnRefused (IsLongSource (files_of (names_of files.now))
        (S.seen shelf.old) (S.seen shelf.new))) }
    ensures calls { FetchesInOrder (files_of (names_of files.now)) (S.seen shelf.old)
        (S.seen shelf.new) }
    ensures all { OnOk result (FetchedAll (files_of (names_of files.now)) (S.seen shelf.old)
        (S.seen shelf.new)) }
    ensures left { FilesLeft (S.seen shelf.old) (S.seen shelf.new) }
    ensures faults { ReadFaults result (S.seen shelf.old) (S.seen shelf.new) }
{
    let files = [
        file(Source::Bounds, files.bounds),
        file(Source::Reference, files.reference),
        file(Source::Rules, files.rules),
        file(Source::Submission, files.list),
    ];
    fetch_all(alloc, &files, shelf)
}

/// The entries of the files that the list names, behind the texts of the four files.
fn grade_listed<G: Grader, S: Shelf>(
    alloc: Global,
    files: &ClassFiles<'_>,
    grader: &G,
    texts: &[Vec<u8>],
    shelf: &mut S,
) -> Result<Vec<Entry>, ClassStop>
    requires { AllFit (sources_of (files_of (names_of files.now))) (texts_of texts.now) }
    ensures listed { IsListed (class_with files.now (G.tells grader.now)) (texts_of texts.now)
        result (S.seen shelf.old) (S.seen shelf.new) }
    ensures calls { CallsBehind (texts_of texts.now) (S.seen shelf.old) (S.seen shelf.new) }
    ensures left { FilesLeft (S.seen shelf.old) (S.seen shelf.new) }
{
    let [bounds, reference, rules, list] = texts else {
        unreachable!();
    };
    let names = read_list(alloc, list)?;
    let grading = Grading {
        alloc,
        files,
        grader,
        shared: SharedTexts {
            bounds,
            reference,
            rules,
        },
    };
    Ok(grading.entries(&names, shelf)?)
}

/// The entries of a class, or why there are none.
pub(crate) fn find_entries<G: Grader, S: Shelf>(
    alloc: Global,
    files: &ClassFiles<'_>,
    grader: &G,
    shelf: &mut S,
) -> Result<Vec<Entry>, ClassStop>
    ensures found { IsFound (class_with files.now (G.tells grader.now)) result
        (S.seen shelf.old) (S.seen shelf.new) }
    ensures calls { CallsInOrder (names_of files.now) (S.seen shelf.old) (S.seen shelf.new) }
    ensures left { FilesLeft (S.seen shelf.old) (S.seen shelf.new) }
{
    let texts = fetch(alloc, files, shelf)?;
    grade_listed(alloc, files, grader, &texts, shelf)
}
