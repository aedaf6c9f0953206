//! The files of the command.
ghost use Rattle.std.specs.Prelude.{◌≡◌, ◌≤◌, ◌+◌, IfErr, IfOk, OnOk, length, map};
ghost use Rattle.mpy_tree.specs.declared.refusal.Source.TheVariants as source;
ghost use Rattle.source_files.specs.Fetches.{FetchedAll, FetchesInOrder, IsLongSource, OnRefused};
ghost use Rattle.source_files.specs.Fetches.{ReadFaults};
ghost use Rattle.source_files.specs.Files.{file as source_file, sources_of};
ghost use Rattle.source_files.specs.Texts.{AllFit, AreHeld};
ghost use Rattle.source_files.specs.Views.{file_of, texts_of};
ghost use Rattle.grade_io.specs.Kept.{FilesLeft};
ghost use Rattle.pick_command.specs.Commands.{pick_files, pick_word};
ghost use Rattle.pick_command.specs.Decisions.{first_place};
ghost use Rattle.pick_command.specs.Requests.{pick_of};

use crate::NoMemory;
use crate::words::PickWords;
use grade_io::Shelf;
use mpy_tree::Source;
use source_files::{File, Stop, fetch_all};
use std::alloc::Global;

/// The place of the first submission among the words.
pub(crate) const FIRST_PLACE: u32 = 3;

/// The source of a submission, counted from 0.
pub(crate) fn submission(i: usize) -> Source
    requires { i ≤ 1000 }
    ensures { result ≡ source.Word (first_place + i) }
{
    Source::Word(FIRST_PLACE + i as u32)
}

fn file(source: Source, word: &str) -> File<'_>
    ensures { file_of result ≡ source_file source word.now }
{
    File { source, word }
}

// The files in the order of the words.
fn files<'a>(alloc: Global, words: &PickWords<'a>) -> Result<Vec<File<'a>>, NoMemory>
    requires { length words.now.submissions.now ≤ 16 }
    ensures { IfOk result (λ v. map file_of v.items ≡ pick_files (pick_of words.now)) }
{
    let mut files = Vec::new(alloc);
    files.push(file(Source::Bounds, words.bounds))?;
    files.push(file(Source::Reference, words.reference))?;
    for (i, word) in words.submissions.iter().enumerate() {
        let source = submission(i);
        let next = file(source, word.as_str());
        files.push(next)?;
    }
    Ok(files)
}

/// The texts of the bounds and of the programs.
pub(crate) fn fetch<S: Shelf>(
    alloc: Global,
    words: &PickWords<'_>,
    shelf: &mut S,
) -> Result<Vec<Vec<u8>>, Stop>
    requires { length words.now.submissions.now ≤ 16 }
    ensures fit { IfOk result (λ v. AllFit (sources_of (pick_files (pick_of words.now)))
        (texts_of v.items)) }
    ensures held { IfOk result (λ v. AreHeld (S.seen shelf.old) (pick_files (pick_of words.now))
        (texts_of v.items)) }
    ensures long { IfErr result (OnRefused (IsLongSource (pick_files (pick_of words.now))
        (S.seen shelf.old) (S.seen shelf.new))) }
    ensures calls { FetchesInOrder (pick_files (pick_of words.now)) (S.seen shelf.old)
        (S.seen shelf.new) }
    ensures all { OnOk result (FetchedAll (pick_files (pick_of words.now)) (S.seen shelf.old)
        (S.seen shelf.new)) }
    ensures kept { FilesLeft (S.seen shelf.old) (S.seen shelf.new) }
    ensures faults { ReadFaults result (S.seen shelf.old) (S.seen shelf.new) }
{
    let files = files(alloc, words)?;
    fetch_all(alloc, files.as_slice(), shelf)
}

/// The word that names a source.
pub(crate) fn word<'a>(words: &PickWords<'a>, source: Source) -> &'a str
    ensures { result.now ≡ pick_word (pick_of words.now) source }
{
    match source {
        Source::Bounds => words.bounds,
        Source::Reference => words.reference,
        Source::Word(n) => match words
            .submissions
            .get(n.saturating_sub(FIRST_PLACE) as usize)
        {
            Some(word) => word.as_str(),
            None => "",
        },
        Source::Submission | Source::Rules | Source::Cert => "",
    }
}
