//! The command `run`.
ghost use Rattle.std.specs.Prelude.{◌≡◌, IfErr, IfOk, MatchResult, OnOk, length};
ghost use Rattle.grade_io.specs.Devices.{devices};
ghost use Rattle.grade_io.specs.Kept.{FilesLeft};
ghost use Rattle.source_files.specs.Fetches.{FetchedAll, FetchesInOrder, IsLongSource, OnRefused};
ghost use Rattle.source_files.specs.Fetches.{ReadFaults, StopsAs};
ghost use Rattle.source_files.specs.Files.{file as source_file, sources_of};
ghost use Rattle.source_files.specs.Texts.{AllFit, AreHeld};
ghost use Rattle.source_files.specs.Views.{file_of, texts_of};
ghost use Rattle.file_commands.specs.Calls.{CallsInOrder};
ghost use Rattle.file_commands.specs.Commands.{Refused};
ghost use Rattle.file_commands.specs.Ends.{ComesOfFiles, Ends};
ghost use Rattle.file_commands.specs.Reports.{IsFound, ReportsFiles};
ghost use Rattle.grade_top.specs.Commands.{run_command as command_run, run_files, run_word};
ghost use Rattle.grade_top.specs.Decisions.{run_step};
ghost use Rattle.grade_top.specs.Reports.{value_refusal_text};
ghost use Rattle.grade_top.specs.Requests.{run_of};

use crate::report::run_text;
use crate::typed::read_typed;
use crate::values::read_values;
use crate::words::RunWords;
use file_commands::{Lines, Report, end};
use grade_io::{Shelf, Sink, Status};
use mpy_interp::run;
use mpy_tree::{Cause, NoMemory, Outcome, Refusal, Source};
use source_files::{File, Stop, fetch_all, refused};
use std::alloc::Global;
use task_read::{read_task_bounds, refusal_text};

fn file(source: Source, word: &str) -> File<'_>
    ensures { file_of result ≡ source_file source word.now }
{
    File { source, word }
}

/// The texts of the bounds and of the program.
fn fetch<S: Shelf>(alloc: Global, words: &RunWords<'_>, shelf: &mut S) -> Result<Vec<Vec<u8>>, Stop>
    ensures fit { IfOk result (λ v. AllFit (sources_of (run_files (run_of words.now)))
        (texts_of v.items)) }
    ensures held { IfOk result (λ v. AreHeld (S.seen shelf.old) (run_files (run_of words.now))
        (texts_of v.items)) }
    ensures long { IfErr result (OnRefused (IsLongSource (run_files (run_of words.now))
        (S.seen shelf.old) (S.seen shelf.new))) }
    ensures calls { FetchesInOrder (run_files (run_of words.now)) (S.seen shelf.old)
        (S.seen shelf.new) }
    ensures all { OnOk result (FetchedAll (run_files (run_of words.now)) (S.seen shelf.old)
        (S.seen shelf.new)) }
    ensures kept { FilesLeft (S.seen shelf.old) (S.seen shelf.new) }
    ensures faults { ReadFaults result (S.seen shelf.old) (S.seen shelf.new) }
{
    let files = [
        file(Source::Bounds, words.bounds),
        file(Source::Reference, words.program),
    ];
    fetch_all(alloc, &files, shelf)
}

/// How the program of the texts ends on the values.
fn outcome(alloc: Global, words: &RunWords<'_>, texts: &[Vec<u8>]) -> Result<Outcome, Stop>
    requires two { length texts.now ≡ 2 }
    requires fit { AllFit (sources_of (run_files (run_of words.now))) (texts_of texts.now) }
    ensures { MatchResult result (run_step (run_of words.now) (texts_of texts.now)).gives
        (StopsAs (run_step (run_of words.now) (texts_of texts.now)).refuses) }
{
    let [bounds, program] = texts else {
        unreachable!();
    };
    let bounds = read_task_bounds(alloc, bounds)?;
    let typed = read_typed(alloc, &bounds, program, Source::Reference)?;
    if words.values.len() != bounds.params.items().len() {
        return Err(refused(Source::Bounds, Cause::Entry, bounds.entry_line));
    }
    let values = read_values(alloc, bounds.params.items(), words.values)?;
    let (program, types) = (&typed.program, &typed.types);
    Ok(run(
        alloc,
        program,
        types,
        &bounds.limits,
        &bounds.entry,
        &values,
    )?)
}

/// What is written of a run.
fn report_texts(alloc: Global, words: &RunWords<'_>, texts: &[Vec<u8>]) -> Result<Report, Stop>
    requires two { length texts.now ≡ 2 }
    requires fit { AllFit (sources_of (run_files (run_of words.now))) (texts_of texts.now) }
    ensures { IsFound (command_run (run_of words.now)) (texts_of texts.now) result }
{
    let outcome = outcome(alloc, words, texts)?;
    let text = run_text(alloc, &outcome)?;
    Ok(Report {
        status: Status::Correct,
        text,
        kept: None,
    })
}

/// Fetches the files, and runs the program.
fn find_report<S: Shelf>(alloc: Global, words: &RunWords<'_>, shelf: &mut S) -> Result<Report, Stop>
    ensures found { IfOk result (ReportsFiles (command_run (run_of words.now))
        (S.seen shelf.old) (S.seen shelf.new)) }
    ensures refused { IfErr result (OnRefused (λ r. ComesOfFiles (command_run (run_of words.now))
        (S.seen shelf.old) (S.seen shelf.new) (Refused r))) }
    ensures calls { FetchesInOrder (run_files (run_of words.now)) (S.seen shelf.old)
        (S.seen shelf.new) }
    ensures all { OnOk result (FetchedAll (run_files (run_of words.now)) (S.seen shelf.old)
        (S.seen shelf.new)) }
    ensures kept { FilesLeft (S.seen shelf.old) (S.seen shelf.new) }
    ensures faults { ReadFaults result (S.seen shelf.old) (S.seen shelf.new) }
{
    let texts = fetch(alloc, words, shelf)?;
    report_texts(alloc, words, &texts)
}

/// The word that names a source, if it is a file of the command.
fn word<'a>(words: &RunWords<'a>, source: Source) -> &'a str
    ensures { result.now ≡ run_word (run_of words.now) source }
{
    match source {
        Source::Bounds => words.bounds,
        Source::Reference => words.program,
        _ => "",
    }
}

/// The line of a refusal of a value, by its number.
fn value_line(alloc: Global, number: u32, cause: Cause) -> Result<Vec<u8>, NoMemory>
    ensures { IfOk result (λ v. v.items ≡ value_refusal_text number cause) }
{
    let text = format!(in alloc; "refused value {number}: {}\n", cause.name())?;
    Ok(text.into_bytes())
}

impl Lines for RunWords<'_> {
    ghost use Rattle.grade_top.specs.Commands.{run_command};
    ghost use Rattle.grade_top.specs.Requests.{run_of};

    ghost line_of = { λ w. (run_command (run_of w)).line };

    fn line(&self, alloc: Global, refusal: &Refusal) -> Result<Vec<u8>, NoMemory> {
        match refusal.source {
            Source::Word(number) => value_line(alloc, number, refusal.cause),
            source => refusal_text(alloc, word(self, source), refusal),
        }
    }
}

/// Runs a program on values: its files are fetched in order and read, and how it ends is written.
pub(crate) fn run_command<S: Shelf, K: Sink>(
    alloc: Global,
    words: &RunWords<'_>,
    shelf: &mut S,
    out: &mut K,
) -> Status
    ensures ends { Ends (command_run (run_of words.now))
        (devices (S.seen shelf.old) (K.seen out.old))
        (devices (S.seen shelf.new) (K.seen out.new)) result }
    ensures calls { CallsInOrder (command_run (run_of words.now)) (S.seen shelf.old)
        (S.seen shelf.new) }
{
    let found = find_report(alloc, words, shelf);
    end(alloc, words, None, found, shelf, out)
}
