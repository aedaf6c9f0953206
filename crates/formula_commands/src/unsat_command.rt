//! The command `unsat`.
ghost use Rattle.std.specs.Prelude.{◌≡◌, ℕ, List, [], ◌∷◌, length, IfErr, IfOk, OnOk};
ghost use Rattle.file_commands.specs.Calls.{CallsInOrder};
ghost use Rattle.file_commands.specs.Claims.{AreTold, IsSaid, NoFault};
ghost use Rattle.file_commands.specs.Commands.{Refused};
ghost use Rattle.file_commands.specs.Ends.{ComesOfFiles, Ends, IsFirstRefusal};
ghost use Rattle.file_commands.specs.Reports.{IsFound, ReportsFiles};
ghost use Rattle.formula_commands.specs.Claims.{IsJudged, TellsProved};
ghost use Rattle.formula_commands.specs.Commands.{unsat_command, unsat_files, unsat_sources};
ghost use Rattle.formula_commands.specs.Commands.{unsat_word};
ghost use Rattle.formula_commands.specs.Requests.{unsat_of};
ghost use Rattle.grade_io.specs.Devices.{devices};
ghost use Rattle.grade_io.specs.Kept.{FilesLeft};
ghost use Rattle.mpy_tree.specs.declared.refusal.Refusal.{Refusal as AnyRefusal};
ghost use Rattle.source_files.specs.Fetches.{FetchedAll, FetchesInOrder, IsLongSource, OnRefused};
ghost use Rattle.source_files.specs.Fetches.{ReadFaults};
ghost use Rattle.source_files.specs.Files.{file as source_file};
ghost use Rattle.source_files.specs.Texts.{AllFit, AreHeld, Tells};
ghost use Rattle.source_files.specs.Views.{file_of, texts_of};

use crate::NoMemory;
use crate::judging::report_text;
use crate::words::UnsatWords;
use file_commands::{Lines, Report, end};
use grade_io::{Shelf, Sink, Status, refusal_line};
use mpy_tree::{Refusal, Source};
use source_files::{File, Stop, fetch_all};
use std::alloc::Global;

fn file(source: Source, word: &str) -> File<'_>
    ensures { file_of result ≡ source_file source word.now }
{
    File { source, word }
}

// The texts of the formula and of the proof.
fn fetch<S: Shelf>(
    alloc: Global,
    words: &UnsatWords<'_>,
    shelf: &mut S,
) -> Result<Vec<Vec<u8>>, Stop>
    ensures fit { IfOk result (λ v. AllFit unsat_sources (texts_of v.items)) }
    ensures held { IfOk result (λ v. AreHeld (S.seen shelf.old) (unsat_files (unsat_of words.now))
        (texts_of v.items)) }
    ensures long { IfErr result (OnRefused (IsLongSource (unsat_files (unsat_of words.now))
        (S.seen shelf.old) (S.seen shelf.new))) }
    ensures calls { FetchesInOrder (unsat_files (unsat_of words.now)) (S.seen shelf.old)
        (S.seen shelf.new) }
    ensures all { OnOk result (FetchedAll (unsat_files (unsat_of words.now)) (S.seen shelf.old)
        (S.seen shelf.new)) }
    ensures kept { FilesLeft (S.seen shelf.old) (S.seen shelf.new) }
    ensures faults { ReadFaults result (S.seen shelf.old) (S.seen shelf.new) }
{
    let files = [
        file(Source::Word(1), words.cnf),
        file(Source::Cert, words.log),
    ];
    fetch_all(alloc, &files, shelf)
}

// What is written of what the texts decide.
fn report_texts(alloc: Global, words: &UnsatWords<'_>, texts: &[Vec<u8>]) -> Result<Report, Stop>
    requires two { length texts.now ≡ 2 }
    requires fit { AllFit unsat_sources (texts_of texts.now) }
    ensures { IsFound (unsat_command (unsat_of words.now)) (texts_of texts.now) result }
{
    let [cnf, proof] = texts else {
        unreachable!();
    };
    Ok(report_text(alloc, words, cnf.as_slice(), proof.as_slice())?)
}

// Fetches the formula and the proof, and judges.
fn find_report<S: Shelf>(
    alloc: Global,
    words: &UnsatWords<'_>,
    shelf: &mut S,
) -> Result<Report, Stop>
    ensures found { IfOk result (ReportsFiles (unsat_command (unsat_of words.now))
        (S.seen shelf.old) (S.seen shelf.new)) }
    ensures refused { IfErr result (OnRefused (λ r. ComesOfFiles
        (unsat_command (unsat_of words.now)) (S.seen shelf.old) (S.seen shelf.new)
        (Refused r))) }
    ensures calls { FetchesInOrder (unsat_files (unsat_of words.now)) (S.seen shelf.old)
        (S.seen shelf.new) }
    ensures all { OnOk result (FetchedAll (unsat_files (unsat_of words.now)) (S.seen shelf.old)
        (S.seen shelf.new)) }
    ensures kept { FilesLeft (S.seen shelf.old) (S.seen shelf.new) }
    ensures faults { ReadFaults result (S.seen shelf.old) (S.seen shelf.new) }
{
    let texts = fetch(alloc, words, shelf)?;
    report_texts(alloc, words, &texts)
}

// The word that names a source: the proof, or else the formula.
fn word<'a>(words: &UnsatWords<'a>, source: Source) -> &'a str
    ensures { result.now ≡ unsat_word (unsat_of words.now) source }
{
    match source {
        Source::Cert => words.log,
        Source::Bounds | Source::Reference | Source::Submission | Source::Rules | Source::Word(_) =>
            words.cnf,
    }
}

impl Lines for UnsatWords<'_> {
    ghost use Rattle.formula_commands.specs.Commands.{unsat_command};
    ghost use Rattle.formula_commands.specs.Requests.{unsat_of};

    ghost line_of = { λ w. (unsat_command (unsat_of w)).line };

    fn line(&self, alloc: Global, refusal: &Refusal) -> Result<Vec<u8>, NoMemory> {
        refusal_line(
            alloc,
            word(self, refusal.source),
            refusal.line,
            refusal.cause.name(),
        )
    }
}

/// Judges a proof that no values satisfy a formula, whatever wrote it: both files are fetched in
/// order, and what the proof shows is written. Nothing is stored.
pub fn unsat<S: Shelf, K: Sink>(
    alloc: Global,
    w: &UnsatWords<'_>,
    shelf: &mut S,
    out: &mut K,
) -> Status
    // What the status means, and what stands in the output and in the files.
    ensures ends { Ends (unsat_command (unsat_of w.now))
        (devices (S.seen shelf.old) (K.seen out.old))
        (devices (S.seen shelf.new) (K.seen out.new)) result }
    // The fetches of the formula and of the proof, in order, each once, up to some point.
    ensures calls { CallsInOrder (unsat_command (unsat_of w.now)) (S.seen shelf.old)
        (S.seen shelf.new) }
    // No values make each clause of the file true, for any bytes of the proof.
    ensures unsatisfiable { result ≡ Status.Correct → TellsProved (unsat_of w.now)
        (devices (S.seen shelf.old) (K.seen out.old))
        (devices (S.seen shelf.new) (K.seen out.new)) }
    // Texts of their forms are judged, unless a device failed or memory lacked; and any other text
    // is refused.
    ensures judged { (cnf proof : List ℕ)
        → AreTold (devices (S.seen shelf.old) (K.seen out.old)) (unsat_files (unsat_of w.now))
        (cnf ∷ proof ∷ [])
        → NoFault (devices (S.seen shelf.old) (K.seen out.old))
        (devices (S.seen shelf.new) (K.seen out.new))
        → IsJudged cnf proof result }
    // A text that is too long is refused, unless a device failed or memory lacked.
    ensures refused { (ts : List (List ℕ)) (r : AnyRefusal)
        → Tells (S.seen shelf.old) (unsat_files (unsat_of w.now)) ts
        → IsFirstRefusal (unsat_command (unsat_of w.now)) ts r
        → NoFault (devices (S.seen shelf.old) (K.seen out.old))
        (devices (S.seen shelf.new) (K.seen out.new))
        → IsSaid ((unsat_command (unsat_of w.now)).line r) Status.Refused (K.seen out.old)
        (K.seen out.new) result }
{
    let found = find_report(alloc, w, shelf);
    end(alloc, w, None, found, shelf, out)
}
