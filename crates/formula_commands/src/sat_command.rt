//! The command `sat`.
ghost use Rattle.std.specs.Prelude.{◌≡◌, ℕ, List, [], ◌∷◌, length, IfErr, IfOk, OnOk};
ghost use Rattle.file_commands.specs.Calls.{CallsInOrder};
ghost use Rattle.file_commands.specs.Claims.{AreTold, IsSaid, NoFault};
ghost use Rattle.file_commands.specs.Commands.{Refused};
ghost use Rattle.file_commands.specs.Ends.{ComesOfFiles, Ends, IsFirstRefusal};
ghost use Rattle.file_commands.specs.Reports.{IsFound, ReportsFiles};
ghost use Rattle.formula_commands.specs.Claims.{IsSolved, PrintsModel, StoresProof, StoresSteps};
ghost use Rattle.formula_commands.specs.Commands.{sat_command, sat_files, sat_sources};
ghost use Rattle.formula_commands.specs.Requests.{sat_of};
ghost use Rattle.grade_io.specs.Devices.{devices};
ghost use Rattle.grade_io.specs.Kept.{FilesLeft};
ghost use Rattle.mpy_tree.specs.declared.refusal.Refusal.{Refusal as AnyRefusal};
ghost use Rattle.source_files.specs.Fetches.{FetchedAll, FetchesInOrder, IsLongSource, OnRefused};
ghost use Rattle.source_files.specs.Fetches.{ReadFaults};
ghost use Rattle.source_files.specs.Texts.{AllFit, AreHeld, Tells};
ghost use Rattle.source_files.specs.Views.{texts_of};

use crate::NoMemory;
use crate::solving::report_text;
use crate::words::SatWords;
use file_commands::{Lines, Report, end};
use grade_io::{Shelf, Sink, Status, refusal_line};
use mpy_tree::{Refusal, Source};
use source_files::{File, Stop, fetch_all};
use std::alloc::Global;

// The text of the formula.
fn fetch<S: Shelf>(alloc: Global, words: &SatWords<'_>, shelf: &mut S) -> Result<Vec<Vec<u8>>, Stop>
    ensures fit { IfOk result (λ v. AllFit sat_sources (texts_of v.items)) }
    ensures held { IfOk result (λ v. AreHeld (S.seen shelf.old) (sat_files (sat_of words.now))
        (texts_of v.items)) }
    ensures long { IfErr result (OnRefused (IsLongSource (sat_files (sat_of words.now))
        (S.seen shelf.old) (S.seen shelf.new))) }
    ensures calls { FetchesInOrder (sat_files (sat_of words.now)) (S.seen shelf.old)
        (S.seen shelf.new) }
    ensures all { OnOk result (FetchedAll (sat_files (sat_of words.now)) (S.seen shelf.old)
        (S.seen shelf.new)) }
    ensures kept { FilesLeft (S.seen shelf.old) (S.seen shelf.new) }
    ensures faults { ReadFaults result (S.seen shelf.old) (S.seen shelf.new) }
{
    let files = [File {
        source: Source::Word(1),
        word: words.cnf,
    }];
    fetch_all(alloc, &files, shelf)
}

// What is written and kept of what the text decides.
fn report_texts(alloc: Global, words: &SatWords<'_>, texts: &[Vec<u8>]) -> Result<Report, Stop>
    requires one { length texts.now ≡ 1 }
    requires fit { AllFit sat_sources (texts_of texts.now) }
    ensures { IsFound (sat_command (sat_of words.now)) (texts_of texts.now) result }
{
    let [cnf] = texts else {
        unreachable!();
    };
    Ok(report_text(alloc, words, cnf.as_slice())?)
}

// Fetches the formula, and solves.
fn find_report<S: Shelf>(alloc: Global, words: &SatWords<'_>, shelf: &mut S) -> Result<Report, Stop>
    ensures found { IfOk result (ReportsFiles (sat_command (sat_of words.now))
        (S.seen shelf.old) (S.seen shelf.new)) }
    ensures refused { IfErr result (OnRefused (λ r. ComesOfFiles (sat_command (sat_of words.now))
        (S.seen shelf.old) (S.seen shelf.new) (Refused r))) }
    ensures calls { FetchesInOrder (sat_files (sat_of words.now)) (S.seen shelf.old)
        (S.seen shelf.new) }
    ensures all { OnOk result (FetchedAll (sat_files (sat_of words.now)) (S.seen shelf.old)
        (S.seen shelf.new)) }
    ensures kept { FilesLeft (S.seen shelf.old) (S.seen shelf.new) }
    ensures faults { ReadFaults result (S.seen shelf.old) (S.seen shelf.new) }
{
    let texts = fetch(alloc, words, shelf)?;
    report_texts(alloc, words, &texts)
}

impl Lines for SatWords<'_> {
    ghost use Rattle.formula_commands.specs.Commands.{sat_command};
    ghost use Rattle.formula_commands.specs.Requests.{sat_of};

    ghost line_of = { λ w. (sat_command (sat_of w)).line };

    fn line(&self, alloc: Global, refusal: &Refusal) -> Result<Vec<u8>, NoMemory> {
        refusal_line(alloc, self.cnf, refusal.line, refusal.cause.name())
    }
}

/// Decides whether values satisfy a formula: its text is fetched and read; a proof that none do, or
/// what was derived until the budget was spent, is stored; and then what was found is written.
pub fn sat<S: Shelf, K: Sink>(alloc: Global, w: &SatWords<'_>, shelf: &mut S, out: &mut K) -> Status
    // What the status means, and what stands in the output and in the files.
    ensures ends { Ends (sat_command (sat_of w.now))
        (devices (S.seen shelf.old) (K.seen out.old))
        (devices (S.seen shelf.new) (K.seen out.new)) result }
    // The fetch of the formula, and then the store of the proof, each once, up to some point.
    ensures calls { CallsInOrder (sat_command (sat_of w.now)) (S.seen shelf.old)
        (S.seen shelf.new) }
    // Values that were written make each clause of the file true.
    ensures satisfiable { result ≡ Status.Correct → PrintsModel (sat_of w.now)
        (devices (S.seen shelf.old) (K.seen out.old))
        (devices (S.seen shelf.new) (K.seen out.new)) }
    // No values do, and the proof that was stored follows and refutes.
    ensures unsatisfiable { result ≡ Status.NoCorrection → StoresProof (sat_of w.now)
        (devices (S.seen shelf.old) (K.seen out.old))
        (devices (S.seen shelf.new) (K.seen out.new)) }
    // A budget is spent on steps that follow, none of them the empty clause, and these were stored.
    ensures spent { result ≡ Status.Spent → StoresSteps (sat_of w.now)
        (devices (S.seen shelf.old) (K.seen out.old))
        (devices (S.seen shelf.new) (K.seen out.new)) }
    // A text of the form is decided, unless the budget is spent, a device failed or memory lacked;
    // and any other text is refused.
    ensures solved { (cnf : List ℕ)
        → AreTold (devices (S.seen shelf.old) (K.seen out.old)) (sat_files (sat_of w.now))
        (cnf ∷ [])
        → NoFault (devices (S.seen shelf.old) (K.seen out.old))
        (devices (S.seen shelf.new) (K.seen out.new))
        → IsSolved w.now.budget cnf result }
    // A text that is too long is refused, unless a device failed or memory lacked.
    ensures refused { (ts : List (List ℕ)) (r : AnyRefusal)
        → Tells (S.seen shelf.old) (sat_files (sat_of w.now)) ts
        → IsFirstRefusal (sat_command (sat_of w.now)) ts r
        → NoFault (devices (S.seen shelf.old) (K.seen out.old))
        (devices (S.seen shelf.new) (K.seen out.new))
        → IsSaid ((sat_command (sat_of w.now)).line r) Status.Refused (K.seen out.old)
        (K.seen out.new) result }
{
    let found = find_report(alloc, w, shelf);
    end(alloc, w, Some(w.log), found, shelf, out)
}
