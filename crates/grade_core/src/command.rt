//! The command `grade`.
ghost use Rattle.std.specs.Prelude.{◌≡◌, ℕ, List, length, IfErr, IfOk, OnOk};
ghost use Rattle.grade_io.specs.Devices.{devices};
ghost use Rattle.grade_io.specs.Kept.{FilesLeft};
ghost use Rattle.mpy_tree.specs.declared.refusal.Refusal.{Refusal as AnyRefusal};
ghost use Rattle.mpy_tree.specs.Refusals.{refusal_text};
ghost use Rattle.input_space.specs.Tasks.{HasWanted, Task as AnyTask};
ghost use Rattle.source_files.specs.Fetches.{FetchedAll, FetchesInOrder, IsLongSource, OnRefused};
ghost use Rattle.source_files.specs.Fetches.{ReadFaults};
ghost use Rattle.source_files.specs.Files.{file as source_file};
ghost use Rattle.source_files.specs.Texts.{AllFit, AreHeld, Tells};
ghost use Rattle.source_files.specs.Views.{file_of, texts_of};
ghost use Rattle.file_commands.specs.Calls.{CallsInOrder};
ghost use Rattle.file_commands.specs.Claims.{AreTold, IsSaid, NoFault};
ghost use Rattle.file_commands.specs.Commands.{Refused};
ghost use Rattle.file_commands.specs.Ends.{ComesOfFiles, Ends, IsFirstRefusal};
ghost use Rattle.file_commands.specs.Reports.{IsFound, ReportsFiles};
ghost use Rattle.grade_core.specs.Claims.{IsGraded, IsRefusedOrSpent};
ghost use Rattle.grade_core.specs.Commands.{empty_reference, files_of, grade_command, word_of};
ghost use Rattle.grade_core.specs.Decisions.{task_sources, task_step};
ghost use Rattle.grade_core.specs.Requests.{grade_of};
ghost use Rattle.grade_core.specs.Words.{IsBudget};

use crate::NoMemory;
use crate::grading::{answer_status, grade_texts};
use crate::words::GradeWords;
use crate::writing::answer_text;
use file_commands::{Lines, Report, end};
use grade_io::{Shelf, Sink, Status};
use mpy_tree::{Refusal, Source};
use source_files::{File, Stop, fetch_all};
use std::alloc::Global;
use task_read::refusal_text;

fn file(source: Source, word: &str) -> File<'_>
    ensures { file_of result ≡ source_file source word.now }
{
    File { source, word }
}

// The texts of the four sources.
fn fetch<S: Shelf>(
    alloc: Global,
    words: &GradeWords<'_>,
    shelf: &mut S,
) -> Result<Vec<Vec<u8>>, Stop>
    ensures fit { IfOk result (λ v. AllFit task_sources (texts_of v.items)) }
    ensures held { IfOk result (λ v. AreHeld (S.seen shelf.old) (files_of (grade_of words.now))
        (texts_of v.items)) }
    ensures long { IfErr result (OnRefused (IsLongSource (files_of (grade_of words.now))
        (S.seen shelf.old) (S.seen shelf.new))) }
    ensures calls { FetchesInOrder (files_of (grade_of words.now)) (S.seen shelf.old)
        (S.seen shelf.new) }
    ensures all { OnOk result (FetchedAll (files_of (grade_of words.now)) (S.seen shelf.old)
        (S.seen shelf.new)) }
    ensures kept { FilesLeft (S.seen shelf.old) (S.seen shelf.new) }
    ensures faults { ReadFaults result (S.seen shelf.old) (S.seen shelf.new) }
{
    let files = [
        file(Source::Bounds, words.bounds),
        file(Source::Reference, words.reference),
        file(Source::Submission, words.submission),
        file(Source::Rules, words.rules),
    ];
    fetch_all(alloc, &files, shelf)
}

/// What is written of what the texts of the four sources decide, by the words that name these.
///
/// # Errors
///
/// The first refusal of the texts, or want of memory.
pub fn report_texts(
    alloc: Global,
    words: &GradeWords<'_>,
    texts: &[Vec<u8>],
) -> Result<Report, Stop>
    requires four { length texts.now ≡ 4 }
    requires fit { AllFit task_sources (texts_of texts.now) }
    requires budget { IsBudget words.now.budget }
    ensures { IsFound (grade_command (grade_of words.now)) (texts_of texts.now) result }
{
    let graded = grade_texts(alloc, texts, words.budget)?;
    let text = answer_text(alloc, words.reference, &graded)?;
    Ok(Report {
        status: answer_status(&graded.answer),
        text,
        kept: graded.cert,
    })
}

// Fetches the sources, and decides.
fn find_report<S: Shelf>(
    alloc: Global,
    words: &GradeWords<'_>,
    shelf: &mut S,
) -> Result<Report, Stop>
    requires { IsBudget words.now.budget }
    ensures found { IfOk result (ReportsFiles (grade_command (grade_of words.now))
        (S.seen shelf.old) (S.seen shelf.new)) }
    ensures refused { IfErr result (OnRefused (λ r. ComesOfFiles
        (grade_command (grade_of words.now)) (S.seen shelf.old) (S.seen shelf.new)
        (Refused r))) }
    ensures calls { FetchesInOrder (files_of (grade_of words.now)) (S.seen shelf.old)
        (S.seen shelf.new) }
    ensures all { OnOk result (FetchedAll (files_of (grade_of words.now)) (S.seen shelf.old)
        (S.seen shelf.new)) }
    ensures kept { FilesLeft (S.seen shelf.old) (S.seen shelf.new) }
    ensures faults { ReadFaults result (S.seen shelf.old) (S.seen shelf.new) }
{
    let texts = fetch(alloc, words, shelf)?;
    report_texts(alloc, words, &texts)
}

// The word that names a source, if it is a file of the command.
fn word<'a>(words: &GradeWords<'a>, source: Source) -> &'a str
    ensures { result.now ≡ word_of (grade_of words.now) source }
{
    match source {
        Source::Bounds => words.bounds,
        Source::Reference => words.reference,
        Source::Submission => words.submission,
        Source::Rules => words.rules,
        Source::Cert => words.cert,
        Source::Word(_) => "",
    }
}

impl Lines for GradeWords<'_> {
    ghost use Rattle.grade_core.specs.Commands.{grade_command};
    ghost use Rattle.grade_core.specs.Requests.{grade_of};

    ghost line_of = { λ w. (grade_command (grade_of w)).line };

    fn line(&self, alloc: Global, refusal: &Refusal) -> Result<Vec<u8>, NoMemory> {
        refusal_text(alloc, word(self, refusal.source), refusal)
    }
}

/// Grades a submission: its four sources are fetched in order and read; a certificate of what they
/// decide is stored, and then that is written. At most `budget` clauses are logged.
pub fn grade<S: Shelf, K: Sink>(
    alloc: Global,
    w: &GradeWords<'_>,
    shelf: &mut S,
    out: &mut K,
) -> Status
    requires { IsBudget w.now.budget }
    // What the status means, and what stands in the output and in the files.
    ensures ends { Ends (grade_command (grade_of w.now))
        (devices (S.seen shelf.old) (K.seen out.old))
        (devices (S.seen shelf.new) (K.seen out.new)) result }
    // The fetches of the four sources, in order, each once, up to some point.
    ensures calls { CallsInOrder (grade_command (grade_of w.now)) (S.seen shelf.old)
        (S.seen shelf.new) }
    // A task that nothing refuses is graded, unless a device failed or memory lacked.
    ensures graded { (ts : List (List ℕ)) (k : AnyTask)
        → AreTold (devices (S.seen shelf.old) (K.seen out.old)) (files_of (grade_of w.now)) ts
        → (task_step ts).gives k
        → NoFault (devices (S.seen shelf.old) (K.seen out.old))
        (devices (S.seen shelf.new) (K.seen out.new))
        → IsGraded k result }
    // Where its reference gives no value on any input, that is refused, or the budget is spent,
    // unless a device failed or memory lacked.
    ensures empty { (ts : List (List ℕ)) (k : AnyTask)
        → AreTold (devices (S.seen shelf.old) (K.seen out.old)) (files_of (grade_of w.now)) ts
        → (task_step ts).gives k → (HasWanted k → ⊥)
        → NoFault (devices (S.seen shelf.old) (K.seen out.old))
        (devices (S.seen shelf.new) (K.seen out.new))
        → IsRefusedOrSpent (refusal_text w.now.reference.now (empty_reference k))
        (K.seen out.old) (K.seen out.new) result }
    // Where a refusal is the first, it is answered and its line written, unless a device failed or
    // memory lacked; by `ends` a refusal is answered for texts for which it is the first alone.
    ensures refused { (ts : List (List ℕ)) (r : AnyRefusal)
        → Tells (S.seen shelf.old) (files_of (grade_of w.now)) ts
        → IsFirstRefusal (grade_command (grade_of w.now)) ts r
        → NoFault (devices (S.seen shelf.old) (K.seen out.old))
        (devices (S.seen shelf.new) (K.seen out.new))
        → IsSaid ((grade_command (grade_of w.now)).line r) Status.Refused (K.seen out.old)
        (K.seen out.new) result }
{
    let found = find_report(alloc, w, shelf);
    end(alloc, w, Some(w.cert), found, shelf, out)
}
