//! The command `all`.
ghost use Rattle.std.specs.Prelude.{◌≡◌, ◌⊎◌, ℕ, List, IfErr, IfOk, OnOk};
ghost use Rattle.grade_io.specs.Devices.{devices};
ghost use Rattle.grade_io.specs.Kept.{FilesLeft};
ghost use Rattle.mpy_tree.specs.declared.refusal.Refusal.{Refusal as AnyRefusal};
ghost use Rattle.mpy_tree.specs.Refusals.{refusal_text};
ghost use Rattle.input_space.specs.Tasks.{HasWanted, Task as AnyTask};
ghost use Rattle.source_files.specs.Fetches.{FetchedAll, FetchesInOrder, IsLongSource, OnRefused};
ghost use Rattle.source_files.specs.Fetches.{ReadFaults};
ghost use Rattle.source_files.specs.Files.{file as source_file};
ghost use Rattle.source_files.specs.Texts.{AllFit, AreHeld, Tells};
ghost use Rattle.source_files.specs.Views.{file_of, texts_of};
ghost use Rattle.file_commands.specs.Calls.{CallsInOrder};
ghost use Rattle.file_commands.specs.Claims.{AreTold, IsSaid, NoFault};
ghost use Rattle.file_commands.specs.Commands.{Refused};
ghost use Rattle.file_commands.specs.Ends.{ComesOfFiles, Ends, IsFirstRefusal};
ghost use Rattle.file_commands.specs.Reports.{ReportsFiles};
ghost use Rattle.grade_core.specs.Claims.{IsRefusedOrSpent};
ghost use Rattle.grade_core.specs.Commands.{empty_reference};
ghost use Rattle.grade_core.specs.Decisions.{task_sources, task_step};
ghost use Rattle.grade_core.specs.Words.{IsBudget};
ghost use Rattle.list_command.specs.Claims.{HasMany, IsListedFor, IsManyOrSpent, PrintsBest};
ghost use Rattle.list_command.specs.Commands.{all_command, all_files, all_word};
ghost use Rattle.list_command.specs.Requests.{all_of};
ghost use Rattle.list_command.specs.Words.{IsMost};

use crate::NoMemory;
use crate::report::report_texts;
use crate::words::AllWords;
use file_commands::{Lines, Report, end};
use grade_io::{Shelf, Sink, Status};
use mpy_tree::{Refusal, Source};
use source_files::{File, Stop, fetch_all};
use std::alloc::Global;
use task_read::refusal_text;

fn file(source: Source, word: &str) -> File<'_>
    ensures { file_of result ≡ source_file source word.now }
{
    File { source, word }
}

// The texts of the four sources.
fn fetch<S: Shelf>(alloc: Global, words: &AllWords<'_>, shelf: &mut S) -> Result<Vec<Vec<u8>>, Stop>
    ensures fit { IfOk result (λ v. AllFit task_sources (texts_of v.items)) }
    ensures held { IfOk result (λ v. AreHeld (S.seen shelf.old) (all_files (all_of words.now))
        (texts_of v.items)) }
    ensures long { IfErr result (OnRefused (IsLongSource (all_files (all_of words.now))
        (S.seen shelf.old) (S.seen shelf.new))) }
    ensures calls { FetchesInOrder (all_files (all_of words.now)) (S.seen shelf.old)
        (S.seen shelf.new) }
    ensures all { OnOk result (FetchedAll (all_files (all_of words.now)) (S.seen shelf.old)
        (S.seen shelf.new)) }
    ensures kept { FilesLeft (S.seen shelf.old) (S.seen shelf.new) }
    ensures faults { ReadFaults result (S.seen shelf.old) (S.seen shelf.new) }
{
    let files = [
        file(Source::Bounds, words.bounds),
        file(Source::Reference, words.reference),
        file(Source::Submission, words.submission),
        file(Source::Rules, words.rules),
    ];
    fetch_all(alloc, &files, shelf)
}

// Fetches the sources, and lists.
fn find_report<S: Shelf>(alloc: Global, words: &AllWords<'_>, shelf: &mut S) -> Result<Report, Stop>
    requires { IsBudget words.now.budget }
    ensures found { IfOk result (ReportsFiles (all_command (all_of words.now))
        (S.seen shelf.old) (S.seen shelf.new)) }
    ensures refused { IfErr result (OnRefused (λ r. ComesOfFiles (all_command (all_of words.now))
        (S.seen shelf.old) (S.seen shelf.new) (Refused r))) }
    ensures calls { FetchesInOrder (all_files (all_of words.now)) (S.seen shelf.old)
        (S.seen shelf.new) }
    ensures all { OnOk result (FetchedAll (all_files (all_of words.now)) (S.seen shelf.old)
        (S.seen shelf.new)) }
    ensures kept { FilesLeft (S.seen shelf.old) (S.seen shelf.new) }
    ensures faults { ReadFaults result (S.seen shelf.old) (S.seen shelf.new) }
{
    let texts = fetch(alloc, words, shelf)?;
    report_texts(alloc, words, &texts)
}

// The word that names a source, if it is a file of the command.
fn word<'a>(words: &AllWords<'a>, source: Source) -> &'a str
    ensures { result.now ≡ all_word (all_of words.now) source }
{
    match source {
        Source::Bounds => words.bounds,
        Source::Reference => words.reference,
        Source::Submission => words.submission,
        Source::Rules => words.rules,
        Source::Cert | Source::Word(_) => "",
    }
}

impl Lines for AllWords<'_> {
    ghost use Rattle.list_command.specs.Commands.{all_command};
    ghost use Rattle.list_command.specs.Requests.{all_of};

    ghost line_of = { λ w. (all_command (all_of w)).line };

    fn line(&self, alloc: Global, refusal: &Refusal) -> Result<Vec<u8>, NoMemory> {
        refusal_text(alloc, word(self, refusal.source), refusal)
    }
}

/// Lists the corrections of a submission that cost least: its four sources are fetched in order and
/// read, the least cost is searched for, and then the corrections of that cost. At most so many
/// clauses are logged for the first, and again for the second. Nothing is stored.
pub fn all<S: Shelf, K: Sink>(alloc: Global, w: &AllWords<'_>, shelf: &mut S, out: &mut K) -> Status
    requires most { IsMost w.now.most }
    requires budget { IsBudget w.now.budget }
    // What the status means, and what stands in the output and in the files.
    ensures ends { Ends (all_command (all_of w.now))
        (devices (S.seen shelf.old) (K.seen out.old))
        (devices (S.seen shelf.new) (K.seen out.new)) result }
    // The fetches of the four sources, in order, each once, up to some point.
    ensures calls { CallsInOrder (all_command (all_of w.now)) (S.seen shelf.old)
        (S.seen shelf.new) }
    // Where corrections are answered they are the first of the best list, and they were written.
    ensures correct { result ≡ Status.Correct → PrintsBest (all_of w.now)
        (devices (S.seen shelf.old) (K.seen out.old))
        (devices (S.seen shelf.new) (K.seen out.new)) }
    ensures corrected { result ≡ Status.Corrected → PrintsBest (all_of w.now)
        (devices (S.seen shelf.old) (K.seen out.old))
        (devices (S.seen shelf.new) (K.seen out.new)) }
    // A task that nothing refuses is answered, unless a device failed or memory lacked.
    ensures listed { (ts : List (List ℕ)) (k : AnyTask)
        → AreTold (devices (S.seen shelf.old) (K.seen out.old)) (all_files (all_of w.now)) ts
        → (task_step ts).gives k
        → NoFault (devices (S.seen shelf.old) (K.seen out.old))
        (devices (S.seen shelf.new) (K.seen out.new))
        → IsListedFor k result }
    // Where too many live selections have the least cost, that is answered, or the budget is spent,
    // unless a device failed or memory lacked.
    ensures many { (ts : List (List ℕ)) (k : AnyTask)
        → AreTold (devices (S.seen shelf.old) (K.seen out.old)) (all_files (all_of w.now)) ts
        → (task_step ts).gives k → HasMany k
        → NoFault (devices (S.seen shelf.old) (K.seen out.old))
        (devices (S.seen shelf.new) (K.seen out.new))
        → IsManyOrSpent (all_of w.now) k (K.seen out.old) (K.seen out.new) result }
    // Where the reference gives no value on any input, that is refused, or the budget is spent,
    // unless a device failed or memory lacked.
    ensures empty { (ts : List (List ℕ)) (k : AnyTask)
        → AreTold (devices (S.seen shelf.old) (K.seen out.old)) (all_files (all_of w.now)) ts
        → (task_step ts).gives k → (HasWanted k → ⊥)
        → NoFault (devices (S.seen shelf.old) (K.seen out.old))
        (devices (S.seen shelf.new) (K.seen out.new))
        → IsRefusedOrSpent (refusal_text w.now.reference.now (empty_reference k))
        (K.seen out.old) (K.seen out.new) result }
    // Where a refusal is the first, it is answered and its line written, unless a device failed or
    // memory lacked.
    ensures refused { (ts : List (List ℕ)) (r : AnyRefusal)
        → Tells (S.seen shelf.old) (all_files (all_of w.now)) ts
        → IsFirstRefusal (all_command (all_of w.now)) ts r
        → NoFault (devices (S.seen shelf.old) (K.seen out.old))
        (devices (S.seen shelf.new) (K.seen out.new))
        → IsSaid ((all_command (all_of w.now)).line r) Status.Refused (K.seen out.old)
        (K.seen out.new) result }
{
    let found = find_report(alloc, w, shelf);
    end(alloc, w, None, found, shelf, out)
}
