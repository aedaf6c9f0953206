//! The command `check`.

ghost use Rattle.std.specs.Prelude.{◌≡◌, ℕ, List, length, IfErr, IfOk, OnOk};
ghost use Rattle.check_core.specs.Claims.{IsChecked};
ghost use Rattle.check_core.specs.Commands.{check_command, files_of, word_of};
ghost use Rattle.check_core.specs.Decisions.{cert_in, check_sources, sources_step};
ghost use Rattle.check_core.specs.Requests.{check_of};
ghost use Rattle.file_commands.specs.Calls.{CallsInOrder};
ghost use Rattle.file_commands.specs.Claims.{AreTold, IsSaid, NoFault};
ghost use Rattle.file_commands.specs.Commands.{Refused};
ghost use Rattle.file_commands.specs.Ends.{ComesOfFiles, Ends, IsFirstRefusal};
ghost use Rattle.file_commands.specs.Reports.{ReportsFiles};
ghost use Rattle.grade_io.specs.Devices.{devices};
ghost use Rattle.grade_io.specs.Kept.{FilesLeft};
ghost use Rattle.input_space.specs.Tasks.{Task as AnyTask};
ghost use Rattle.mpy_tree.specs.declared.refusal.Refusal.{Refusal as AnyRefusal};
ghost use Rattle.source_files.specs.Fetches.{FetchedAll, FetchesInOrder, IsLongSource, OnRefused};
ghost use Rattle.source_files.specs.Fetches.{ReadFaults};
ghost use Rattle.source_files.specs.Files.{file as source_file};
ghost use Rattle.source_files.specs.Texts.{AllFit, AreHeld, Tells};
ghost use Rattle.source_files.specs.Views.{file_of, texts_of};

use crate::NoMemory;
use crate::checking::report_texts;
use crate::words::CheckWords;
use cert_text::one_cert;
use certificate_judge::right_is_accepted;
use file_commands::{Lines, Report, end};
use grade_io::{Shelf, Sink, Status};
use mpy_tree::{Refusal, Source};
use source_files::{File, Stop, fetch_all};
use std::alloc::Global;
use task_read::refusal_text;

fn file(source: Source, word: &str) -> File<'_>
    ensures { file_of result ≡ source_file source word.now }
{
    File { source, word }
}

// The texts of the four sources and of the certificate.
fn fetch<S: Shelf>(
    alloc: Global,
    words: &CheckWords<'_>,
    shelf: &mut S,
) -> Result<Vec<Vec<u8>>, Stop>
    ensures fit { IfOk result (λ v. AllFit check_sources (texts_of v.items)) }
    ensures held { IfOk result (λ v. AreHeld (S.seen shelf.old) (files_of (check_of words.now))
        (texts_of v.items)) }
    ensures long { IfErr result (OnRefused (IsLongSource (files_of (check_of words.now))
        (S.seen shelf.old) (S.seen shelf.new))) }
    ensures calls { FetchesInOrder (files_of (check_of words.now)) (S.seen shelf.old)
        (S.seen shelf.new) }
    ensures all { OnOk result (FetchedAll (files_of (check_of words.now)) (S.seen shelf.old)
        (S.seen shelf.new)) }
    ensures kept { FilesLeft (S.seen shelf.old) (S.seen shelf.new) }
    ensures faults { ReadFaults result (S.seen shelf.old) (S.seen shelf.new) }
{
    let files = [
        file(Source::Bounds, words.bounds),
        file(Source::Reference, words.reference),
        file(Source::Submission, words.submission),
        file(Source::Rules, words.rules),
        file(Source::Cert, words.cert),
    ];
    fetch_all(alloc, &files, shelf)
}

// Fetches the files, and judges.
fn find_report<S: Shelf>(
    alloc: Global,
    words: &CheckWords<'_>,
    shelf: &mut S,
) -> Result<Report, Stop>
    ensures found { IfOk result (ReportsFiles (check_command (check_of words.now))
        (S.seen shelf.old) (S.seen shelf.new)) }
    ensures refused { IfErr result (OnRefused (λ r. ComesOfFiles
        (check_command (check_of words.now)) (S.seen shelf.old) (S.seen shelf.new)
        (Refused r))) }
    ensures calls { FetchesInOrder (files_of (check_of words.now)) (S.seen shelf.old)
        (S.seen shelf.new) }
    ensures all { OnOk result (FetchedAll (files_of (check_of words.now)) (S.seen shelf.old)
        (S.seen shelf.new)) }
    ensures kept { FilesLeft (S.seen shelf.old) (S.seen shelf.new) }
    ensures faults { ReadFaults result (S.seen shelf.old) (S.seen shelf.new) }
{
    let texts = fetch(alloc, words, shelf)?;
    report_texts(alloc, words, &texts)
}

// The word that names a source, if it is a file of the command.
fn word<'a>(words: &CheckWords<'a>, source: Source) -> &'a str
    ensures { result.now ≡ word_of (check_of words.now) source }
{
    match source {
        Source::Bounds => words.bounds,
        Source::Reference => words.reference,
        Source::Submission => words.submission,
        Source::Rules => words.rules,
        Source::Cert => words.cert,
        Source::Word(_) => "",
    }
}

impl Lines for CheckWords<'_> {
    ghost use Rattle.check_core.specs.Commands.{check_command};
    ghost use Rattle.check_core.specs.Requests.{check_of};

    ghost line_of = { λ w. (check_command (check_of w)).line };

    fn line(&self, alloc: Global, refusal: &Refusal) -> Result<Vec<u8>, NoMemory> {
        refusal_text(alloc, word(self, refusal.source), refusal)
    }
}

/// Judges a certificate for the task of four sources, whatever wrote it: the five files are fetched
/// in order, and what is said of the certificate is written. Nothing is stored.
pub fn check<S: Shelf, K: Sink>(
    alloc: Global,
    w: &CheckWords<'_>,
    shelf: &mut S,
    out: &mut K,
) -> Status
    // What the status means, and what stands in the output and in the files.
    ensures ends { Ends (check_command (check_of w.now))
        (devices (S.seen shelf.old) (K.seen out.old))
        (devices (S.seen shelf.new) (K.seen out.new)) result }
    // The fetches of the five files, in order, each once, up to some point.
    ensures calls { CallsInOrder (check_command (check_of w.now)) (S.seen shelf.old)
        (S.seen shelf.new) }
    // For a task that nothing refuses the certificate is accepted or rejected, unless a device
    // failed or memory lacked; and where it is accepted, what it claims is true.
    ensures checked { (ts : List (List ℕ)) (k : AnyTask)
        → AreTold (devices (S.seen shelf.old) (K.seen out.old)) (files_of (check_of w.now)) ts
        → (sources_step ts).gives k
        → NoFault (devices (S.seen shelf.old) (K.seen out.old))
        (devices (S.seen shelf.new) (K.seen out.new))
        → IsChecked k (cert_in ts) result }
    // Where a refusal is the first, it is answered and its line written, unless a device failed or
    // memory lacked; by `ends` a refusal is answered for texts for which it is the first alone.
    ensures refused { (ts : List (List ℕ)) (r : AnyRefusal)
        → Tells (S.seen shelf.old) (files_of (check_of w.now)) ts
        → IsFirstRefusal (check_command (check_of w.now)) ts r
        → NoFault (devices (S.seen shelf.old) (K.seen out.old))
        (devices (S.seen shelf.new) (K.seen out.new))
        → IsSaid ((check_command (check_of w.now)).line r) Status.Refused (K.seen out.old)
        (K.seen out.new) result }
{
    right_is_accepted();
    one_cert();
    let found = find_report(alloc, w, shelf);
    end(alloc, w, None, found, shelf, out)
}
