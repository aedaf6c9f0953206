//! The command `pick`.
ghost use Rattle.std.specs.Prelude.{◌≡◌, ◌≤◌, ℕ, List, All, IfErr, IfOk, MatchResult, OnOk, length};
ghost use Rattle.file_commands.specs.Calls.{CallsInOrder};
ghost use Rattle.file_commands.specs.Claims.{AreTold, IsSaid, NoFault};
ghost use Rattle.file_commands.specs.Commands.{Refused};
ghost use Rattle.file_commands.specs.Ends.{ComesOfFiles, Ends, IsFirstRefusal};
ghost use Rattle.file_commands.specs.Reports.{IsFound, ReportsFiles};
ghost use Rattle.grade_io.specs.Devices.{devices};
ghost use Rattle.grade_io.specs.Kept.{FilesLeft};
ghost use Rattle.mpy_tree.specs.declared.refusal.Refusal.{Refusal as AnyRefusal};
ghost use Rattle.source_files.specs.Fetches.{FetchedAll, FetchesInOrder, OnRefused, ReadFaults};
ghost use Rattle.source_files.specs.Fetches.{StopsAs};
ghost use Rattle.source_files.specs.Files.{sources_of};
ghost use Rattle.source_files.specs.Texts.{AllFit, Tells};
ghost use Rattle.source_files.specs.Views.{texts_of};
ghost use Rattle.pick_command.specs.Claims.{IsAnswered, TellsPick};
ghost use Rattle.pick_command.specs.Commands.{pick_command, pick_files};
ghost use Rattle.pick_command.specs.Decisions.{Request as AnyRequest, pick_step, request_step};
ghost use Rattle.pick_command.specs.Requests.{pick_of, request_of};

use crate::NoMemory;
use crate::files::{fetch, word};
use crate::report::pick_text;
use crate::request::{Request, at_reference, compare_types, read_parts};
use crate::weighing::are_too_large;
use crate::words::PickWords;
use file_commands::{Lines, Report, end};
use grade_io::{Shelf, Sink, Status};
use mpy_tree::{Cause, Refusal};
use source_files::Stop;
use std::alloc::Global;
use task_read::refusal_text;
use test_picker::{Picked, pick as pick_cases};

// The request of the texts, whose programs are small enough to be run on all inputs.
fn read_request(alloc: Global, texts: &[Vec<u8>]) -> Result<Request, Stop>
    requires some { 2 ≤ length texts.now }
    requires few { length texts.now ≤ 18 }
    requires fit { All (λ t. length t ≤ 1073741824) (texts_of texts.now) }
    ensures { MatchResult result (λ k. (request_step (texts_of texts.now)).gives (request_of k))
        (StopsAs (request_step (texts_of texts.now)).refuses) }
{
    let request = read_parts(alloc, texts)?;
    compare_types(&request)?;
    if are_too_large(alloc, &request)? {
        return Err(at_reference(&request, Cause::TooLarge));
    }
    Ok(request)
}

// What is written of what the texts decide.
fn report_texts(alloc: Global, words: &PickWords<'_>, texts: &[Vec<u8>]) -> Result<Report, Stop>
    requires few { length words.now.submissions.now ≤ 16 }
    requires fit { AllFit (sources_of (pick_files (pick_of words.now))) (texts_of texts.now) }
    ensures { IsFound (pick_command (pick_of words.now)) (texts_of texts.now) result }
{
    let request = read_request(alloc, texts)?;
    let bounds = &request.bounds;
    match pick_cases(alloc, bounds, &request.reference, &request.submissions) {
        Picked::Picked { cases, marks } => {
            let text = pick_text(alloc, &bounds.entry, &cases, words.submissions, &marks)?;
            Ok(Report {
                status: Status::Correct,
                text,
                kept: None,
            })
        }
        Picked::EmptyReference => Err(at_reference(&request, Cause::EmptyReference)),
        Picked::NoMemory => Err(Stop::NoMemory),
    }
}

// Fetches the files, and picks.
fn find_report<S: Shelf>(
    alloc: Global,
    words: &PickWords<'_>,
    shelf: &mut S,
) -> Result<Report, Stop>
    requires { length words.now.submissions.now ≤ 16 }
    ensures found { IfOk result (ReportsFiles (pick_command (pick_of words.now))
        (S.seen shelf.old) (S.seen shelf.new)) }
    ensures refused { IfErr result (OnRefused (λ r. ComesOfFiles (pick_command (pick_of words.now))
        (S.seen shelf.old) (S.seen shelf.new) (Refused r))) }
    ensures calls { FetchesInOrder (pick_files (pick_of words.now)) (S.seen shelf.old)
        (S.seen shelf.new) }
    ensures all { OnOk result (FetchedAll (pick_files (pick_of words.now)) (S.seen shelf.old)
        (S.seen shelf.new)) }
    ensures kept { FilesLeft (S.seen shelf.old) (S.seen shelf.new) }
    ensures faults { ReadFaults result (S.seen shelf.old) (S.seen shelf.new) }
{
    let texts = fetch(alloc, words, shelf)?;
    report_texts(alloc, words, &texts)
}

impl Lines for PickWords<'_> {
    ghost use Rattle.pick_command.specs.Commands.{pick_command};
    ghost use Rattle.pick_command.specs.Requests.{pick_of};

    ghost line_of = { λ w. (pick_command (pick_of w)).line };

    fn line(&self, alloc: Global, refusal: &Refusal) -> Result<Vec<u8>, NoMemory> {
        refusal_text(alloc, word(self, refusal.source), refusal)
    }
}

/// Picks inputs that show the faults of up to 16 submissions: their files are fetched in order and
/// read, and the cases are written and, for each submission, whether it agrees with the reference
/// or on which case it fails.
pub fn pick<S: Shelf, K: Sink>(
    alloc: Global,
    w: &PickWords<'_>,
    shelf: &mut S,
    out: &mut K,
) -> Status
    requires { length w.now.submissions.now ≤ 16 }
    // What the status means, and what stands in the output and in the files.
    ensures ends { Ends (pick_command (pick_of w.now))
        (devices (S.seen shelf.old) (K.seen out.old))
        (devices (S.seen shelf.new) (K.seen out.new)) result }
    // The fetches of the bounds and of the programs, in order, each once, up to some point.
    ensures calls { CallsInOrder (pick_command (pick_of w.now)) (S.seen shelf.old)
        (S.seen shelf.new) }
    // The cases and marks are written that the submissions choose.
    ensures picked { result ≡ Status.Correct → TellsPick (pick_of w.now)
        (devices (S.seen shelf.old) (K.seen out.old))
        (devices (S.seen shelf.new) (K.seen out.new)) }
    // A request that nothing refuses is answered, unless a device failed or memory lacked.
    ensures answered { (ts : List (List ℕ)) (k : AnyRequest)
        → AreTold (devices (S.seen shelf.old) (K.seen out.old)) (pick_files (pick_of w.now)) ts
        → (pick_step ts).gives k
        → NoFault (devices (S.seen shelf.old) (K.seen out.old))
        (devices (S.seen shelf.new) (K.seen out.new))
        → IsAnswered result }
    // The first refusal is answered, unless a device failed or memory lacked.
    ensures refused { (ts : List (List ℕ)) (r : AnyRefusal)
        → Tells (S.seen shelf.old) (pick_files (pick_of w.now)) ts
        → IsFirstRefusal (pick_command (pick_of w.now)) ts r
        → NoFault (devices (S.seen shelf.old) (K.seen out.old))
        (devices (S.seen shelf.new) (K.seen out.new))
        → IsSaid ((pick_command (pick_of w.now)).line r) Status.Refused (K.seen out.old)
        (K.seen out.new) result }
{
    let found = find_report(alloc, w, shelf);
    end(alloc, w, None, found, shelf, out)
}
