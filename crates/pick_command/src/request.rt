//! The programs of a request, read from their texts.
ghost use Rattle.std.specs.Prelude.{◌≡◌, ◌≤◌, ◌++◌, ◌∷◌, [], All, IfErr, MatchResult, OnOk, length};
ghost use Rattle.std.specs.Prelude.{map};
ghost use Rattle.mpy_tree.specs.declared.refusal.Cause.TheVariants as cause;
ghost use Rattle.input_space.specs.Tasks.{entry_at, entry_line};
ghost use Rattle.source_files.specs.Fetches.{StopsAs};
ghost use Rattle.source_files.specs.Views.{texts_of};
ghost use Rattle.source_files.specs.declared.stop.Stop.TheVariants as stop;
ghost use Rattle.task_read.specs.Sources.{program_step, refusal};
ghost use Rattle.task_read.specs.Steps.{refuse_if};
ghost use Rattle.pick_command.specs.Decisions.{GiveOneType, at_reference, first_place};
ghost use Rattle.pick_command.specs.Decisions.{parts_step};
ghost use Rattle.pick_command.specs.Decisions.{programs_step, types_step};
ghost use Rattle.pick_command.specs.Requests.{request_of, typed_of};

use crate::NoMemory;
use crate::files::submission;
use bounds_reader::Bounds;
use mpy_tree::{Cause, Source};
use source_files::{Stop, refused};
use std::alloc::Global;
use task_read::{entry_line, read_program, read_task_bounds, result_type};
use test_picker::{Typed, TypedList};

/// The bounds, the reference, and the submissions.
#[derive(Drop)]
pub(crate) struct Request {
    pub(crate) bounds: Bounds,
    pub(crate) reference: Typed,
    pub(crate) submissions: TypedList,
}

// The typed program that a text spells.
fn read_typed(alloc: Global, bounds: &Bounds, text: &[u8], source: Source) -> Result<Typed, Stop>
    requires { length text.now ≤ 1073741824 }
    ensures { MatchResult result
        (λ p. (program_step source text.now (entry_at bounds.now)).gives (typed_of p))
        (StopsAs (program_step source text.now (entry_at bounds.now)).refuses) }
{
    let (prog, types) = read_program(alloc, bounds, text, source)?;
    Ok(Typed { prog, types })
}

// One program more.
fn push(programs: &mut Vec<Typed>, typed: Typed) -> Result<(), NoMemory>
    ensures { OnOk result (programs.new.items ≡ programs.old.items ++ typed ∷ []) }
{
    programs.push(typed)?;
    Ok(())
}

// The submissions of texts.
fn read_submissions(alloc: Global, bounds: &Bounds, texts: &[Vec<u8>]) -> Result<TypedList, Stop>
    requires few { length texts.now ≤ 16 }
    requires fit { All (λ t. length t ≤ 1073741824) (texts_of texts.now) }
    ensures { MatchResult result
        (λ ps. (programs_step first_place (texts_of texts.now) (entry_at bounds.now)).gives
        (map typed_of ps))
        (StopsAs (programs_step first_place (texts_of texts.now) (entry_at bounds.now)).refuses) }
{
    let mut programs = Vec::new(alloc);
    for (i, text) in texts.iter().enumerate() {
        let source = submission(i);
        let typed = read_typed(alloc, bounds, text.as_slice(), source)?;
        push(&mut programs, typed)?;
    }
    Ok(TypedList::from_vec(programs))
}

/// The programs of the texts, each read by itself.
pub(crate) fn read_parts(alloc: Global, texts: &[Vec<u8>]) -> Result<Request, Stop>
    requires some { 2 ≤ length texts.now }
    requires few { length texts.now ≤ 18 }
    requires fit { All (λ t. length t ≤ 1073741824) (texts_of texts.now) }
    ensures { MatchResult result (λ k. (parts_step (texts_of texts.now)).gives (request_of k))
        (StopsAs (parts_step (texts_of texts.now)).refuses) }
{
    let [bounds, reference, submissions @ ..] = texts else {
        unreachable!();
    };
    let bounds = read_task_bounds(alloc, bounds.as_slice())?;
    let reference = read_typed(alloc, &bounds, reference.as_slice(), Source::Reference)?;
    let submissions = read_submissions(alloc, &bounds, submissions)?;
    Ok(Request {
        bounds,
        reference,
        submissions,
    })
}

// That a submission gives results of the reference's type.
fn compare_type(request: &Request, typed: &Typed, source: Source) -> Result<(), Stop>
    ensures one_type { OnOk result (GiveOneType request.now.bounds
        (typed_of request.now.reference) (typed_of typed.now)) }
    ensures refused { IfErr result (StopsAs (refuse_if (GiveOneType request.now.bounds
        (typed_of request.now.reference) (typed_of typed.now) → ⊥)
        (refusal source cause.ResultType (entry_line request.now.bounds
        (typed_of typed.now).program))).refuses) }
{
    let bounds = &request.bounds;
    let wanted = result_type(bounds, &request.reference.prog, &request.reference.types);
    let given = result_type(bounds, &typed.prog, &typed.types);
    if given == wanted {
        Ok(())
    } else {
        let line = entry_line(bounds, &typed.prog);
        Err(refused(source, Cause::ResultType, line))
    }
}

/// That each submission does.
pub(crate) fn compare_types(request: &Request) -> Result<(), Stop>
    requires { length request.now.submissions ≤ 16 }
    ensures { MatchResult result
        (λ u. (types_step (request_of request.now).bounds (request_of request.now).reference
        first_place (request_of request.now).submissions).gives u)
        (StopsAs (types_step (request_of request.now).bounds (request_of request.now).reference
        first_place (request_of request.now).submissions).refuses) }
{
    for (i, typed) in request.submissions.items().iter().enumerate() {
        let source = submission(i);
        compare_type(request, typed, source)?;
    }
    Ok(())
}

/// A refusal of the reference, at the line of its entry.
pub(crate) fn at_reference(request: &Request, cause: Cause) -> Stop
    ensures { result ≡ stop.Refused (at_reference cause (request_of request.now)) }
{
    let line = entry_line(&request.bounds, &request.reference.prog);
    refused(Source::Reference, cause, line)
}
