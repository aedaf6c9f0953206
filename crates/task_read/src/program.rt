//! A program read to its types.
ghost use Rattle.std.specs.Prelude.{◌≡◌, ◌≤◌, ℕ, List, [], length, IfErr, IfOk, OnOk};
ghost use Rattle.mpy_tree.specs.declared.refusal.Cause.{Cause as AnyCause};
ghost use Rattle.mpy_tree.specs.declared.typing.Fact.{Fact as AnyFact};
ghost use Rattle.mpy_tree.specs.Entries.{entry_of};
ghost use Rattle.mpy_tree.specs.Syntax.{Routine};
ghost use Rattle.mpy_tree.specs.View.{routines_of};
ghost use Rattle.mpy_tree.specs.Typings.{IsTyping};
ghost use Rattle.mpy_parser.specs.Programs.{IsProgram, IsRefused};
ghost use Rattle.task_read.specs.Errors.{IsGiven, IsRefusal, RefusesBy};
ghost use Rattle.task_read.specs.declared.error.TaskError.TheVariants as task_error;
ghost use Rattle.input_space.specs.Tasks.{entry_at};
ghost use Rattle.task_read.specs.Sources.{refusal};
ghost use Rattle.task_read.specs.TypedPrograms.{IsProgramRefused, IsSharedOn, IsTypedProgram};
ghost use Rattle.task_read.specs.TypedPrograms.{IsTypingRefused, shared_lines};

use crate::error::TaskError;
use bounds_reader::Bounds;
use input_space::signature;
use mpy_parser::{ReadError, read_prog};
use mpy_share::unshared;
use mpy_tree::{Cause, Prog, Refusal, Signature, Source, TypeError, Types};
use mpy_types::check_types;
use std::alloc::Global;

/// Reads a source to the typed program of an entry.
#[derive(Clone, Copy)]
struct Reader<'a> {
    alloc: Global,
    signature: &'a Signature,
    source: Source,
}

impl Reader<'_> {
    // The source is refused.
    fn refused(&self, cause: Cause, line: u32) -> TaskError
        ensures { result ≡ task_error.Refused (refusal self.now.source cause line) }
    {
        TaskError::Refused(Refusal {
            source: self.source,
            cause,
            line,
        })
    }

    // The program that the text spells.
    fn parse(&self, bytes: &[u8]) -> Result<Prog, TaskError>
        requires { length bytes.now ≤ 1073741824 }
        ensures read { IfOk result (λ p. IsProgram bytes.now (routines_of p)) }
        ensures refused { IfErr result (RefusesBy self.now.source (IsRefused bytes.now)) }
    {
        match read_prog(self.alloc, bytes) {
            Ok(p) => Ok(p),
            Err(ReadError::Fault { cause, line }) => Err(self.refused(cause, line)),
            Err(ReadError::NoMemory) => Err(TaskError::NoMemory),
        }
    }

    // The typing of a program.
    fn check(&self, p: &Prog) -> Result<Types, TaskError>
        ensures typing { IfOk result (λ t. IsTyping t.facts (routines_of p.now)
            (entry_of self.now.signature.now)) }
        ensures refused { IfErr result (RefusesBy self.now.source (IsTypingRefused
            (routines_of p.now) (entry_of self.now.signature.now))) }
    {
        match check_types(self.alloc, p, self.signature) {
            Ok(types) => Ok(types),
            Err(TypeError::Fault { cause, line }) => Err(self.refused(cause, line)),
            Err(TypeError::Conflict { line, .. }) => Err(self.refused(Cause::TypeFault, line)),
            Err(TypeError::NoMemory) => Err(TaskError::NoMemory),
        }
    }

    // That no statement of a typed program shares a list.
    fn look_for_sharing(&self, p: &Prog, types: &Types) -> Result<(), TaskError>
        ensures unshared { OnOk result (shared_lines types.now.facts (routines_of p.now) ≡ []) }
        ensures refused { IfErr result (RefusesBy self.now.source (IsSharedOn
            types.now.facts (routines_of p.now))) }
    {
        match unshared(p, types) {
            Ok(()) => Ok(()),
            Err(line) => Err(self.refused(Cause::Shared, line)),
        }
    }

    // One step after another, each over the whole program.
    fn read(&self, bytes: &[u8]) -> Result<(Prog, Types), TaskError>
        requires { length bytes.now ≤ 1073741824 }
        ensures read { IfOk result (λ r. IsTypedProgram bytes.now
            (entry_of self.now.signature.now) (routines_of r.0) r.1.facts) }
        ensures refused { IfErr result (RefusesBy self.now.source (IsProgramRefused bytes.now
            (entry_of self.now.signature.now))) }
    {
        let p = self.parse(bytes)?;
        let types = self.check(&p)?;
        self.look_for_sharing(&p, &types)?;
        Ok((p, types))
    }
}

// The typed program that a text spells for an entry.
fn read_typed(
    alloc: Global,
    signature: &Signature,
    bytes: &[u8],
    source: Source,
) -> Result<(Prog, Types), TaskError>
    requires { length bytes.now ≤ 1073741824 }
    ensures read { IfOk result (λ r. IsTypedProgram bytes.now (entry_of signature.now)
        (routines_of r.0) r.1.facts) }
    ensures refused { IfErr result (RefusesBy source (IsProgramRefused bytes.now
        (entry_of signature.now))) }
{
    let reader = Reader {
        alloc,
        signature,
        source,
    };
    reader.read(bytes)
}

/// Reads a program to its types, for a run of the bounds' entry: the program that the text spells,
/// and its typing, where no statement shares a list.
///
/// # Errors
///
/// The first refusal: of the text; of names, the entry and types; of sharing.
pub fn read_program(
    alloc: Global,
    bounds: &Bounds,
    bytes: &[u8],
    source: Source,
) -> Result<(Prog, Types), TaskError>
    requires { length bytes.now ≤ 1073741824 }
    ensures read { IfOk result (λ r. IsTypedProgram bytes.now (entry_at bounds.now)
        (routines_of r.0) r.1.facts) }
    ensures refused { IfErr result (RefusesBy source (IsProgramRefused bytes.now
        (entry_at bounds.now))) }
    ensures program { (p : List Routine) (T : List AnyFact)
        → IsTypedProgram bytes.now (entry_at bounds.now) p T → IsGiven p T result }
    ensures refusal { (c : AnyCause) (line : ℕ)
        → IsProgramRefused bytes.now (entry_at bounds.now) c line
        → IsRefusal source c line result }
{
    let signature = signature(alloc, bounds)?;
    read_typed(alloc, &signature, bytes, source)
}
