//! Writing a text whole, by as many puts as it takes, and the status that this ends with.
ghost use Rattle.std.specs.Prelude.{◌≡◌, ◌≤◌, IfOk, OnOk};
ghost use Rattle.grade_io.specs.Faults.{PutFaults};
ghost use Rattle.grade_io.specs.Puts.{PutsSo};
ghost use Rattle.grade_io.specs.Says.{IsOfText, Says, end_of};
ghost use Rattle.grade_io.specs.Words.{refusal_line};
ghost use Rattle.grade_io.specs.Written.{Wrote, WrotePart};

use crate::devices::{NoMemory, PutError, Sink};
use crate::status::Status;
use std::alloc::Global;

/// Hands the sink all of the text that it hasn't taken yet, until it has taken all.
///
/// It stops at the first put that fails; what was written then is the front of the text.
pub fn write_text<K: Sink>(out: &mut K, text: &[u8]) -> Result<(), PutError>
    ensures whole { OnOk result (Wrote (K.seen out.old) (K.seen out.new) text.now) }
    ensures part { WrotePart (K.seen out.old) (K.seen out.new) text.now }
    // The count never falls. It rose where the answer is `Failed`, and else it is as it was.
    ensures later { (K.seen out.old).faults ≤ (K.seen out.new).faults }
    ensures faults { PutFaults result (K.seen out.old).faults (K.seen out.new).faults }
    // Where the plan of failures and the share of a put are told, the puts are those by which each
    // is handed all that is left.
    ensures puts { PutsSo text.now (K.seen out.old) (K.seen out.new) result }
{
    let mut done = 0;
    'put: while done < text.len() {
        done += out.put(&text[done..])?;
    }
    Ok(())
}

/// Writes a text, and ends with its status where all of it was written.
pub fn say<K: Sink>(out: &mut K, text: &[u8], status: Status) -> Status
    requires { IsOfText status }
    ensures says { Says text.now status (K.seen out.old) (K.seen out.new) result }
    ensures puts { PutsSo text.now (K.seen out.old) (K.seen out.new) (end_of result) }
{
    match write_text(out, text) {
        Ok(()) => status,
        Err(PutError::Failed) => Status::WriteFailed,
        Err(PutError::NoMemory) => Status::NoMemory,
    }
}

/// The line for a refusal of a file, by the word that names it and the name of the cause.
pub fn refusal_line(alloc: Global, file: &str, line: u32, cause: &str) -> Result<Vec<u8>, NoMemory>
    ensures { IfOk result (λ v. v.items ≡ refusal_line file.now line cause.now) }
{
    let text = format!(in alloc; "refused {file} line {line}: {cause}\n")?;
    Ok(text.into_bytes())
}
