//! Writing a text of a class.
ghost use Rattle.class_run.specs.Says.{IsOfText, Says};

use crate::status::ClassStatus;
use grade_io::{PutError, Sink, write_text};

/// Writes a text, and ends with its status where all of it was written.
pub fn say<K: Sink>(out: &mut K, text: &[u8], status: ClassStatus) -> ClassStatus
    requires { IsOfText status }
    ensures { Says text.now status (K.seen out.old) (K.seen out.new) result }
{
    match write_text(out, text) {
        Ok(()) => status,
        Err(PutError::Failed) => ClassStatus::WriteFailed,
        Err(PutError::NoMemory) => ClassStatus::NoMemory,
    }
}
