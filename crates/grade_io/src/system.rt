//! One call of a reader or a writer of the system.
ghost use Rattle.std.specs.Prelude.{◌≡◌, ◌<◌, ◌≤◌, ◌↔◌, ℕ, List, [], ◌∷◌, Option, None, Ok, Err};
ghost use Rattle.std.specs.Prelude.{IfErr, IfOk, IsErrAnd, OnErr, length, take};
ghost use Rattle.std.specs.Io.KnownBytes.{Appends, Consumes, IsAtEnd, Keeps};
ghost use Rattle.std.specs.IoError.{error_kind};
ghost use Rattle.grade_io.specs.Devices.{added};
ghost use Rattle.grade_io.specs.Turns.{Turn};

use std::io;
use std::io::{ErrorKind, Read, Write};

/// Why one call moved no byte.
#[derive(Clone, Copy, Debug, PartialEq, Eq)]
pub enum Stall {
    /// A signal interrupted the call. This is no fault.
    Interrupted,
    /// The call failed.
    Failed,
}

/// A reader of the system: the bytes that it has left, and what each of its calls came to, where
/// it tells them. Each `Read` is one that tells no calls.
pub trait Input {
    ghost remaining: { Self → Option (List ℕ) };

    ghost turns: { Self → Option (List Turn) };

    /// Makes one call.
    fn read_once(&mut self, buf: &mut [u8]) -> Result<usize, Stall>
        ensures most { IfOk result (λ n. n ≤ length buf.new) }
        ensures ok { IfOk result (λ n. Consumes (remaining self.old) (remaining self.new)
            (take n buf.new)) }
        ensures end { IfOk result (λ n. n ≡ 0 → 0 < length buf.old
            → IsAtEnd (remaining self.new)) }
        ensures err { OnErr result (Keeps (remaining self.old) (remaining self.new)) }
        ensures turn { turns self.new ≡ added (turns self.old) (result ∷ []) };
}

/// A writer of the system: the bytes that it holds, and what each of its calls came to, where it
/// tells them. Each `Write` is one that tells no calls.
pub trait Output {
    ghost contents: { Self → Option (List ℕ) };

    ghost turns: { Self → Option (List Turn) };

    /// Makes one call. One that takes no byte failed.
    fn write_once(&mut self, piece: &[u8]) -> Result<usize, Stall>
        ensures most { IfOk result (λ n. n ≤ length piece.now) }
        ensures some { IfOk result (λ n. 0 < n) }
        ensures ok { IfOk result (λ n. Appends (contents self.old) (contents self.new)
            (take n piece.now)) }
        ensures err { OnErr result (Keeps (contents self.old) (contents self.new)) }
        ensures turn { turns self.new ≡ added (turns self.old) (result ∷ []) };
}

/// Why one call with this error moved no byte.
fn stall_of(error: io::Error) -> Stall
    ensures { (result ≡ Stall.Interrupted) ↔ (error_kind error ≡ ErrorKind.Interrupted) }
{
    if error.kind() == ErrorKind::Interrupted {
        Stall::Interrupted
    } else {
        Stall::Failed
    }
}

/// What one write comes to: one that took no byte failed.
fn taken_by(call: io::Result<usize>) -> Result<usize, Stall>
    ensures ok { IfOk call (λ n. 0 < n → result ≡ Ok n) }
    ensures none { IfOk call (λ n. n ≡ 0 → result ≡ Err Stall.Failed) }
    ensures err { IfErr call (λ e. IsErrAnd result (λ s. (s ≡ Stall.Interrupted)
        ↔ (error_kind e ≡ ErrorKind.Interrupted))) }
{
    match call {
        Ok(0) => Err(Stall::Failed),
        Ok(count) => Ok(count),
        Err(error) => Err(stall_of(error)),
    }
}

impl<F: Read> Input for F {
    ghost remaining = { F.remaining };

    ghost turns = { λ _. None };

    fn read_once(&mut self, buf: &mut [u8]) -> Result<usize, Stall> {
        self.read(buf).map_err(stall_of)
    }
}

impl<W: Write> Output for W {
    ghost contents = { W.contents };

    ghost turns = { λ _. None };

    fn write_once(&mut self, piece: &[u8]) -> Result<usize, Stall> {
        taken_by(self.write(piece))
    }
}
