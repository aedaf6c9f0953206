//! How a call of the grader ends.
ghost use Rattle.std.specs.Prelude.{◌≡◌};
ghost use Rattle.std.specs.Process.{exit_status};
ghost use Rattle.grade_io.specs.Status.{number_of};

use std::process::ExitCode;

/// How a call of the grader ends. The program ends with the status's number, from 0 in this order.
#[derive(Clone, Copy, Debug, PartialEq, Eq)]
pub enum Status {
    /// The submission needs no correction; of another command, that it did its work.
    Correct,
    /// A correction of least cost was written.
    Corrected,
    /// No correction out of the rules serves.
    NoCorrection,
    /// The budget was spent before an answer was found.
    Spent,
    /// A text was refused, and its refusal written.
    Refused,
    /// A file couldn't be read. Nothing was written.
    ReadFailed,
    /// The output took a front of the text alone.
    WriteFailed,
    /// Memory lacked. A front of the text was written, or nothing.
    NoMemory,
    /// The words ask for no command. The usage was written.
    Usage,
    /// The certificate couldn't be stored. Nothing was written.
    StoreFailed,
    /// The certificate doesn't prove its claim.
    Rejected,
}

/// The number that the program ends with, from 0 to 10.
pub fn status_number(s: Status) -> u8
    ensures { result ≡ number_of s }
{
    s as u8
}

/// How a program ends that has this status: with the status's number.
pub fn exit_of(status: Status) -> ExitCode
    ensures { exit_status result ≡ number_of status }
{
    ExitCode::from(status_number(status))
}
