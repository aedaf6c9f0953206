//! How the grading of a class ends.
ghost use Rattle.std.specs.Prelude.{◌≡◌};
ghost use Rattle.std.specs.Process.{exit_status};
ghost use Rattle.class_run.specs.Numbers.{number_of};

use std::process::ExitCode;

/// How the grading of a class ends.
#[derive(Clone, Copy, Debug, PartialEq, Eq)]
pub enum ClassStatus {
    /// Each listed file has its entry, and the report was written.
    Done,
    /// One of the four files is too long, or the list isn't of its form. That was written.
    Refused,
    /// One of the four files couldn't be read. Nothing was written.
    ReadFailed,
    /// The output took a front of the text alone.
    WriteFailed,
    /// Memory lacked. A front of the text was written, or nothing.
    NoMemory,
    /// The words ask for no class. The usage was written.
    Usage,
}

/// The number that the program ends with.
pub fn class_number(s: ClassStatus) -> u8
    ensures { result ≡ number_of s }
{
    match s {
        ClassStatus::Done => 0,
        ClassStatus::Refused => 4,
        ClassStatus::ReadFailed => 5,
        ClassStatus::WriteFailed => 6,
        ClassStatus::NoMemory => 7,
        ClassStatus::Usage => 8,
    }
}

/// How a program ends that has this status: with the status's number.
pub fn class_exit(status: ClassStatus) -> ExitCode
    ensures { exit_status result ≡ number_of status }
{
    ExitCode::from(class_number(status))
}
