//! A program read again from its printed text.
ghost use Rattle.std.specs.Prelude.{◌≡◌, ℕ, [], IfOk, IfErr};
ghost use Rattle.mpy_tree.specs.declared.refusal.Cause.{Cause as AnyCause};
ghost use Rattle.mpy_tree.specs.declared.refusal.Cause.TheVariants as cause;
ghost use Rattle.mpy_tree.specs.Printing.{program_text};
ghost use Rattle.mpy_tree.specs.View.{routines_of};
ghost use Rattle.mpy_limits.specs.Limits.{limit_lines};
ghost use Rattle.mpy_parser.specs.Programs.{HasNoLongLine, IsAnswered, IsProgram};
ghost use Rattle.mpy_parser.specs.declared.read_error.ReadError.TheVariants as read_error;
ghost use Rattle.mpy_round_trip.specs.Proper.{IsProper};
ghost use Rattle.mpy_round_trip.specs.RoundTrip.{AreSame};

use mpy_parser::{ReadError, not_read_and_refused, one_program, read_prog, refused_for_a_limit};
use mpy_printer::print_prog;
use mpy_tree::Prog;
use std::alloc::Global;

/// How many bytes can be read.
const MOST: usize = 1073741824;

/// The program that the printed text of a program spells.
///
/// Of a proper program that is the program itself, but for its lines.
///
/// # Errors
///
/// `Limit` where a program or its text passes a limit, each other cause only for a program that
/// isn't proper, and want of memory, also for a text of more than 1,073,741,824 bytes.
pub fn print_and_read(alloc: Global, p: &Prog) -> Result<Prog, ReadError>
    ensures spelled { IfOk result
        (λ q. IsProgram (program_text (routines_of p.now)) (routines_of q)) }
    ensures refused { IfErr result (IsAnswered (program_text (routines_of p.now))) }
    ensures same { IsProper (routines_of p.now)
        → IfOk result (λ q. AreSame (routines_of q) (routines_of p.now)) }
    ensures read { IsProper (routines_of p.now) → HasNoLongLine (program_text (routines_of p.now))
        → limit_lines (routines_of p.now) ≡ [] → IfErr result (λ e. e ≡ read_error.NoMemory) }
    ensures limits { IsProper (routines_of p.now)
        → IfErr result
        (λ e. (c : AnyCause) (line : ℕ) → e ≡ read_error.Fault c line → c ≡ cause.Limit) }
{
    one_program();
    not_read_and_refused();
    refused_for_a_limit();
    let text = print_prog(alloc, p)?;
    if text.len() > MOST {
        return Err(ReadError::NoMemory);
    }
    read_prog(alloc, text.as_slice())
}
