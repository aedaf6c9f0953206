//! That what is read is proper.
ghost use Rattle.mpy_round_trip.specs.ReadingProper.{ReadsProper};

use mpy_lexer::lines_of_their_source;

/// Every program that a text spells is proper.
pub fn what_is_read_is_proper()
    ensures holds { ReadsProper }
{
    lines_of_their_source();
}
