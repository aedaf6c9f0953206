//! Laws of programs and their texts.
ghost use Rattle.mpy_round_trip.specs.Parentheses.{ParenthesizedAboveItsLevel};
ghost use Rattle.mpy_round_trip.specs.RoundTrip.{SpelledByItsText, SpelledByNoOther};

use mpy_parser::one_program;

/// The printed text of a proper program spells it, but for its lines.
pub fn spelled_by_its_text()
    ensures holds { SpelledByItsText }
{}

/// The printed text of a proper program spells no other.
pub fn spelled_by_no_other()
    ensures holds { SpelledByNoOther }
{
    one_program();
}

/// The level by which the printer puts parentheses round a part is the highest that spells the part
/// without them.
pub fn parenthesized_above_its_level()
    ensures holds { ParenthesizedAboveItsLevel }
{}
