//! What a text spells, and whether it is refused, are one thing.
ghost use Rattle.mpy_parser.specs.ProgramLaws.{NotReadAndRefused, OneProgram, OneRefusal};
ghost use Rattle.mpy_parser.specs.ProgramLaws.{ReadOrRefused, RefusedForALimit};

/// A text spells one program at most.
pub fn one_program()
    ensures holds { OneProgram }
{}

/// A text spells a program within the limits, or is refused.
pub fn read_or_refused()
    ensures holds { ReadOrRefused }
{}

/// A text that spells a program within the limits isn't refused.
pub fn not_read_and_refused()
    ensures holds { NotReadAndRefused }
{}

/// A text that spells a program is refused for a limit alone.
pub fn refused_for_a_limit()
    ensures holds { RefusedForALimit }
{}

/// A text is refused for one cause, at one line.
pub fn one_refusal()
    ensures holds { OneRefusal }
{}
