//! What a text spells, and whether it is refused, are one thing.
ghost use Rattle.bounds_reader.specs.BoundsLaws.{NotReadAndRefused, OneBounds, OneRefusal};
ghost use Rattle.bounds_reader.specs.BoundsLaws.{ReadOrRefused};

/// A text spells one bounds at most.
pub fn one_bounds()
    ensures holds { OneBounds }
{}

/// A text spells bounds, or is refused.
pub fn read_or_refused()
    ensures holds { ReadOrRefused }
{}

/// A text that spells bounds isn't refused.
pub fn not_read_and_refused()
    ensures holds { NotReadAndRefused }
{}

/// A text is refused for one cause, at one line.
pub fn one_refusal()
    ensures holds { OneRefusal }
{}
