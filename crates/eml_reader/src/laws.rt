//! What a file spells, and whether it is refused, are one thing.
ghost use Rattle.eml_reader.specs.FileLaws.{NotReadAndRefused, OneOfNine, OneReading, OneRefusal};
ghost use Rattle.eml_reader.specs.FileLaws.{ReadOrRefused};

/// Bytes spell the rules of one file at most.
pub fn one_reading()
    ensures holds { OneReading }
{}

/// Bytes spell rules, or are refused.
pub fn read_or_refused()
    ensures holds { ReadOrRefused }
{}

/// Bytes that spell rules aren't refused.
pub fn not_read_and_refused()
    ensures holds { NotReadAndRefused }
{}

/// Bytes are refused for one cause, at one line.
pub fn one_refusal()
    ensures holds { OneRefusal }
{}

/// Bytes are refused for one of the nine causes of rules.
pub fn one_of_nine()
    ensures holds { OneOfNine }
{}
