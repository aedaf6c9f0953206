//! The parts of a split.

ghost use Rattle.std.specs.Prelude.{◌+◌, ◌≤◌};

/// The parts that the lists or the texts of a parameter are split into, each of one length; the
/// first part has length `first`. One part alone has all lengths.
#[derive(Clone, Copy, Drop)]
pub struct Split {
    pub first: u32,
    pub parts: u32,
    pub ghost some: { 1 ≤ parts },
    pub ghost short: { first + parts ≤ 4294967295 },
}
