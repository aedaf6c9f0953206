//! How large numbers, loops, calls and lists may become, and how much a run may print.
ghost use Rattle.std.specs.Prelude.{◌≤◌};

/// The limits of a run.
#[derive(Clone, Copy, Drop)]
pub struct Limits {
    /// Numbers run from `-2^(width-1)` to `2^(width-1) - 1`.
    pub width: u32,
    /// How many turns one entry of a loop may make.
    pub turns: u32,
    /// How deep calls may go; the entry is at depth 1.
    pub depth: u32,
    /// How many elements a list, and how many characters a text, may have.
    pub cap: u32,
    /// How many printed values a run keeps.
    pub prints: u32,
    ghost width_range: { (3 ≤ width) × (width ≤ 16) },
    ghost turns_range: { (1 ≤ turns) × (turns ≤ 32) },
    ghost depth_range: { (1 ≤ depth) × (depth ≤ 8) },
    ghost cap_range: { (1 ≤ cap) × (cap ≤ 16) },
    ghost prints_range: { prints ≤ 8 },
}
