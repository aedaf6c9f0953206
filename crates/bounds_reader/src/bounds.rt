//! What a bounds file says.
ghost use Rattle.std.specs.Prelude.{◌≡◌, ◌≤◌, true, false, length};
ghost use Rattle.mpy_tree.specs.NameLengths.{is_long};
ghost use Rattle.bounds_reader.specs.Ranges.{are_in_range};

use crate::params::Params;
use mpy_tree::{Limits, Name};

/// The limits of a run, the function that is graded, and the inputs that count: all lists of
/// values, one for each parameter, in the ranges of these.
#[derive(Drop)]
pub struct Bounds {
    pub limits: Limits,
    /// The name of the function that is graded, of at most 40 bytes.
    pub entry: Name,
    /// The physical line on which the entry is named, counted from 1.
    pub entry_line: u32,
    /// At most 4 parameters. No range is empty; numbers are within the width and lengths within
    /// the cap; an alphabet has a character, and none twice.
    pub params: Params,
    pub ghost short_entry: { is_long entry ≡ false },
    pub ghost few_params: { length params ≤ 4 },
    pub ghost ranges: { are_in_range limits params ≡ true },
}
