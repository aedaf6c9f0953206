//! That the lines of a program have no part in what it gives.
ghost use Rattle.mpy_laws.specs.LineLaws.{LinesDoNotMatter};

/// Programs that differ in their lines at most give the same values, and faults of the same kinds.
pub fn lines_do_not_matter()
    ensures holds { LinesDoNotMatter }
{}
