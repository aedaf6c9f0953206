//! Sides are read exactly as they are spelled.
ghost use Rattle.eml_sides.specs.SideLaws.{LeftSidesAreSpelled, RightSidesAreSpelled};

/// Tokens are read as a left side exactly where they spell it, so they spell one at most.
pub fn left_sides_are_spelled()
    ensures holds { LeftSidesAreSpelled }
{}

/// Tokens are read as a right side exactly where they spell it, so they spell one at most.
pub fn right_sides_are_spelled()
    ensures holds { RightSidesAreSpelled }
{}
