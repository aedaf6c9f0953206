//! Laws of lanes, each the contract of a function that does nothing.
ghost use Rattle.bit_lanes.specs.LaneLaws.{LanesAreFew, LanesAreNumbers};

/// Truth values of six variables are those of one of 64 lanes.
pub fn lanes_are_few()
    ensures { LanesAreFew }
{}

/// Each of the 64 lanes is that of its digits.
pub fn lanes_are_numbers()
    ensures { LanesAreNumbers }
{}
