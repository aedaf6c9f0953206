//! What rules without a fault keep.
ghost use Rattle.eml_faults.specs.FaultLaws.{PrimesWithoutFault, SmallWithoutFault};

/// Rules that pass no limit are small, and no more than 64.
pub fn small_without_fault()
    ensures holds { SmallWithoutFault }
{}

/// Rules without a fault leave no metavariable that is a whole left side primed.
pub fn primes_without_fault()
    ensures holds { PrimesWithoutFault }
{}
