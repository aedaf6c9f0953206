//! Why no rules are given.
ghost use Rattle.std.specs.Prelude.{◌≡◌};
ghost use Rattle.eml_reader.specs.declared.rule_error.RuleError.TheVariants as rule_error;

use mpy_tree::Cause;
use std::alloc::AllocError;

/// Why bytes aren't read as rules.
#[derive(Clone, Copy, PartialEq, Eq, Debug, Drop)]
pub enum RuleError {
    /// The first cause that stands in the file, one of `Byte`, `Token`, `Syntax`, `Limit`, `Name`,
    /// `Arity`, `RuleMeta`, `RulePrime` and `RuleTwice`, and its line, counted from 1.
    Fault { cause: Cause, line: u32 },
    /// There was no memory.
    NoMemory,
}

impl From<AllocError> for RuleError {
    ghost from_gives = { λ _ e. e ≡ rule_error.NoMemory };

    fn from(_error: AllocError) -> RuleError {
        RuleError::NoMemory
    }
}
