//! Why no weighted tree is given.
ghost use Rattle.std.specs.Prelude.{◌≡◌};
ghost use Rattle.eml_rewrite.specs.declared.error.RewriteError.TheVariants as stop;

use choice_tree::NoMemory;
use std::alloc::AllocFailed;

/// Why no tree is given: it has more than 1,000,000 nodes, or memory lacks.
#[derive(Clone, Copy, Debug, PartialEq, Eq, Drop)]
pub enum RewriteError {
    Large,
    NoMemory,
}

impl From<NoMemory> for RewriteError {
    ghost from_gives = { λ _ e. e ≡ stop.NoMemory };

    fn from(_error: NoMemory) -> RewriteError {
        RewriteError::NoMemory
    }
}

impl<T: Drop> From<AllocFailed<T>> for RewriteError {
    ghost from_gives = { λ _ e. e ≡ stop.NoMemory };

    fn from(_error: AllocFailed<T>) -> RewriteError {
        RewriteError::NoMemory
    }
}
