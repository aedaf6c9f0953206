//! The lines of refusals.
ghost use Rattle.std.specs.Prelude.{◌≡◌, ℕ, List, IfOk};
ghost use Rattle.mpy_tree.specs.declared.refusal.Refusal.{Refusal as AnyRefusal};

use mpy_tree::{NoMemory, Refusal};
use std::alloc::Global;

/// How a command tells that one of its sources is refused.
pub trait Lines {
    ghost line_of: { Self → AnyRefusal → List ℕ };

    /// The line that is written for a refusal.
    fn line(&self, alloc: Global, refusal: &Refusal) -> Result<Vec<u8>, NoMemory>
        ensures { IfOk result (λ v. v.items ≡ line_of self.now refusal.now) };
}
