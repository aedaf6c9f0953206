//! The size that is left while a weighted tree is built, and the numbers of its picks.
ghost use Rattle.std.specs.Prelude.{◌≡◌, ◌+◌, ◌<◌, ◌≤◌, OnOk, IfOk, IsErrOf};

use crate::error::RewriteError;

/// The number of the next pick, and how many nodes more there may be.
#[derive(Drop)]
pub struct Counter {
    pub next: u32,
    pub left: u32,
    ghost fits: { next + left ≤ 1000000 },
}

impl Counter {
    /// Takes as many nodes, if they are left.
    pub fn take(&mut self, nodes: u32) -> Result<(), RewriteError>
        ensures next { self.new.next ≡ self.old.next }
        ensures left { OnOk result (self.old.left ≡ self.new.left + nodes) }
        ensures large { IsErrOf result RewriteError.Large → self.old.left < nodes }
        ensures never { IsErrOf result RewriteError.NoMemory → ⊥ }
    {
        if self.left < nodes {
            return Err(RewriteError::Large);
        }
        self.left -= nodes;
        Ok(())
    }

    /// The number of the next pick, which is a node too.
    pub fn number(&mut self) -> Result<u32, RewriteError>
        ensures number { IfOk result (λ n. n ≡ self.old.next) }
        ensures next { OnOk result (self.new.next ≡ self.old.next + 1) }
        ensures left { OnOk result (self.old.left ≡ self.new.left + 1) }
        ensures large { IsErrOf result RewriteError.Large → self.old.left < 1 }
        ensures never { IsErrOf result RewriteError.NoMemory → ⊥ }
    {
        if self.left < 1 {
            return Err(RewriteError::Large);
        }
        let number = self.next;
        self.left -= 1;
        self.next += 1;
        Ok(number)
    }
}
