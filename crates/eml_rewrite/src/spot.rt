//! Where an expression stands.
ghost use Rattle.std.specs.Prelude.{◌≡◌, ◌<◌, ◌^◌, length};

use crate::sharing::Sharing;
use choice_tree::Rules;
use eml_instances::TypedScope;
use mpy_types::Known;

/// Where an expression stands: in which function, and whether it shares a list there; the rules,
/// and in how many steps at most they are applied.
#[derive(Drop)]
pub struct Spot<'a, K: Known> {
    pub rules: &'a Rules,
    pub scope: &'a TypedScope<'a, K>,
    pub sharing: Sharing,
    pub steps: u32,
    ghost few_rules: { length rules.now.items.items < 2 ^ 32 },
}

impl<'a, K: Known> Spot<'a, K> {
    /// The same place, but for whether a list is shared there.
    pub fn with_sharing(&self, sharing: Sharing) -> Spot<'a, K>
        ensures { result ≡ record self.now { sharing = sharing } }
    {
        Spot {
            rules: self.rules,
            scope: self.scope,
            sharing,
            steps: self.steps,
        }
    }
}
