//! Names of lists that are written as copies.
ghost use Rattle.std.specs.Prelude.{◌≡◌, true, false, IfSome, IfNone};
ghost use Rattle.mpy_tree.specs.Trees.{Trees, node};
ghost use Rattle.mpy_tree.specs.Trees as kind;
ghost use Rattle.choice_tree.specs.Contexts.{copies};
ghost use Rattle.choice_tree.specs.Heads.{head_kind};
ghost use Rattle.eml_rewrite.specs.Spots.{context_at};

use crate::sharing::Sharing;
use crate::spot::Spot;
use choice_tree::Head;
use mpy_tree::{Name, Ty};
use mpy_types::Known;

impl<K: Known> Spot<'_, K> {
    /// The list's name that is written as a copy there, if the node is one.
    pub fn copied<'b>(&self, head: Head<'b>) -> Option<&'b Name>
        ensures copied { IfSome result (λ x. (ts : Trees) → copies (context_at self.now)
            (node (head_kind head.entry) ts) ≡ true) }
        ensures name { IfSome result (λ x. head_kind head.entry ≡ kind.Name x.now) }
        ensures not_copied { IfNone result ((ts : Trees) → copies (context_at self.now)
            (node (head_kind head.entry) ts) ≡ false) }
    {
        match (self.sharing, head) {
            (Sharing::Copied, Head::Name(x)) => {
                match self.scope.known.local(self.scope.number, x).only() {
                    Some(Ty::List) => Some(x),
                    _ => None,
                }
            }
            _ => None,
        }
    }
}
