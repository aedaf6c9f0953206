//! Places at which a list would be shared.
ghost use Rattle.std.specs.Prelude.{◌≡◌};
ghost use Rattle.choice_tree.specs.Contexts.{sharing_below, sharing_inside};
ghost use Rattle.choice_tree.specs.Heads.{head_kind};
ghost use Rattle.eml_rewrite.specs.Spots.{sharing_of};

use choice_tree::Head;

/// Whether the name of a list that stands there would be shared. One in an alternative is copied.
#[derive(Clone, Copy, Debug, PartialEq, Eq, Drop)]
pub enum Sharing {
    Apart,
    Shared,
    Copied,
}

impl Sharing {
    /// That of the part of a node at a place, counted from 0: the arms of a conditional stand
    /// where it does.
    pub fn below(self, head: Head<'_>, i: usize) -> Sharing
        ensures { sharing_of result ≡ sharing_below (head_kind head.entry) i (sharing_of self) }
    {
        match head {
            Head::Cond => match i {
                1 => Sharing::Apart,
                _ => self,
            },
            _ => Sharing::Apart,
        }
    }

    /// That of an alternative that stands there.
    pub fn inside(self) -> Sharing
        ensures { sharing_of result ≡ sharing_inside (sharing_of self) }
    {
        match self {
            Sharing::Apart => Sharing::Apart,
            _ => Sharing::Copied,
        }
    }
}
