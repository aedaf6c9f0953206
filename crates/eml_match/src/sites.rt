//! Where rules with a place are tried.
ghost use Rattle.std.specs.Prelude.{◌≡◌, IfOk};
ghost use Rattle.choice_tree.specs.Matching.{here};
ghost use Rattle.eml_match.specs.MatchViews.{bindings_found};
ghost use Rattle.eml_match.specs.MatchedRules.{site_of};

use crate::NoMemory;
use crate::bindings::{Binding, Bound};
use crate::heads::{none_if, one_binding};
use choice_tree::Place;
use mpy_tree::Name;
use std::alloc::Global;

/// What the whole expression of a statement is to rules with a place, with the statement's target.
#[derive(Clone, Copy, Drop)]
pub enum Site<'a> {
    Elsewhere,
    Return,
    Assign(&'a Name),
    If,
    While,
    For(&'a Name),
}

/// What the target of a rule stands for, if a rule with this place is tried there.
pub fn match_place<'a>(
    alloc: Global,
    place: Place,
    site: Site<'a>,
) -> Result<Option<Vec<Binding<'a>>>, NoMemory>
    ensures { IfOk result (λ r. bindings_found r ≡ here (site_of site.entry) place) }
{
    match (site, place) {
        (Site::Elsewhere, Place::Anywhere)
        | (Site::Return, Place::Return)
        | (Site::If, Place::If)
        | (Site::While, Place::While) => Ok(none_if(alloc, true)),
        (Site::Assign(x), Place::Assign(m)) | (Site::For(x), Place::For(m)) => {
            one_binding(alloc, m, Bound::Name(x))
        }
        _ => Ok(None),
    }
}
