//! The parts of a side of a rule by their place, those of a set among them.
ghost use Rattle.std.specs.Prelude.{◌≡◌, ◌+◌, ◌<◌, ◌^◌, IsSome, option_map, slice_get};
ghost use Rattle.choice_tree.specs.RuleViews.{template_of};
ghost use Rattle.eml_match.specs.Parts.{template_seen};
ghost use Rattle.eml_faults.specs.Sides.{side_parts};

use choice_tree::PExpr;
use eml_match::pattern_parts::{pattern_part, set_element};

/// The part of a node of a side at a place, in the order in which they are written. The parts of a
/// set are its elements.
pub fn side_part(e: &PExpr, i: usize) -> Option<&PExpr>
    ensures part { option_map template_seen result ≡ slice_get (side_parts (template_of e.now)) i }
    ensures near { IsSome result → i + 1 < 2 ^ 64 }
{
    match e {
        PExpr::Set(_) => set_element(e, i),
        _ => pattern_part(e, i),
    }
}
