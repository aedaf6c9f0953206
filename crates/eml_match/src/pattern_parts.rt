//! The parts of a side of a rule, by their place.
ghost use Rattle.std.specs.Prelude.{◌≡◌, ◌+◌, ◌<◌, ◌^◌, IsSome, ◌∷◌, [], map, slice_get};
ghost use Rattle.std.specs.Prelude.{option_map};
ghost use Rattle.choice_tree.specs.RuleViews.{template_of, templates, template_end};
ghost use Rattle.choice_tree.specs.Templates.{no_templates};
ghost use Rattle.eml_match.specs.Parts.{set_elements, template_list, template_parts, template_seen};

use crate::parts::element;
use choice_tree::PExpr;

/// The part of a node of a side at a place, in the order in which they are written.
pub fn pattern_part(e: &PExpr, i: usize) -> Option<&PExpr>
    ensures part { option_map template_seen result ≡ slice_get (template_parts (template_of e.now))
        i }
    ensures near { IsSome result → i + 1 < 2 ^ 64 }
{
    match e {
        PExpr::Int(_)
        | PExpr::Bool(_)
        | PExpr::Text(_)
        | PExpr::Name(_)
        | PExpr::Meta(_)
        | PExpr::Set(_)
        | PExpr::Local(_) => None,
        PExpr::List(es) | PExpr::Call(_, es) => part_at(es.items.as_slice(), i),
        PExpr::Neg(a) | PExpr::Not(a) => one_part(a, i),
        PExpr::Arith(_, a, b)
        | PExpr::Cmp(_, a, b)
        | PExpr::And(a, b)
        | PExpr::Or(a, b)
        | PExpr::Index(a, b) => one_of_two(a, b, i),
        PExpr::Cond { test, yes, no } => {
            if i == 0 {
                Some(yes)
            } else {
                one_of_two(test, no, i - 1)
            }
        }
        PExpr::Slice(a, from, to) => {
            if i == 0 {
                Some(a)
            } else {
                one_of_ends(from, to, i - 1)
            }
        }
    }
}

/// The element of a set at a place.
pub fn set_element(e: &PExpr, i: usize) -> Option<&PExpr>
    ensures part { option_map template_seen result ≡ slice_get (set_elements (template_of e.now))
        i }
    ensures near { IsSome result → i + 1 < 2 ^ 64 }
{
    match e {
        PExpr::Set(es) => part_at(es.items.as_slice(), i),
        _ => None,
    }
}

// The part at a place, where there is one, and where there are two.
fn one_part(a: &PExpr, i: usize) -> Option<&PExpr>
    ensures part { option_map template_seen result ≡ slice_get (template_of a.now ∷ []) i }
    ensures near { IsSome result → i + 1 < 2 ^ 64 }
{
    if i == 0 { Some(a) } else { None }
}

fn one_of_two<'a>(a: &'a PExpr, b: &'a PExpr, i: usize) -> Option<&'a PExpr>
    ensures part { option_map template_seen result ≡ slice_get (template_of a.now ∷ template_of
        b.now ∷
        []) i }
    ensures near { IsSome result → i + 1 < 2 ^ 64 }
{
    match i {
        0 => Some(a),
        1 => Some(b),
        _ => None,
    }
}

// The end of a slice at a place.
fn one_of_ends<'a>(
    from: &'a Option<Box<PExpr>>,
    to: &'a Option<Box<PExpr>>,
    i: usize,
) -> Option<&'a PExpr>
    ensures part { option_map template_seen result ≡ slice_get (template_list (template_end (λ b.
        template_of b.value) from.now (template_end (λ b. template_of b.value) to.now
        no_templates))) i }
    ensures near { IsSome result → i + 1 < 2 ^ 64 }
{
    match (from, to) {
        (Some(a), Some(b)) => one_of_two(a, b, i),
        (Some(a), None) | (None, Some(a)) => one_part(a, i),
        (None, None) => None,
    }
}

// The side at a place of a list.
fn part_at(es: &[PExpr], i: usize) -> Option<&PExpr>
    ensures part { option_map template_seen result ≡ slice_get (template_list (templates (map
        template_of es.now))) i }
    ensures near { IsSome result → i + 1 < 2 ^ 64 }
{
    match element(es, i) {
        None => None,
        Some(e) => Some(e),
    }
}
