//! The parts of an expression, by their place.
ghost use Rattle.std.specs.Prelude.{◌≡◌, ◌+◌, ◌<◌, ◌^◌, IsSome, ◌∷◌, [], map, slice_get};
ghost use Rattle.std.specs.Prelude.{option_map};
ghost use Rattle.mpy_tree.specs.View.{term_of, terms, end_by};
ghost use Rattle.mpy_tree.specs.Shapes.{shape, shapes, shape_and};
ghost use Rattle.mpy_tree.specs.Trees.{no_trees};
ghost use Rattle.eml_match.specs.Parts.{parts, tree_list, seen};

use mpy_tree::Expr;

/// The part of an expression at a place, in the order in which they are written.
pub fn part(e: &Expr, i: usize) -> Option<&Expr>
    ensures part { option_map seen result ≡ slice_get (parts (shape (term_of e.now))) i }
    ensures near { IsSome result → i + 1 < 2 ^ 64 }
{
    match e {
        Expr::Int(_) | Expr::Bool(_) | Expr::Text(_) | Expr::Name(_) => None,
        Expr::List(es) | Expr::Call(_, es) => part_at(es.items.as_slice(), i),
        Expr::Neg(a) | Expr::Not(a) => one_part(a, i),
        Expr::Arith(_, a, b)
        | Expr::Cmp(_, a, b)
        | Expr::And(a, b)
        | Expr::Or(a, b)
        | Expr::Index(a, b) => one_of_two(a, b, i),
        Expr::Cond { test, yes, no } => {
            if i == 0 {
                Some(yes)
            } else {
                one_of_two(test, no, i - 1)
            }
        }
        Expr::Slice(a, from, to) => {
            if i == 0 {
                Some(a)
            } else {
                one_of_ends(from, to, i - 1)
            }
        }
    }
}

// The part at a place, where there is one, and where there are two.
fn one_part(a: &Expr, i: usize) -> Option<&Expr>
    ensures part { option_map seen result ≡ slice_get (shape (term_of a.now) ∷ []) i }
    ensures near { IsSome result → i + 1 < 2 ^ 64 }
{
    if i == 0 { Some(a) } else { None }
}

fn one_of_two<'a>(a: &'a Expr, b: &'a Expr, i: usize) -> Option<&'a Expr>
    ensures part { option_map seen result ≡ slice_get (shape (term_of a.now) ∷ shape (term_of
        b.now) ∷
        []) i }
    ensures near { IsSome result → i + 1 < 2 ^ 64 }
{
    match i {
        0 => Some(a),
        1 => Some(b),
        _ => None,
    }
}

// The end of a slice at a place.
fn one_of_ends<'a>(
    from: &'a Option<Box<Expr>>,
    to: &'a Option<Box<Expr>>,
    i: usize,
) -> Option<&'a Expr>
    ensures part { option_map seen result ≡ slice_get (tree_list (shape_and (end_by (λ b. term_of
        b.value) from.now) (shape_and (end_by (λ b. term_of b.value) to.now) no_trees))) i }
    ensures near { IsSome result → i + 1 < 2 ^ 64 }
{
    match (from, to) {
        (Some(a), Some(b)) => one_of_two(a, b, i),
        (Some(a), None) | (None, Some(a)) => one_part(a, i),
        (None, None) => None,
    }
}

// The expression at a place of a list.
fn part_at(es: &[Expr], i: usize) -> Option<&Expr>
    ensures part { option_map seen result ≡ slice_get (tree_list (shapes (terms (map term_of
        es.now)))) i }
    ensures near { IsSome result → i + 1 < 2 ^ 64 }
{
    match element(es, i) {
        None => None,
        Some(e) => Some(e),
    }
}

/// The element at a place of a list.
pub fn element<T>(xs: &[T], i: usize) -> Option<&T>
    ensures part { option_map (λ r. r.now) result ≡ slice_get xs.now i }
    ensures near { IsSome result → i + 1 < 2 ^ 64 }
{
    xs.get(i)
}
