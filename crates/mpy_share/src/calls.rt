//! Calls of a function.
ghost use Rattle.std.specs.Prelude.{◌≡◌, ◌∷◌, [], map};
ghost use Rattle.std.specs.List.{flat_map, list_any};
ghost use Rattle.mpy_tree.specs.View.{term_of, terms_of, end_by, action_of, block_of, routine_of};
ghost use Rattle.mpy_tree.specs.Sites.{nodes, all_nodes, end_nodes, own_terms, site_nodes, sites};
ghost use Rattle.mpy_tree.specs.Leasts.{least};
ghost use Rattle.mpy_scopes.specs.Seen.{site_of};
ghost use Rattle.mpy_tree.specs.Sharing.{is_call_of, called_on, is_called, has_line};

use crate::share::on_line_if;
use crate::walk::{Look, least_in};
use mpy_scopes::Site;
use mpy_tree::{Act, Expr, Exprs, Func, Name};

/// Whether a call in an expression names a function.
#[tactic(auto, using(crate::proofs::Leasts::any_of_either))]
#[cycle(calls)]
fn calls(e: &Expr, f: &Name) -> bool
    ensures { result ≡ list_any (is_call_of f.now) (nodes (term_of e.now)) }
{
    match e {
        Expr::Int(_) | Expr::Bool(_) | Expr::Text(_) | Expr::Name(_) => false,
        Expr::List(es) => some_call(es, f),
        Expr::Neg(a) | Expr::Not(a) => calls(a, f),
        Expr::Arith(_, a, b)
        | Expr::Cmp(_, a, b)
        | Expr::And(a, b)
        | Expr::Or(a, b)
        | Expr::Index(a, b) => calls(a, f) || calls(b, f),
        Expr::Cond { test, yes, no } => calls(yes, f) || calls(test, f) || calls(no, f),
        Expr::Slice(a, from, to) => calls(a, f) || end_calls(from, f) || end_calls(to, f),
        Expr::Call(g, es) => f.is(g) || some_call(es, f),
    }
}

// Whether a call in an end of a slice names a function.
#[cycle(calls)]
fn end_calls(e: &Option<Box<Expr>>, f: &Name) -> bool
    ensures { result ≡ list_any (is_call_of f.now)
        (end_nodes (end_by (λ b. term_of b.value) e.now)) }
{
    match e {
        None => false,
        Some(e) => calls(e, f),
    }
}

// Whether a call in expressions names a function.
#[tactic(auto, using(crate::proofs::Leasts::any_of_either))]
#[cycle(calls)]
fn some_call(es: &Exprs, f: &Name) -> bool
    ensures { result ≡ list_any (is_call_of f.now) (all_nodes (terms_of es.now)) }
{
    for e in &es.items {
        if calls(e, f) {
            return true;
        }
    }
    false
}

/// Statements in which a call names a function.
#[derive(Drop)]
struct CallsOf<'a> {
    name: &'a Name,
}

impl Look for CallsOf<'_> {
    ghost lines = { λ s. called_on s.name.now };

    fn look(&self, s: Site<'_>) -> Option<u32> {
        on_line_if(site_calls(s, self.name), s.line())
    }
}

// Whether a call in a statement itself names a function.
fn site_calls(s: Site<'_>, f: &Name) -> bool
    ensures { result ≡ list_any (is_call_of f.now) (site_nodes (site_of s.entry)) }
{
    match s {
        Site::Asks(_, e) => one_calls(e, f),
        Site::Does(_, act) => own_calls(act, f),
    }
}

// Whether a call in the one expression of a statement names a function.
#[tactic(auto, using(crate::proofs::Leasts::any_of_either))]
fn one_calls(e: &Expr, f: &Name) -> bool
    ensures { result ≡ list_any (is_call_of f.now) (flat_map nodes (term_of e.now ∷ [])) }
{
    calls(e, f)
}

// Whether a call in the two expressions of a statement names a function.
#[tactic(auto, using(crate::proofs::Leasts::any_of_either))]
fn two_call(a: &Expr, b: &Expr, f: &Name) -> bool
    ensures { result ≡ list_any (is_call_of f.now) (flat_map nodes
        (term_of a.now ∷ term_of b.now ∷ [])) }
{
    calls(a, f) || calls(b, f)
}

// Whether a call in the expressions of a statement itself names a function.
fn own_calls(act: &Act, f: &Name) -> bool
    ensures { result ≡ list_any (is_call_of f.now)
        (flat_map nodes (own_terms (action_of act.now))) }
{
    match act {
        Act::Assign(_, e)
        | Act::Augment(_, _, e)
        | Act::Append(_, e)
        | Act::Print(e)
        | Act::Return(Some(e))
        | Act::While(e, _)
        | Act::For(_, e, _) => one_calls(e, f),
        Act::Put(_, k, e) | Act::AugmentAt(_, k, _, e) => two_call(k, e, f),
        _ => false,
    }
}

/// Whether some call names the function.
pub fn is_called(funcs: &[Func], f: &Name) -> bool
    ensures { result ≡ is_called (map routine_of funcs.now) f.now }
{
    for func in funcs {
        if has_call(func, f) {
            return true;
        }
    }
    false
}

// Whether a call in a function names another.
#[tactic(auto, using(crate::proofs::Leasts::some_least))]
fn has_call(func: &Func, f: &Name) -> bool
    ensures { result ≡ has_line (flat_map (called_on f.now) (sites (block_of func.now.body))) }
{
    least_in(&CallsOf { name: f }, &func.body).is_some()
}
