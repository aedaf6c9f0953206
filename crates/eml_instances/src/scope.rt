//! Functions of a program whose names have known types.
ghost use Rattle.std.specs.Prelude.{◌≡◌, map, IfOk, filter};
ghost use Rattle.mpy_tree.specs.View.{routine_of, term_of};
ghost use Rattle.mpy_tree.specs.Shapes.{shape};
ghost use Rattle.mpy_tree.specs.Trees as kind;
ghost use Rattle.mpy_tree.specs.Trees.{leaf};
ghost use Rattle.mpy_scopes.specs.Seen.{name_of};
ghost use Rattle.choice_tree.specs.Typing.{locals_of, same_type, type_of};
ghost use Rattle.eml_match.specs.Resolutions.{bound_locals};
ghost use Rattle.eml_match.specs.MatchViews.{bound_seen};
ghost use Rattle.choice_tree.specs.Drafts.{term_in};
ghost use Rattle.eml_instances.specs.Scopes.{scope_of};

use crate::NoMemory;
use choice_tree::trees_have_the_types_of_terms;
use eml_match::Bound;
use mpy_scopes::Scopes;
use mpy_tree::{Expr, Name, Ty};
use mpy_types::{Known, type_in};
use std::alloc::Global;

/// A function of a program, by its number, and what is known of the types of names.
#[derive(Drop)]
pub struct TypedScope<'a, K: Known> {
    pub known: &'a K,
    pub scopes: &'a Scopes<'a>,
    pub number: usize,
}

/// The type of an expression there.
pub fn type_there<K: Known>(scope: &TypedScope<'_, K>, e: &Expr) -> Option<Ty>
    ensures { result ≡ type_of (scope_of (K.gives scope.now.known.now)
        scope.now.scopes.now.funcs.now scope.now.number) (shape (term_of e.now)) }
{
    trees_have_the_types_of_terms();
    type_in(scope.known, scope.scopes.funcs, scope.number, e)
}

/// Whether both are types, and the same one.
pub fn same_type(a: Option<Ty>, b: Option<Ty>) -> bool
    ensures { result ≡ same_type a b }
{
    match (a, b) {
        (Some(a), Some(b)) => a == b,
        _ => false,
    }
}

// The locals of a function, by its number.
fn locals_of<'a>(
    scopes: &Scopes<'a>,
    number: usize,
    alloc: Global,
) -> Result<Vec<&'a Name>, NoMemory>
    ensures { IfOk result (λ v. map name_of v.items ≡ locals_of (map routine_of
        scopes.now.funcs.now) number) }
{
    match scopes.items.get(number) {
        None => Ok(Vec::new(alloc)),
        Some(scope) => Ok(Vec::from_slice(alloc, scope.names.names.as_slice())?),
    }
}

// The locals of a type.
fn typed_locals<'a, K: Known>(
    alloc: Global,
    scope: &TypedScope<'a, K>,
    ty: Option<Ty>,
) -> Result<Vec<&'a Name>, NoMemory>
    ensures { IfOk result (λ v. map name_of v.items ≡ filter (λ x. same_type (type_of
        (scope_of (K.gives scope.now.known.now) scope.now.scopes.now.funcs.now scope.now.number)
        (leaf (kind.Name x))) ty) (locals_of (map routine_of scope.now.scopes.now.funcs.now)
        scope.now.number)) }
{
    let locals = locals_of(scope.scopes, scope.number, alloc)?;
    let mut found = Vec::new(alloc);
    for x in &locals {
        if same_type(scope.known.local(scope.number, x).only(), ty) {
            found.push(*x)?;
        }
    }
    Ok(found)
}

/// The locals of the type of what a metavariable stands for.
pub fn like_bound<'a, K: Known>(
    alloc: Global,
    scope: &TypedScope<'a, K>,
    bound: Bound<'a>,
) -> Result<Vec<&'a Name>, NoMemory>
    ensures { IfOk result (λ v. map name_of v.items ≡ bound_locals
        (scope_of (K.gives scope.now.known.now) scope.now.scopes.now.funcs.now scope.now.number)
        (term_in (bound_seen bound.entry))) }
{
    match bound {
        Bound::Term(e) => typed_locals(alloc, scope, type_there(scope, e)),
        Bound::Name(x) => typed_locals(alloc, scope, scope.known.local(scope.number, x).only()),
        Bound::Arith(_) | Bound::Cmp(_) => Ok(Vec::new(alloc)),
    }
}
