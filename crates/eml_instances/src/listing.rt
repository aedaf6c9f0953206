//! The alternatives of an expression.
ghost use Rattle.std.specs.Prelude.{◌≡◌, IfOk, All, map, filter};
ghost use Rattle.mpy_tree.specs.View.{term_of};
ghost use Rattle.mpy_tree.specs.Shapes.{shape};
ghost use Rattle.choice_tree.specs.Growing.{is_alternative};
ghost use Rattle.eml_match.specs.MatchedRules.{matched_of, proposals_by};
ghost use Rattle.eml_match.specs.Resolutions.{locals_for};
ghost use Rattle.eml_instances.specs.Alternatives.{AddsTo, AreAlternatives, IsNumbered, has_type};
ghost use Rattle.eml_instances.specs.Alternatives.{proposals_of};
ghost use Rattle.eml_instances.specs.Substitutions.{bindings_in, locals_in, locals_kept};
ghost use Rattle.eml_instances.specs.Scopes.{scope_of};

use crate::NoMemory;
use crate::adding::add_side;
use crate::scope::{TypedScope, type_there};
use crate::search::{Search, Wanted};
use crate::standings::Substitution;
use choice_tree::PExpr;
use eml_match::Matched;
use mpy_tree::Expr;
use mpy_types::Known;
use std::alloc::Global;

/// A member of a pick besides its base: the rule that matched, its right side, or where that is a
/// set an element, and the number of a resolution of it.
#[derive(Clone, Copy, Drop)]
pub struct Alternative<'a> {
    pub matched: &'a Matched<'a>,
    pub side: &'a PExpr,
    pub number: u64,
}

/// The resolutions of the type of the expression by the rules that match, in order; none where
/// there are more than `most`.
pub fn alternatives<'a, K: Known>(
    alloc: Global,
    scope: &TypedScope<'a, K>,
    e: &'a Expr,
    matched: &'a [Matched<'a>],
    most: u32,
) -> Result<Option<Vec<Alternative<'a>>>, NoMemory>
    ensures { IfOk result (λ o. AreAlternatives o most (scope_of (K.gives scope.now.known.now)
        scope.now.scopes.now.funcs.now scope.now.number) (map matched_of matched.now) (filter
        (is_alternative (scope_of (K.gives scope.now.known.now) scope.now.scopes.now.funcs.now
        scope.now.number) (shape (term_of e.now))) (proposals_by (scope_of (K.gives
        scope.now.known.now) scope.now.scopes.now.funcs.now scope.now.number) (map matched_of
        matched.now)))) }
{
    let ty = type_there(scope, e);
    let wanted = Wanted { ty, most };
    let mut found = Vec::new(alloc);
    for m in matched {
        let added = add_typed(alloc, scope, m, wanted, found)?;
        match added {
            None => return Ok(None),
            Some(more) => found = more,
        }
    }
    Ok(Some(found))
}

// Those by one rule, behind others.
fn add_typed<'a, K: Known>(
    alloc: Global,
    scope: &TypedScope<'a, K>,
    m: &'a Matched<'a>,
    wanted: Wanted,
    before: Vec<Alternative<'a>>,
) -> Result<Option<Vec<Alternative<'a>>>, NoMemory>
    requires { All (IsNumbered (scope_of (K.gives scope.now.known.now)
        scope.now.scopes.now.funcs.now scope.now.number)) before.items }
    ensures { IfOk result (λ o. AddsTo o wanted.most (scope_of (K.gives scope.now.known.now)
        scope.now.scopes.now.funcs.now scope.now.number) (matched_of m.now) before.entry.items
        (filter (has_type (scope_of (K.gives scope.now.known.now) scope.now.scopes.now.funcs.now
        scope.now.number) wanted.ty) (proposals_of (scope_of (K.gives scope.now.known.now)
        scope.now.scopes.now.funcs.now scope.now.number) (matched_of m.now) (matched_of
        m.now).right))) }
{
    let all = substitution_of(alloc, scope, m, true)?;
    let search = Search {
        scope,
        matched: m,
        all: &all,
        wanted,
    };
    add_side(alloc, &search, m.right, before)
}

/// What the metavariables of a rule that matched stand for, with all locals or the first ones.
pub fn substitution_of<'a, K: Known>(
    alloc: Global,
    scope: &TypedScope<'a, K>,
    m: &Matched<'a>,
    all: bool,
) -> Result<Substitution<'a>, NoMemory>
    ensures bindings { IfOk result (λ s. bindings_in s ≡ (matched_of m.now).bindings) }
    ensures locals { IfOk result (λ s. locals_in s ≡ locals_kept all (locals_for (scope_of (K.gives
        scope.now.known.now) scope.now.scopes.now.funcs.now scope.now.number) (matched_of
        m.now).bindings)) }
{
    Substitution::with_locals(alloc, scope, m.bindings.as_slice(), all)
}
