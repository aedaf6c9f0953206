//! The alternatives by one rule, behind others.
ghost use Rattle.std.specs.Prelude.{◌≡◌, ◌<◌, ◌≤◌, IfOk, All, [], false, filter};
ghost use Rattle.choice_tree.specs.Drafts.{filled};
ghost use Rattle.choice_tree.specs.RuleViews.{template_of};
ghost use Rattle.choice_tree.specs.Typing.{type_of};
ghost use Rattle.eml_match.specs.MatchedRules.{matched_of};
ghost use Rattle.eml_match.specs.Resolutions.{count, depth, locals_for, resolution};
ghost use Rattle.eml_instances.specs.Alternatives.{AddsIf, AddsTo, IsNumbered, alternative_seen};
ghost use Rattle.eml_instances.specs.Alternatives.{has_type, proposals_of};
ghost use Rattle.eml_instances.specs.Resolving.{IsSet};
ghost use Rattle.eml_instances.specs.Scopes.{scope_of};
ghost use Rattle.eml_instances.specs.Searches.{IsSearch, rule_in, scope_in};
ghost use Rattle.eml_instances.specs.Substitutions.{bindings_in, locals_in};

use crate::NoMemory;
use crate::counting::MOST;
use crate::filling::instance;
use crate::listing::{Alternative, substitution_of};
use crate::scope::{TypedScope, same_type, type_there};
use crate::search::{FEW, Search};
use crate::standings::Substitution;
use choice_tree::PExpr;
use eml_match::pattern_parts::set_element;
use eml_match::resolutions_by_number;
use mpy_tree::Ty;
use mpy_types::Known;
use std::alloc::{AllocError, Global};

/// The resolutions of a side that are of the type, behind others: of a set those of its elements,
/// one after another, so that no number is spent on an element of which none is.
#[cycle(add_side)]
pub fn add_side<'a, K: Known>(
    alloc: Global,
    search: &Search<'a, '_, K>,
    side: &'a PExpr,
    before: Vec<Alternative<'a>>,
) -> Result<Option<Vec<Alternative<'a>>>, NoMemory>
    requires search { IsSearch K.gives search.now }
    requires deep { depth (template_of side.now) ≤ depth (rule_in search.now).right }
    requires before { All (IsNumbered (scope_in K.gives search.now)) before.items }
    ensures { IfOk result (λ o. AddsTo o search.now.wanted.most (scope_in K.gives search.now)
        (rule_in search.now) before.entry.items (filter (has_type (scope_in K.gives search.now)
        search.now.wanted.ty) (proposals_of (scope_in K.gives search.now) (rule_in search.now)
        (template_of side.now)))) }
{
    match side {
        PExpr::Set(_) => add_elements(alloc, search, side, before),
        _ => add_whole(alloc, search, side, before),
    }
}

// Those of a set.
#[cycle(add_side)]
fn add_elements<'a, K: Known>(
    alloc: Global,
    search: &Search<'a, '_, K>,
    side: &'a PExpr,
    before: Vec<Alternative<'a>>,
) -> Result<Option<Vec<Alternative<'a>>>, NoMemory>
    requires set { IsSet (template_of side.now) }
    requires search { IsSearch K.gives search.now }
    requires deep { depth (template_of side.now) ≤ depth (rule_in search.now).right }
    requires before { All (IsNumbered (scope_in K.gives search.now)) before.items }
    ensures { IfOk result (λ o. AddsTo o search.now.wanted.most (scope_in K.gives search.now)
        (rule_in search.now) before.entry.items (filter (has_type (scope_in K.gives search.now)
        search.now.wanted.ty) (proposals_of (scope_in K.gives search.now) (rule_in search.now)
        (template_of side.now)))) }
{
    let mut found = before;
    let mut i = 0usize;
    'elements: loop {
        match set_element(side, i) {
            None => return Ok(Some(found)),
            Some(q) => match add_side(alloc, search, q, found)? {
                None => return Ok(None),
                Some(more) => found = more,
            },
        }
        i += 1;
    }
}

// Those of a side whose numbers are gone through.
fn add_whole<'a, K: Known>(
    alloc: Global,
    search: &Search<'a, '_, K>,
    side: &'a PExpr,
    before: Vec<Alternative<'a>>,
) -> Result<Option<Vec<Alternative<'a>>>, NoMemory>
    requires search { IsSearch K.gives search.now }
    requires deep { depth (template_of side.now) ≤ depth (rule_in search.now).right }
    requires before { All (IsNumbered (scope_in K.gives search.now)) before.items }
    ensures { IfOk result (λ o. AddsTo o search.now.wanted.most (scope_in K.gives search.now)
        (rule_in search.now) before.entry.items (filter (has_type (scope_in K.gives search.now)
        search.now.wanted.ty) (proposals_of (scope_in K.gives search.now) (rule_in search.now)
        (template_of side.now)))) }
{
    resolutions_by_number();
    let count = search.all.count(side);
    let possible = may_have(alloc, search, side, count)?;
    if !possible {
        return Ok(Some(before));
    }
    let mut found = before;
    for number in 0..count {
        let a = Alternative {
            matched: search.matched,
            side,
            number,
        };
        let typed = is_typed(alloc, search.scope, search.all, a, search.wanted.ty)?;
        let added = add_if(typed, a, search.wanted.most, found)?;
        match added {
            None => return Ok(None),
            Some(more) => found = more,
        }
    }
    // The numbers end here, and there are more resolutions.
    if count == MOST {
        return Err(AllocError);
    }
    Ok(Some(found))
}

// Whether a side with so many resolutions may have one of the type. That doesn't depend on which
// local a `?` is, so the first ones are tried alone.
fn may_have<K: Known>(
    alloc: Global,
    search: &Search<'_, '_, K>,
    side: &PExpr,
    count: u64,
) -> Result<bool, NoMemory>
    ensures { IfOk result (λ b. b ≡ false → filter (has_type (scope_in K.gives search.now)
        search.now.wanted.ty) (proposals_of (scope_in K.gives search.now) (rule_in search.now)
        (template_of side.now)) ≡ []) }
{
    if count <= FEW {
        return Ok(true);
    }
    resolutions_by_number();
    let s = substitution_of(alloc, search.scope, search.matched, false)?;
    let firsts = s.count(side);
    if firsts == MOST {
        return Ok(true);
    }
    for number in 0..firsts {
        let found = type_of_instance(alloc, search.scope, side, &s, number)?;
        if same_type(found, search.wanted.ty) {
            return Ok(true);
        }
    }
    Ok(false)
}

// The type of an instance.
fn type_of_instance<K: Known>(
    alloc: Global,
    scope: &TypedScope<'_, K>,
    p: &PExpr,
    s: &Substitution<'_>,
    number: u64,
) -> Result<Option<Ty>, NoMemory>
    requires within { number < count (template_of p.now) (locals_in s.now) (bindings_in s.now) }
    requires near { number < 64000064 }
    ensures { IfOk result (λ o. o ≡ type_of (scope_of (K.gives scope.now.known.now)
        scope.now.scopes.now.funcs.now scope.now.number) (filled (resolution (template_of p.now)
        (locals_in s.now) (bindings_in s.now) number))) }
{
    let made = instance(alloc, p, s, number)?;
    Ok(type_there(scope, &made))
}

// Whether the instance is of a type.
fn is_typed<K: Known>(
    alloc: Global,
    scope: &TypedScope<'_, K>,
    s: &Substitution<'_>,
    a: Alternative<'_>,
    ty: Option<Ty>,
) -> Result<bool, NoMemory>
    requires bindings { bindings_in s.now ≡ (matched_of a.matched.now).bindings }
    requires locals { locals_in s.now ≡ locals_for (scope_of (K.gives scope.now.known.now)
        scope.now.scopes.now.funcs.now scope.now.number) (matched_of a.matched.now).bindings }
    requires numbered { IsNumbered (scope_of (K.gives scope.now.known.now)
        scope.now.scopes.now.funcs.now scope.now.number) a }
    ensures { IfOk result (λ b. b ≡ has_type (scope_of (K.gives scope.now.known.now)
        scope.now.scopes.now.funcs.now scope.now.number) ty (alternative_seen (scope_of (K.gives
        scope.now.known.now) scope.now.scopes.now.funcs.now scope.now.number) a.entry)) }
{
    let made = instance(alloc, a.side, s, a.number)?;
    Ok(same_type(type_there(scope, &made), ty))
}

// The alternative behind others, under a condition; none where there would be more than `most`.
fn add_if<'a>(
    holds: bool,
    a: Alternative<'a>,
    most: u32,
    before: Vec<Alternative<'a>>,
) -> Result<Option<Vec<Alternative<'a>>>, NoMemory>
    ensures { IfOk result (λ o. AddsIf o most holds before.entry.items a.entry) }
{
    if !holds {
        return Ok(Some(before));
    }
    if before.as_slice().len() as u64 >= most as u64 {
        return Ok(None);
    }
    let mut found = before;
    found.push(a)?;
    Ok(Some(found))
}
