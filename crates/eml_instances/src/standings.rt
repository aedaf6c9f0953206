//! What the metavariables of a rule stand for.
ghost use Rattle.std.specs.Prelude.{◌≡◌, map, IfOk};
ghost use Rattle.mpy_scopes.specs.Seen.{name_of};
ghost use Rattle.choice_tree.specs.Drafts.{bound_operator, bound_term, same_digit, same_meta};
ghost use Rattle.eml_match.specs.MatchViews.{bindings_of};
ghost use Rattle.eml_match.specs.Resolutions.{locals_for};
ghost use Rattle.eml_instances.specs.Scopes.{scope_of};
ghost use Rattle.eml_instances.specs.Substitutions.{bindings_in, found_locals, found_operator};
ghost use Rattle.eml_instances.specs.Substitutions.{found_term, kept, locals_in, locals_kept};

use crate::NoMemory;
use crate::scope::{TypedScope, like_bound};
use choice_tree::Meta;
use eml_match::Binding;
use mpy_tree::Name;
use mpy_types::Known;
use std::alloc::Global;

/// A binding, with the locals of the type of its term.
#[derive(Drop)]
pub struct Standing<'a> {
    pub binding: Binding<'a>,
    pub locals: Vec<&'a Name>,
}

/// What the metavariables of a rule stand for, and the locals that `?` may be for each of them.
#[derive(Drop)]
pub struct Substitution<'a> {
    pub items: Vec<Standing<'a>>,
}

impl<'a> Substitution<'a> {
    /// The substitution of these bindings in a function.
    pub fn new<K: Known>(
        alloc: Global,
        scope: &TypedScope<'a, K>,
        bindings: &[Binding<'a>],
    ) -> Result<Substitution<'a>, NoMemory>
        ensures bindings { IfOk result (λ s. bindings_in s ≡ bindings_of bindings.now) }
        ensures locals { IfOk result (λ s. locals_in s ≡ locals_for (scope_of (K.gives
            scope.now.known.now) scope.now.scopes.now.funcs.now scope.now.number) (bindings_of
            bindings.now)) }
    {
        Substitution::with_locals(alloc, scope, bindings, true)
    }

    /// The substitution of these bindings, with all locals or with the first one of each type.
    pub fn with_locals<K: Known>(
        alloc: Global,
        scope: &TypedScope<'a, K>,
        bindings: &[Binding<'a>],
        all: bool,
    ) -> Result<Substitution<'a>, NoMemory>
        ensures bindings { IfOk result (λ s. bindings_in s ≡ bindings_of bindings.now) }
        ensures locals { IfOk result (λ s. locals_in s ≡ locals_kept all (locals_for (scope_of
            (K.gives scope.now.known.now) scope.now.scopes.now.funcs.now scope.now.number)
            (bindings_of bindings.now))) }
    {
        let mut items = Vec::new(alloc);
        for b in bindings {
            let locals = like_bound(alloc, scope, b.bound)?;
            items.push(Standing {
                binding: *b,
                locals: kept(locals, all),
            })?;
        }
        Ok(Substitution { items })
    }

    /// What a metavariable stands for, primed or not.
    pub fn find(&self, m: Meta) -> Option<&Standing<'a>>
        ensures term { bound_term (bindings_in self.now) m ≡ found_term result }
        ensures operator { bound_operator (bindings_in self.now) m ≡ found_operator result }
        ensures locals { locals_in self.now m ≡ found_locals result }
    {
        for s in &self.items {
            if same_meta(s.binding.meta, m) {
                return Some(s);
            }
        }
        None
    }
}

// All names, or the first one.
fn kept<'a>(names: Vec<&'a Name>, all: bool) -> Vec<&'a Name>
    ensures { map name_of result.items ≡ kept all (map name_of names.entry.items) }
{
    if all {
        return names;
    }
    let mut first = names;
    first.truncate(1);
    first
}

// Whether they are one metavariable, primed or not.
fn same_meta(a: Meta, b: Meta) -> bool
    ensures { result ≡ same_meta a b }
{
    a.letter == b.letter && same_digit(a.digit, b.digit)
}

fn same_digit(a: Option<u8>, b: Option<u8>) -> bool
    ensures { result ≡ same_digit a b }
{
    match (a, b) {
        (None, None) => true,
        (Some(i), Some(j)) => i == j,
        _ => false,
    }
}
