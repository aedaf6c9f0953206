//! What is looked for among the resolutions of a rule.

use crate::scope::TypedScope;
use crate::standings::Substitution;
use eml_match::Matched;
use mpy_tree::Ty;
use mpy_types::Known;

/// So many resolutions are each tried.
pub const FEW: u64 = 64;

/// Of which type alternatives are to be, and how many at most.
#[derive(Clone, Copy, Drop)]
pub struct Wanted {
    pub ty: Option<Ty>,
    pub most: u32,
}

/// A rule that matched, with what its metavariables stand for and all locals that `?` may be, and
/// what is looked for.
#[derive(Drop)]
pub struct Search<'a, 'b, K: Known> {
    pub scope: &'b TypedScope<'a, K>,
    pub matched: &'a Matched<'a>,
    pub all: &'b Substitution<'a>,
    pub wanted: Wanted,
}
