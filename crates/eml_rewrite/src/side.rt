//! Right sides of rules, resolved by number.
use choice_tree::PExpr;
use eml_instances::Substitution;

/// A resolution of a side, by its number, with what its metavariables stand for.
#[derive(Drop)]
pub struct Side<'a, 'b> {
    pub term: &'a PExpr,
    pub bound: &'b Substitution<'a>,
    pub number: u64,
}
