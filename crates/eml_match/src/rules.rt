//! Which rules match an expression.
ghost use Rattle.std.specs.Prelude.{◌≡◌, ◌<◌, ◌^◌, IfOk, map, length};
ghost use Rattle.mpy_tree.specs.View.{term_of};
ghost use Rattle.mpy_tree.specs.Shapes.{shape};
ghost use Rattle.choice_tree.specs.Matching.{here};
ghost use Rattle.choice_tree.specs.RuleViews.{correction_of, corrections_of};
ghost use Rattle.eml_match.specs.MatchViews.{bindings_found};
ghost use Rattle.eml_match.specs.MatchedRules.{matched_by, matched_of, rule_matches, site_of};

use crate::NoMemory;
use crate::bindings::Binding;
use crate::matching::match_expr;
use crate::sites::{Site, match_place};
use choice_tree::{PExpr, Rule, Rules};
use mpy_tree::Expr;
use std::alloc::Global;

/// A rule that matches, counted from 0: its cost, its right side, and what its metavariables stand
/// for.
#[derive(Drop)]
pub struct Matched<'a> {
    pub rule: u32,
    pub cost: u32,
    pub right: &'a PExpr,
    pub bindings: Vec<Binding<'a>>,
}

/// The rules that match an expression where it stands, in order: those without a place elsewhere,
/// and those with its place at a site.
pub fn matched_rules<'a>(
    alloc: Global,
    rules: &'a Rules,
    site: Site<'a>,
    e: &'a Expr,
) -> Result<Vec<Matched<'a>>, NoMemory>
    requires { length rules.now.items.items < 2 ^ 32 }
    ensures { IfOk result (λ v. map matched_of v.items ≡ matched_by (here (site_of site.entry))
        (corrections_of rules.now) (shape (term_of e.now))) }
{
    let mut found = Vec::new(alloc);
    for (i, rule) in rules.items.iter().enumerate() {
        match match_rule(alloc, rule, site, e)? {
            None => {}
            Some(bindings) => found.push(Matched {
                rule: i as u32,
                cost: rule.cost,
                right: &rule.right.term,
                bindings,
            })?,
        }
    }
    Ok(found)
}

// What the metavariables of a rule stand for, if it may be used there and matches.
fn match_rule<'a>(
    alloc: Global,
    rule: &Rule,
    site: Site<'a>,
    e: &'a Expr,
) -> Result<Option<Vec<Binding<'a>>>, NoMemory>
    ensures { IfOk result (λ r. bindings_found r ≡ rule_matches (here (site_of site.entry))
        (correction_of rule.now) (shape (term_of e.now))) }
{
    match match_place(alloc, rule.left.place, site)? {
        None => Ok(None),
        Some(target) => match match_expr(alloc, &rule.left.term, e)? {
            None => Ok(None),
            Some(more) => {
                let mut all = target;
                all.extend_from_slice(more.as_slice())?;
                Ok(Some(all))
            }
        },
    }
}
