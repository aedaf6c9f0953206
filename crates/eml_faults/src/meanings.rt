//! Rules that mean nothing.
ghost use Rattle.std.specs.Prelude.{◌≡◌, IfOk, length, map};
ghost use Rattle.std.specs.List.{list_any};
ghost use Rattle.choice_tree.specs.RuleViews.{correction_of, template_of};
ghost use Rattle.eml_match.specs.Parts.{template_seen};
ghost use Rattle.eml_faults.specs.Sides.{metas, nodes};
ghost use Rattle.eml_faults.specs.MeaningFaults.{call_cause, has_stray_prime, is_bare, is_miscall};
ghost use Rattle.eml_faults.specs.MeaningFaults.{is_named_before, is_unbound, is_unknown_call};
ghost use Rattle.eml_faults.specs.MeaningFaults.{left_metas, meaning_cause, meaning_fault};
ghost use Rattle.eml_faults.specs.MeaningFaults.{takes_others};
ghost use Rattle.mpy_tree.specs.Builtins.{builtin_of};
ghost use Rattle.eml_faults.specs.Walks.{is_primed_hole};

use crate::NoMemory;
use crate::metas::{
    are_equal_places, are_twice, is_any_primed, is_any_primed_operator, is_any_strange, left_metas,
    metas,
};
use crate::nodes::nodes;
use choice_tree::{Meta, PExpr, Place, Rule};
use mpy_tree::{Builtin, Cause, Name};
use std::alloc::Global;

/// Why the rules are refused, and the line of the rule that is at fault.
#[derive(Clone, Copy, PartialEq, Eq, Debug, Drop)]
pub struct MeaningFault {
    /// One of `RuleTwice`, `RuleMeta`, `RulePrime`, `Name` and `Arity`.
    pub cause: Cause,
    pub line: u32,
}

/// The first rule that means nothing: it has a metavariable twice in its left side or the name of
/// an earlier rule (`RuleTwice`); a metavariable, a place or a target on the right that isn't that
/// of the left, or a prime on the left (`RuleMeta`); a primed operator, or a prime on the right
/// where the whole left side is one metavariable without a place (`RulePrime`); a call on the right
/// of what is no builtin (`Name`) or with a number of arguments that the builtin doesn't take
/// (`Arity`).
pub fn meaning_fault(alloc: Global, rules: &[Rule]) -> Result<Option<MeaningFault>, NoMemory>
    ensures { IfOk result (λ f. f ≡ meaning_fault (map correction_of rules.now)) }
{
    for (i, rule) in rules.iter().enumerate() {
        match meaning_cause(alloc, &rules[..i], rule)? {
            None => {}
            Some(cause) => {
                let line = rule.line;
                return Ok(Some(MeaningFault { cause, line }));
            }
        }
    }
    Ok(None)
}

// The first cause for which a rule behind others is refused.
fn meaning_cause(alloc: Global, before: &[Rule], rule: &Rule) -> Result<Option<Cause>, NoMemory>
    ensures { IfOk result (λ c. c ≡ meaning_cause (map correction_of before.now) (correction_of
        rule.now)) }
{
    let left = left_metas(alloc, rule)?;
    if are_twice(left.as_slice()) || is_named_before(before, rule) {
        return Ok(Some(Cause::RuleTwice));
    }
    let nodes = nodes(alloc, &rule.right.term)?;
    let right = metas(alloc, nodes.as_slice())?;
    if is_unbound(rule, left.as_slice(), right.as_slice()) {
        return Ok(Some(Cause::RuleMeta));
    }
    if is_any_primed_operator(right.as_slice()) || has_stray_prime(rule, nodes.as_slice()) {
        return Ok(Some(Cause::RulePrime));
    }
    Ok(call_cause(nodes.as_slice()))
}

// Whether an earlier rule has the name.
fn is_named_before(before: &[Rule], rule: &Rule) -> bool
    ensures { result ≡ is_named_before (map correction_of before.now) (correction_of rule.now) }
{
    for other in before {
        if rule.name.is(&other.name) {
            return true;
        }
    }
    false
}

// Whether the two sides don't fit: by a metavariable, by a prime on the left, or by their places.
fn is_unbound(rule: &Rule, left: &[Meta], right: &[Meta]) -> bool
    requires left { left.now ≡ left_metas (correction_of rule.now) }
    requires right { right.now ≡ metas (template_of rule.now.right.term) }
    ensures { result ≡ is_unbound (correction_of rule.now) }
{
    is_any_strange(left, right)
        || is_any_primed(left)
        || !are_equal_places(rule.left.place, rule.right.place)
}

// Whether the left side is one metavariable without a place, and one of the nodes is primed.
fn has_stray_prime(rule: &Rule, right: &[&PExpr]) -> bool
    requires { map template_seen right.now ≡ nodes (template_of rule.now.right.term) }
    ensures { result ≡ has_stray_prime (correction_of rule.now) }
{
    is_bare(rule) && is_any_primed_hole(right)
}

fn is_bare(rule: &Rule) -> bool
    ensures { result ≡ is_bare rule.now.left.place (template_of rule.now.left.term) }
{
    match (rule.left.place, &rule.left.term) {
        (Place::Anywhere, PExpr::Meta(_)) => true,
        _ => false,
    }
}

fn is_any_primed_hole(nodes: &[&PExpr]) -> bool
    ensures { result ≡ list_any is_primed_hole (map template_seen nodes.now) }
{
    for e in nodes {
        if let PExpr::Meta(m) = e {
            if m.primed {
                return true;
            }
        }
    }
    false
}

// The cause by the calls among the nodes of a right side.
fn call_cause(nodes: &[&PExpr]) -> Option<Cause>
    ensures { result ≡ call_cause (map template_seen nodes.now) }
{
    if is_any_unknown_call(nodes) {
        Some(Cause::Name)
    } else if is_any_miscall(nodes) {
        Some(Cause::Arity)
    } else {
        None
    }
}

fn is_any_unknown_call(nodes: &[&PExpr]) -> bool
    ensures { result ≡ list_any is_unknown_call (map template_seen nodes.now) }
{
    for e in nodes {
        if is_unknown_call(e) {
            return true;
        }
    }
    false
}

fn is_any_miscall(nodes: &[&PExpr]) -> bool
    ensures { result ≡ list_any is_miscall (map template_seen nodes.now) }
{
    for e in nodes {
        if is_miscall(e) {
            return true;
        }
    }
    false
}

// A call of a name that is no builtin.
fn is_unknown_call(e: &PExpr) -> bool
    ensures { result ≡ is_unknown_call (template_of e.now) }
{
    match e {
        PExpr::Call(f, _) => Builtin::of(f.bytes()).is_none(),
        _ => false,
    }
}

// A call of a builtin that takes another number of arguments.
fn is_miscall(e: &PExpr) -> bool
    ensures { result ≡ is_miscall (template_of e.now) }
{
    match e {
        PExpr::Call(f, es) => takes_others(f, es.items.as_slice()),
        _ => false,
    }
}

// The name of a builtin that takes another number of arguments.
fn takes_others(f: &Name, arguments: &[PExpr]) -> bool
    ensures { result ≡ takes_others (builtin_of f.now) (length arguments.now) }
{
    match Builtin::of(f.bytes()) {
        None => false,
        Some(b) => !b.takes(arguments.len()),
    }
}
