//! The metavariables of a rule.
ghost use Rattle.std.specs.Prelude.{◌≡◌, ◌++◌, IfOk, map};
ghost use Rattle.std.specs.List.{filter_map, list_any};
ghost use Rattle.choice_tree.specs.Drafts.{same_meta};
ghost use Rattle.choice_tree.specs.RuleViews.{correction_of, template_of};
ghost use Rattle.eml_match.specs.Parts.{template_seen};
ghost use Rattle.eml_faults.specs.Sides.{node_meta};
ghost use Rattle.eml_faults.specs.MeaningFaults.{are_twice, equal_metas, equal_places, is_among};
ghost use Rattle.eml_faults.specs.MeaningFaults.{is_primed, is_primed_operator, is_strange};
ghost use Rattle.eml_faults.specs.MeaningFaults.{left_metas, target};

use crate::NoMemory;
use crate::nodes::nodes;
use choice_tree::{Meta, PArith, PCmp, PExpr, Place, Rule};
use std::alloc::Global;

/// The metavariables of a left side, its target among them.
pub fn left_metas(alloc: Global, rule: &Rule) -> Result<Vec<Meta>, NoMemory>
    ensures { IfOk result (λ v. v.items ≡ left_metas (correction_of rule.now)) }
{
    let mut found = Vec::new(alloc);
    match rule.left.place {
        Place::Assign(m) | Place::For(m) => found.push(m)?,
        _ => {}
    }
    let nodes = nodes(alloc, &rule.left.term)?;
    with_metas(found, nodes.as_slice())
}

/// The metavariables of these nodes.
pub fn metas(alloc: Global, nodes: &[&PExpr]) -> Result<Vec<Meta>, NoMemory>
    ensures { IfOk result (λ v. v.items ≡ filter_map node_meta (map template_seen nodes.now)) }
{
    with_metas(Vec::new(alloc), nodes)
}

// The same behind what was found.
fn with_metas(found: Vec<Meta>, nodes: &[&PExpr]) -> Result<Vec<Meta>, NoMemory>
    ensures { IfOk result (λ v. v.items ≡ found.items ++ filter_map node_meta (map template_seen
        nodes.now)) }
{
    let mut all = found;
    for e in nodes {
        match node_meta(e) {
            None => {}
            Some(m) => all.push(m)?,
        }
    }
    Ok(all)
}

// The metavariable that a node is, or has as its operator.
fn node_meta(e: &PExpr) -> Option<Meta>
    ensures { result ≡ node_meta (template_of e.now) }
{
    match e {
        PExpr::Meta(m) | PExpr::Local(m) => Some(*m),
        PExpr::Arith(PArith::Meta(m), _, _) | PExpr::Cmp(PCmp::Meta(m), _, _) => Some(*m),
        _ => None,
    }
}

/// Whether a metavariable is one of some, primed or not.
pub fn is_among(metas: &[Meta], m: Meta) -> bool
    ensures { result ≡ is_among metas.now m }
{
    for n in metas {
        if is_same(m, *n) {
            return true;
        }
    }
    false
}

// Whether two metavariables are one, primed or not.
fn is_same(m: Meta, n: Meta) -> bool
    ensures { result ≡ same_meta m n }
{
    m.letter == n.letter && m.digit == n.digit
}

/// Whether a metavariable stands twice, primed or not.
pub fn are_twice(metas: &[Meta]) -> bool
    ensures { result ≡ are_twice metas.now }
{
    for (i, m) in metas.iter().enumerate() {
        if is_among(&metas[i + 1..], *m) {
            return true;
        }
    }
    false
}

/// Whether a metavariable isn't among these.
pub fn is_any_strange(left: &[Meta], right: &[Meta]) -> bool
    ensures { result ≡ list_any (is_strange left.now) right.now }
{
    for m in right {
        if !is_among(left, *m) {
            return true;
        }
    }
    false
}

/// Whether one of these is primed.
pub fn is_any_primed(metas: &[Meta]) -> bool
    ensures { result ≡ list_any is_primed metas.now }
{
    metas.iter().any(|m| m.primed)
}

/// Whether one of these is a primed operator.
pub fn is_any_primed_operator(metas: &[Meta]) -> bool
    ensures { result ≡ list_any is_primed_operator metas.now }
{
    metas
        .iter()
        .any(|m| m.primed && (m.letter == b'c' || m.letter == b'o'))
}

/// Whether two places are equal, with their targets.
pub fn are_equal_places(p: Place, q: Place) -> bool
    ensures { result ≡ equal_places p q }
{
    match (p, q) {
        (Place::Anywhere, Place::Anywhere)
        | (Place::Return, Place::Return)
        | (Place::If, Place::If)
        | (Place::While, Place::While) => true,
        (Place::Assign(m), Place::Assign(n)) | (Place::For(m), Place::For(n)) => {
            is_same(m, n) && m.primed == n.primed
        }
        _ => false,
    }
}
