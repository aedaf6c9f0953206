//! Walks over all that stands in a side of a rule.
ghost use Rattle.std.specs.Prelude.{◌≡◌, ◌*◌, ◌++◌, IfOk, map, min, nat_lt};
ghost use Rattle.std.specs.List.{list_any};
ghost use Rattle.choice_tree.specs.RuleViews.{template_of};
ghost use Rattle.eml_match.specs.Parts.{template_seen};
ghost use Rattle.eml_match.specs.Resolutions.{depth};
ghost use Rattle.eml_faults.specs.Sides.{nodes, set_count, side_parts};
ghost use Rattle.eml_faults.specs.Walks.{is_set, operators, product_of_counts, sum_of_counts};
ghost use Rattle.eml_faults.specs.LimitFaults.{is_long_node};

use crate::NoMemory;
use crate::parts::side_part;
use choice_tree::{PArith, PCmp, PExpr};
use std::alloc::Global;

/// A number of resolutions is counted up to this one.
pub const MOST: u64 = 65;

/// All that stands in a side: the side, and then what stands in its parts.
pub fn nodes(alloc: Global, e: &PExpr) -> Result<Vec<&PExpr>, NoMemory>
    ensures { IfOk result (λ v. map template_seen v.items ≡ nodes (template_of e.now)) }
{
    with_nodes(e, Vec::new(alloc))
}

// The same behind what was found.
fn with_nodes<'a>(e: &'a PExpr, found: Vec<&'a PExpr>) -> Result<Vec<&'a PExpr>, NoMemory>
    ensures { IfOk result (λ v. map template_seen v.items ≡ map template_seen found.entry.items ++
        nodes (template_of e.now)) }
{
    let mut all = found;
    all.push(e)?;
    let mut i = 0usize;
    'parts: loop {
        match side_part(e, i) {
            None => return Ok(all),
            Some(part) => all = with_nodes(part, all)?,
        }
        i += 1;
    }
}

/// Whether a side is deeper than a limit.
pub fn is_deeper(e: &PExpr, limit: u32) -> bool
    ensures { result ≡ nat_lt limit (depth (template_of e.now)) }
{
    if limit == 0 {
        return true;
    }
    let mut i = 0usize;
    'parts: loop {
        match side_part(e, i) {
            None => return false,
            Some(part) => {
                if is_deeper(part, limit - 1) {
                    return true;
                }
            }
        }
        i += 1;
    }
}

/// Whether a name in a side is too long.
pub fn has_long(e: &PExpr) -> bool
    ensures { result ≡ list_any is_long_node (nodes (template_of e.now)) }
{
    if is_long_node(e) {
        return true;
    }
    let mut i = 0usize;
    'parts: loop {
        match side_part(e, i) {
            None => return false,
            Some(part) => {
                if has_long(part) {
                    return true;
                }
            }
        }
        i += 1;
    }
}

fn is_long_node(e: &PExpr) -> bool
    ensures { result ≡ is_long_node (template_of e.now) }
{
    match e {
        PExpr::Name(x) => x.is_long(),
        PExpr::Call(f, _) => f.is_long(),
        _ => false,
    }
}

/// How many resolutions the sets of a side have, or `MOST` if there are more.
#[cycle(count)]
pub fn set_count(e: &PExpr) -> u64
    ensures { result ≡ min 65 (set_count (template_of e.now)) }
{
    if is_set(e) {
        count_of_any(e)
    } else {
        count_of_all(e)
    }
}

fn is_set(e: &PExpr) -> bool
    ensures { result ≡ is_set (template_of e.now) }
{
    matches!(e, PExpr::Set(_))
}

// The sum over the elements of a set.
#[cycle(count)]
fn count_of_any(e: &PExpr) -> u64
    ensures { result ≡ min 65 (sum_of_counts (side_parts (template_of e.now))) }
{
    let mut sum = 0u64;
    let mut i = 0usize;
    'parts: loop {
        match side_part(e, i) {
            None => return sum,
            Some(part) => sum = MOST.min(sum + set_count(part)),
        }
        i += 1;
    }
}

// The product over the operators of a node and over its parts.
#[cycle(count)]
fn count_of_all(e: &PExpr) -> u64
    ensures { result ≡ min 65 (operators (template_of e.now) * product_of_counts (side_parts
        (template_of e.now))) }
{
    let mut product = operator_count(e);
    let mut i = 0usize;
    'parts: loop {
        match side_part(e, i) {
            None => return product,
            Some(part) => product = MOST.min(product * set_count(part)),
        }
        i += 1;
    }
}

// How many operators a node may have, or `MOST` if there are more.
fn operator_count(e: &PExpr) -> u64
    ensures { result ≡ min 65 (operators (template_of e.now)) }
{
    match e {
        PExpr::Arith(PArith::Ops(ops), _, _) => MOST.min(ops.items().len() as u64),
        PExpr::Cmp(PCmp::Ops(ops), _, _) => MOST.min(ops.items().len() as u64),
        _ => 1,
    }
}
