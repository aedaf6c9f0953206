//! The instance of a right side: a resolution with the terms that were bound.
ghost use Rattle.std.specs.Prelude.{◌≡◌, ◌<◌, IfOk, length};
ghost use Rattle.mpy_tree.specs.View.{term_of};
ghost use Rattle.mpy_tree.specs.Shapes.{shape};
ghost use Rattle.mpy_tree.specs.Trees.{node};
ghost use Rattle.choice_tree.specs.Drafts.{filled, filled_all};
ghost use Rattle.choice_tree.specs.Heads.{HasParts, head_kind};
ghost use Rattle.choice_tree.specs.RuleViews.{template_of};
ghost use Rattle.eml_match.specs.Parts.{template_parts};
ghost use Rattle.eml_match.specs.Resolutions.{count, resolution};
ghost use Rattle.eml_instances.specs.Resolving.{drafts, parts_resolved};
ghost use Rattle.eml_instances.specs.Substitutions.{bindings_in, locals_in};

use crate::NoMemory;
use crate::roots::Resolved;
use crate::standings::Substitution;
use choice_tree::{Head, PExpr, plain_node};
use eml_match::pattern_parts::pattern_part;
use mpy_tree::{Expr, copy_expr};
use std::alloc::Global;

/// The instance with this number, counted from 0.
#[cycle(instance)]
pub fn instance(alloc: Global, p: &PExpr, s: &Substitution<'_>, r: u64) -> Result<Expr, NoMemory>
    requires within { r < count (template_of p.now) (locals_in s.now) (bindings_in s.now) }
    requires near { r < 64000064 }
    ensures { IfOk result (λ e. shape (term_of e) ≡ filled (resolution (template_of p.now)
        (locals_in s.now) (bindings_in s.now) r)) }
{
    match s.resolved(p, r) {
        Resolved::Again(e) => copy_expr(alloc, e),
        Resolved::Term(e) => copy_expr(alloc, e),
        Resolved::AgainName(x) => Ok(Expr::Name(x.copy()?)),
        Resolved::Name(x) => Ok(Expr::Name(x.copy()?)),
        Resolved::Element(q, n) => instance(alloc, q, s, n),
        Resolved::Node(head) => node_instance(alloc, p, s, head, r),
    }
}

// That of a node.
#[cycle(instance)]
fn node_instance(
    alloc: Global,
    p: &PExpr,
    s: &Substitution<'_>,
    head: Head<'_>,
    r: u64,
) -> Result<Expr, NoMemory>
    requires within { r < count (template_of p.now) (locals_in s.now) (bindings_in s.now) }
    requires near { r < 64000064 }
    requires parts { HasParts (head_kind head) (length (template_parts (template_of p.now))) }
    ensures { IfOk result (λ e. shape (term_of e) ≡ node (head_kind head.entry) (filled_all (drafts
        (parts_resolved (template_of p.now) (locals_in s.now) (bindings_in s.now) r)))) }
{
    let mut made = Vec::new(alloc);
    let mut i = 0usize;
    'places: loop {
        match pattern_part(p, i) {
            None => return plain_node(alloc, head, made),
            Some(q) => {
                let number = s.part_number(p, i, r);
                let e = instance(alloc, q, s, number)?;
                made.push(e)?;
            }
        }
        i += 1;
    }
}
