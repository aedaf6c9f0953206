//! Matching of a left side.
ghost use Rattle.std.specs.Prelude.{◌≡◌, IfOk, Some};
ghost use Rattle.mpy_tree.specs.View.{term_of};
ghost use Rattle.mpy_tree.specs.Shapes.{shape};
ghost use Rattle.choice_tree.specs.RuleViews.{template_of};
ghost use Rattle.choice_tree.specs.Matching.{matches, together};
ghost use Rattle.eml_match.specs.MatchViews.{bindings_of, bindings_found, each_matches};
ghost use Rattle.eml_match.specs.Parts.{parts, template_parts};

use crate::NoMemory;
use crate::bindings::Binding;
use crate::heads::{match_head, match_meta};
use crate::parts::part;
use crate::pattern_parts::pattern_part;
use choice_tree::PExpr;
use mpy_tree::Expr;
use std::alloc::Global;

/// What each metavariable of a left side stands for, if the left side with these terms is the
/// expression.
#[cycle(matching)]
pub fn match_expr<'a>(
    alloc: Global,
    p: &PExpr,
    e: &'a Expr,
) -> Result<Option<Vec<Binding<'a>>>, NoMemory>
    ensures { IfOk result (λ r. bindings_found r ≡ matches (template_of p.now) (shape (term_of
        e.now))) }
{
    if let PExpr::Meta(m) = p {
        return match_meta(alloc, *m, e);
    }
    match match_head(alloc, p, e)? {
        None => Ok(None),
        Some(found) => match_parts(alloc, p, e, found),
    }
}

// The same of all parts, behind what was found.
#[cycle(matching)]
fn match_parts<'a>(
    alloc: Global,
    p: &PExpr,
    e: &'a Expr,
    found: Vec<Binding<'a>>,
) -> Result<Option<Vec<Binding<'a>>>, NoMemory>
    ensures { IfOk result (λ r. bindings_found r ≡ together (Some (bindings_of found.entry.items))
        (each_matches (template_parts (template_of p.now)) (parts (shape (term_of e.now))))) }
{
    let mut all = found;
    let mut i = 0usize;
    'parts: loop {
        match pattern_part(p, i) {
            None => match part(e, i) {
                None => return Ok(Some(all)),
                Some(_) => return Ok(None),
            },
            Some(q) => match part(e, i) {
                None => return Ok(None),
                Some(d) => match match_expr(alloc, q, d)? {
                    None => return Ok(None),
                    Some(more) => all.extend_from_slice(more.as_slice())?,
                },
            },
        }
        i += 1;
    }
}
