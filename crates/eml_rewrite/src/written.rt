//! A term as it is written in an alternative.
ghost use Rattle.std.specs.Prelude.{◌≡◌, IfOk};
ghost use Rattle.mpy_tree.specs.View.{term_of};
ghost use Rattle.mpy_tree.specs.Shapes.{shape};
ghost use Rattle.mpy_tree.specs.Trees.{leaf};
ghost use Rattle.mpy_tree.specs.Trees as kind;
ghost use Rattle.choice_tree.specs.Rewriting.{written};
ghost use Rattle.choice_tree.specs.Typing.{copy_of};
ghost use Rattle.choice_tree.specs.WeightedTrees.{lifted, plainly, no_weighted};
ghost use Rattle.choice_tree.specs.WeightedViews.{weighted_of};
ghost use Rattle.eml_rewrite.specs.Building.{Built, BuiltAll, parts_of};
ghost use Rattle.eml_rewrite.specs.Parts.{written_parts};
ghost use Rattle.eml_rewrite.specs.Spots.{setting_at, context_at};

use crate::counter::Counter;
use crate::error::RewriteError;
use crate::spot::Spot;
use choice_tree::{Head, NoMemory, WExpr, head_of, weighted_node};
use eml_match::parts::part;
use mpy_tree::{Expr, Name};
use mpy_types::Known;
use std::alloc::Global;

/// A term as it stands there, without picks; a list's name that would be shared as a copy.
#[cycle(written)]
pub fn write_expr<K: Known>(
    alloc: Global,
    spot: &Spot<'_, K>,
    e: &Expr,
    counter: &mut Counter,
) -> Result<WExpr, RewriteError>
    ensures { Built weighted_of result (lifted (written (setting_at spot.now) (shape (term_of
        e.now)) (context_at spot.now))) counter.old counter.new }
{
    let head = head_of(e);
    match spot.copied(head) {
        Some(x) => write_copy(alloc, x, counter),
        None => {
            counter.take(1)?;
            let parts = write_parts(alloc, spot, e, counter)?;
            Ok(weighted_node(alloc, head, parts)?)
        }
    }
}

// The parts of a term as they stand.
#[cycle(written)]
fn write_parts<K: Known>(
    alloc: Global,
    spot: &Spot<'_, K>,
    e: &Expr,
    counter: &mut Counter,
) -> Result<Vec<WExpr>, RewriteError>
    ensures { BuiltAll parts_of result (written_parts (setting_at spot.now) (context_at spot.now)
        (shape (term_of e.now))) counter.old counter.new }
{
    let head = head_of(e);
    let mut made = Vec::new(alloc);
    let mut i = 0usize;
    'parts: loop {
        match part(e, i) {
            None => return Ok(made),
            Some(d) => {
                let below = spot.with_sharing(spot.sharing.below(head, i));
                made.push(write_expr(alloc, &below, d, counter)?)?;
            }
        }
        i += 1;
    }
}

/// A name as it stands there.
pub fn write_name<K: Known>(
    alloc: Global,
    spot: &Spot<'_, K>,
    x: &Name,
    counter: &mut Counter,
) -> Result<WExpr, RewriteError>
    ensures { Built weighted_of result (lifted (written (setting_at spot.now) (leaf
        (kind.Name x.now)) (context_at spot.now))) counter.old counter.new }
{
    match spot.copied(Head::Name(x)) {
        Some(y) => write_copy(alloc, y, counter),
        None => {
            counter.take(1)?;
            Ok(name_node(x)?)
        }
    }
}

// A name.
fn name_node(x: &Name) -> Result<WExpr, NoMemory>
    ensures { IfOk result (λ w. weighted_of w ≡ plainly (kind.Name x.now) no_weighted) }
{
    Ok(WExpr::Name(x.copy()?))
}

// A name in a box.
fn boxed_name(alloc: Global, x: &Name) -> Result<Box<WExpr>, NoMemory>
    ensures { IfOk result (λ b. weighted_of b.value ≡ plainly (kind.Name x.now) no_weighted) }
{
    let list = name_node(x)?;
    Ok(Box::new(alloc, list)?)
}

/// The copy of a list.
pub fn write_copy(alloc: Global, x: &Name, counter: &mut Counter) -> Result<WExpr, RewriteError>
    ensures { Built weighted_of result (lifted (copy_of (leaf (kind.Name x.now)))) counter.old
        counter.new }
{
    counter.take(2)?;
    let list = boxed_name(alloc, x)?;
    Ok(WExpr::Slice(list, None, None))
}
