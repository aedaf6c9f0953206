//! What a logical line spells.
ghost use Rattle.std.specs.Prelude.{◌≡◌, Option, Some, None, option_map, IfOk};
ghost use Rattle.mpy_parser.specs.ItemReading.{body_behind, headed_at, item_at};
ghost use Rattle.mpy_parser.specs.Views.{opening_of, item_of};
ghost use Rattle.mpy_tree.specs.View.{action_of};

use crate::NoMemory;
use crate::headers::header;
use crate::statements::simple;
use mpy_expressions::{Terminal, behind_colon};
use mpy_tree::{Act, Expr, Name, Names};
use std::alloc::Global;

/// What begins a body.
#[derive(Drop)]
pub enum Header {
    Def(Name, Names),
    If(Expr),
    Elif(Expr),
    Else,
    While(Expr),
    For(Name, Expr),
}

/// What a logical line spells: a simple statement, or a header, perhaps with its whole body behind
/// the colon.
#[derive(Drop)]
pub enum Item {
    Simple(Act),
    Headed(Header, Option<Act>),
}

// What may stand behind a header: its colon, and a simple statement or nothing.
fn body(alloc: Global, ts: &[Terminal<()>]) -> Result<Option<Option<Act>>, NoMemory>
    ensures { IfOk result (λ r. option_map (λ m. option_map action_of m) r ≡ body_behind ts.now) }
{
    let Some(ts) = behind_colon(ts) else {
        return Ok(None);
    };
    if ts.is_empty() {
        return Ok(Some(None));
    }
    match simple(alloc, ts)? {
        None => Ok(None),
        Some(act) => Ok(Some(Some(act))),
    }
}

fn headed(alloc: Global, header: Header, ts: &[Terminal<()>]) -> Result<Option<Item>, NoMemory>
    ensures { IfOk result (λ r. option_map item_of r ≡ headed_at (opening_of header, ts.now)) }
{
    body(alloc, ts).map(|found| found.map(|statement| Item::Headed(header, statement)))
}

/// The item that all terminals of a logical line spell, if they spell one.
#[tactic(auto, unfolding(crate::specs::ItemReading::item_at))]
pub(crate) fn line_item(alloc: Global, ts: &[Terminal<()>]) -> Result<Option<Item>, NoMemory>
    ensures { IfOk result (λ r. option_map item_of r ≡ item_at ts.now) }
{
    if let Some((begun, rest)) = header(alloc, ts)? {
        return headed(alloc, begun, rest);
    }
    match simple(alloc, ts)? {
        None => Ok(None),
        Some(act) => Ok(Some(Item::Simple(act))),
    }
}
