//! The least line of a body, without memory.
ghost use Rattle.std.specs.Prelude.{◌≡◌, ℕ, List};
ghost use Rattle.std.specs.List.{flat_map};
ghost use Rattle.mpy_tree.specs.View.{action_of, block_of, branches_of, block_or_none};
ghost use Rattle.mpy_tree.specs.Leasts.{least};
ghost use Rattle.mpy_tree.specs.Sites.{Site as Stands, sites};
ghost use Rattle.mpy_share.specs.Walks.{walk, walk_inside, walk_arms, walk_else};
ghost use Rattle.mpy_scopes.specs.Seen.{site_of};

use mpy_scopes::{Site, sooner};
use mpy_tree::{Act, Arms, Stmts};

/// What is looked for in the statements of a body.
pub trait Look {
    ghost lines: { Self → Stands → List ℕ };

    /// The least line for a statement itself.
    fn look(&self, s: Site<'_>) -> Option<u32>
        ensures { result ≡ least (lines self.now (site_of s.entry)) };
}

/// The least line for the statements of a body.
pub fn least_in<L: Look>(look: &L, b: &Stmts) -> Option<u32>
    ensures { result ≡ least (flat_map (L.lines look.now) (sites (block_of b.now))) }
{
    walk(look, b, None)
}

// The lesser of a line and the least one for the statements of a body.
#[cycle(walk)]
fn walk<L: Look>(look: &L, b: &Stmts, first: Option<u32>) -> Option<u32>
    ensures { result ≡ walk (L.lines look.now) first (block_of b.now) }
{
    let mut least = first;
    for s in &b.items {
        let here = look.look(Site::Does(s.line, &s.act));
        least = walk_inside(look, &s.act, sooner(least, here));
    }
    least
}

// The same for the statements inside of one.
#[cycle(walk)]
fn walk_inside<L: Look>(look: &L, act: &Act, first: Option<u32>) -> Option<u32>
    ensures { result ≡ walk_inside (L.lines look.now) first (action_of act.now) }
{
    match act {
        Act::If(arms, last) => walk_else(look, last, walk_arms(look, arms, first)),
        Act::While(_, body) | Act::For(_, _, body) => walk(look, body, first),
        _ => first,
    }
}

// The same for the tests of arms and the statements inside of them.
#[cycle(walk)]
fn walk_arms<L: Look>(look: &L, arms: &Arms, first: Option<u32>) -> Option<u32>
    ensures { result ≡ walk_arms (L.lines look.now) first (branches_of arms.now) }
{
    let mut least = first;
    for arm in &arms.items {
        let here = look.look(Site::Asks(arm.line, &arm.test));
        least = walk(look, &arm.body, sooner(least, here));
    }
    least
}

// The same for the statements of an `else`.
#[cycle(walk)]
fn walk_else<L: Look>(look: &L, last: &Option<Stmts>, first: Option<u32>) -> Option<u32>
    ensures { result ≡ walk_else (L.lines look.now) first (block_or_none last.now) }
{
    match last {
        None => first,
        Some(body) => walk(look, body, first),
    }
}
