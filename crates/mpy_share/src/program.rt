//! Programs without shared lists.
ghost use Rattle.std.specs.Prelude.{◌≡◌, [], map, MatchResult, Some};
ghost use Rattle.std.specs.List.{flat_map};
ghost use Rattle.mpy_tree.specs.View.{block_of, routine_of, routines_of};
ghost use Rattle.mpy_tree.specs.Typings.{set_of};
ghost use Rattle.mpy_tree.specs.Leasts.{least};
ghost use Rattle.mpy_tree.specs.Rules.{single};
ghost use Rattle.mpy_tree.specs.Sites.{sites};
ghost use Rattle.mpy_tree.specs.Sharing.{is_called, shared, shared_on};

use crate::calls::is_called;
use crate::share::{Place, Shares};
use crate::walk::least_in;
use mpy_scopes::sooner;
use mpy_tree::{Fact, Func, Prog, Types};
use mpy_types::FactList;

/// Whether no two names of a program with these types share a list. It takes no memory.
///
/// # Errors
///
/// The least line of a statement that shares one.
#[tactic(auto, using(crate::proofs::Leasts::nothing_shared))]
pub fn unshared(p: &Prog, t: &Types) -> Result<(), u32>
    ensures { MatchResult result (λ _. shared (single (set_of t.now.facts)) (routines_of p.now) ≡
        []) (λ l. least (shared (single (set_of t.now.facts)) (routines_of p.now)) ≡ Some l) }
{
    match least_shared(&p.funcs.items, t.facts.items()) {
        None => Ok(()),
        Some(line) => Err(line),
    }
}

// The least line on which a list is shared.
#[tactic(auto, unfolding(mpy_tree::specs::Leasts::least), using(mpy_scopes::proofs::Soonest::lesser_of_none))]
fn least_shared(funcs: &[Func], facts: &[Fact]) -> Option<u32>
    ensures { result ≡ least (shared (single (set_of facts.now)) (map routine_of funcs.now)) }
{
    let known = FactList { facts };
    let mut first = None;
    for (i, func) in funcs.iter().enumerate() {
        first = sooner(first, shared_in(&known, funcs, i, func));
    }
    first
}

// The least line of a function.
fn shared_in(known: &FactList<'_>, funcs: &[Func], i: usize, func: &Func) -> Option<u32>
    ensures { result ≡ least (flat_map (shared_on (single (set_of known.now.facts.now))
        (map routine_of funcs.now) i (is_called (map routine_of funcs.now) func.now.name)
        func.now.params) (sites (block_of func.now.body))) }
{
    let place = Place {
        known,
        funcs,
        func: i,
    };
    let called = is_called(funcs, &func.name);
    let shares = Shares {
        place,
        called,
        params: &func.params,
    };
    least_in(&shares, &func.body)
}
