//! The weighted tree of a program.
ghost use Rattle.std.specs.Prelude.{◌≡◌, ◌<◌, ◌≤◌, ◌^◌, IfOk, length, map};
ghost use Rattle.mpy_tree.specs.View.{routine_of, routines_of};
ghost use Rattle.choice_tree.specs.Growing.{weighted_program};
ghost use Rattle.choice_tree.specs.RuleViews.{corrections_of};
ghost use Rattle.choice_tree.specs.StatementViews.{weighted_func};
ghost use Rattle.choice_tree.specs.Templates.{KeepPrimes};
ghost use Rattle.choice_tree.specs.WeightedTrees.{sizes};
ghost use Rattle.choice_tree.specs.WeightedViews.{weighteds};
ghost use Rattle.eml_rewrite.specs.Building.{BuiltAll};
ghost use Rattle.eml_rewrite.specs.Programs.{AreWithin, IsRewritten, funcs_grown, setting_of};

use crate::counter::Counter;
use crate::error::RewriteError;
use crate::least_program::count_func;
use crate::least_size::MOST;
use crate::sharing::Sharing;
use crate::spot::Spot;
use crate::statements::grow_func;
use choice_tree::{NoMemory, Rules, WFuncs, WProg};
use eml_instances::TypedScope;
use eml_match::parts::element;
use mpy_scopes::{Scopes, read_scopes};
use mpy_tree::Prog;
use mpy_types::Known;
use std::alloc::Global;

/// The weighted tree of all rewritings of a program by rules, where `known` gives the types of the
/// program's names; `Large` where it has more than 1,000,000 expression nodes, picks among them.
pub fn rewrite<K: Known>(
    alloc: Global,
    p: &Prog,
    known: &K,
    rules: &Rules,
) -> Result<WProg, RewriteError>
    requires few_rules { length rules.now.items.items < 2 ^ 32 }
    requires keep_primes { KeepPrimes (corrections_of rules.now) }
    ensures { IsRewritten result (weighted_program (setting_of (K.gives known.now) rules.now
        p.now.funcs.items.items) (routines_of p.now)) }
{
    let scopes = read_scopes(alloc, p.funcs.items.as_slice())?;
    let funcs = rewrite_funcs(alloc, &scopes, known, rules)?;
    Ok(WProg { funcs })
}

// The weighted trees of the functions. Their nodes are counted first, since where there are far too
// many, building up to the limit takes long.
fn rewrite_funcs<K: Known>(
    alloc: Global,
    scopes: &Scopes<'_>,
    known: &K,
    rules: &Rules,
) -> Result<WFuncs, RewriteError>
    requires few_rules { length rules.now.items.items < 2 ^ 32 }
    requires keep_primes { KeepPrimes (corrections_of rules.now) }
    ensures { AreWithin result 1000000 (funcs_grown (setting_of (K.gives known.now) rules.now
        scopes.now.funcs.now) (map routine_of scopes.now.funcs.now)) }
{
    let least = count_funcs(alloc, scopes, known, rules)?;
    if least > MOST {
        return Err(RewriteError::Large);
    }
    let mut counter = Counter {
        next: 0,
        left: MOST,
    };
    grow_funcs(alloc, scopes, known, rules, &mut counter)
}

// How many nodes they have together at least.
fn count_funcs<'a, K: Known>(
    alloc: Global,
    scopes: &'a Scopes<'a>,
    known: &'a K,
    rules: &'a Rules,
) -> Result<u32, NoMemory>
    requires few_rules { length rules.now.items.items < 2 ^ 32 }
    requires keep_primes { KeepPrimes (corrections_of rules.now) }
    ensures { IfOk result (λ n. n ≤ sizes (funcs_grown (setting_of (K.gives known.now) rules.now
        scopes.now.funcs.now) (map routine_of scopes.now.funcs.now))) }
{
    let mut nodes = 0u32;
    let mut i = 0usize;
    'funcs: loop {
        if nodes > MOST {
            return Ok(nodes);
        }
        match element(scopes.funcs, i) {
            None => return Ok(nodes),
            Some(func) => {
                let scope = TypedScope {
                    known,
                    scopes,
                    number: i,
                };
                let spot = Spot {
                    rules,
                    scope: &scope,
                    sharing: Sharing::Apart,
                    steps: 0,
                };
                let more = count_func(alloc, &spot, func)?;
                nodes = nodes.saturating_add(more);
            }
        }
        i += 1;
    }
}

// Those of the functions.
fn grow_funcs<K: Known>(
    alloc: Global,
    scopes: &Scopes<'_>,
    known: &K,
    rules: &Rules,
    counter: &mut Counter,
) -> Result<WFuncs, RewriteError>
    requires few_rules { length rules.now.items.items < 2 ^ 32 }
    requires keep_primes { KeepPrimes (corrections_of rules.now) }
    ensures { BuiltAll (λ r. weighteds (map weighted_func r.items.items)) result (funcs_grown
        (setting_of (K.gives known.now) rules.now scopes.now.funcs.now) (map routine_of
        scopes.now.funcs.now)) counter.old counter.new }
{
    let mut items = Vec::new(alloc);
    let mut i = 0usize;
    'funcs: loop {
        match element(scopes.funcs, i) {
            None => return Ok(WFuncs { items }),
            Some(func) => {
                let scope = TypedScope {
                    known,
                    scopes,
                    number: i,
                };
                let spot = Spot {
                    rules,
                    scope: &scope,
                    sharing: Sharing::Apart,
                    steps: 0,
                };
                items.push(grow_func(alloc, &spot, func, counter)?)?;
            }
        }
        i += 1;
    }
}
