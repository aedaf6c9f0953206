//! The typing of a program.
ghost use Rattle.std.specs.Prelude.{◌≡◌, ◌<◌, ◌^◌, length, map, IfOk};
ghost use Rattle.mpy_tree.specs.Entries.{entry_of};
ghost use Rattle.mpy_tree.specs.Running.{found};
ghost use Rattle.mpy_tree.specs.View.{routine_of, routines_of};
ghost use Rattle.mpy_tree.specs.Typings.{Checks};
ghost use Rattle.mpy_tree.specs.Flows.{flows, IsLeast};
ghost use Rattle.mpy_tree.specs.Leasts.{least};
ghost use Rattle.mpy_tree.specs.Rules.{single};
ghost use Rattle.mpy_tree.specs.Faults.{or_fault, names_fault, entry_fault, slots_fault};
ghost use Rattle.mpy_tree.specs.Faults.{nodes_fault, slots, fault_on, broken_from, free_function};
ghost use Rattle.mpy_types.specs.Tables.{facts_of};
ghost use Rattle.mpy_types.specs.Views.{place_of};

use crate::broken::least_broken;
use crate::collect::inflows;
use crate::slots::{Place, facts_at, slots, slots_fault};
use crate::solve::least_types;
use crate::table::Table;
use mpy_scopes::{Scopes, called, entry_fault, names_fault, read_scopes};
use mpy_tree::{Cause, Facts, Func, NoMemory, Prog, Signature, TypeError, Types};
use std::alloc::Global;

/// The typing of a program that is entered so: the least set of types that keeps every assignment,
/// `for`, call and `return`, as one fact for each slot in order, where by that set each slot has
/// exactly one type and no name, call or node is at fault. The entry's result may have no type
/// where the signature leaves it free.
///
/// # Errors
///
/// The first fault, with its line: the least line of a fault of names (`Name`) or of numbers of
/// arguments (`Arity`); `Entry` where the entry isn't there, or has another number of parameters;
/// the first slot without a type (`Undetermined`) or with several, of which the first two are told;
/// the least line of a node that breaks its rule (`TypeFault`). Or want of memory.
pub fn check_types(alloc: Global, p: &Prog, s: &Signature) -> Result<Types, TypeError>
    ensures { Checks result (routines_of p.now) (entry_of s.now) }
{
    let scopes = read_scopes(alloc, p.funcs.items.as_slice())?;
    if let Some(e) = early_fault(alloc, &scopes, s)? {
        return Err(e);
    }
    let free = free_function(scopes.funcs, s);
    let places = slots(alloc, &scopes)?;
    let table = least_set(alloc, &scopes, &places, s)?;
    if let Some(e) = late_fault(alloc, &table, &places, free)? {
        return Err(e);
    }
    let facts = facts_at(alloc, &table, &places)?;
    Ok(Types {
        facts: Facts::from_vec(facts),
    })
}

// The first fault of names, numbers of arguments or the entry.
fn early_fault(
    alloc: Global,
    scopes: &Scopes<'_>,
    s: &Signature,
) -> Result<Option<TypeError>, NoMemory>
    ensures { IfOk result (λ e. e ≡ or_fault (names_fault (map routine_of scopes.now.funcs.now))
        (entry_fault (found (map routine_of scopes.now.funcs.now) s.now.entry)
        (length s.now.params))) }
{
    let fault = names_fault(alloc, scopes)?;
    if fault.is_some() {
        return Ok(fault);
    }
    Ok(entry_fault(scopes.funcs, &s.entry, s.params.items().len()))
}

// The least set of facts.
fn least_set<'s, 'a>(
    alloc: Global,
    scopes: &'s Scopes<'a>,
    places: &[Place<'_>],
    s: &Signature,
) -> Result<Table<'s, 'a>, NoMemory>
    requires { map place_of places.now ≡ slots (map routine_of scopes.now.funcs.now) }
    ensures least { IfOk result (λ t. IsLeast (facts_of t) (map routine_of scopes.now.funcs.now)
        (entry_of s.now)) }
    ensures scopes { IfOk result (λ t. t.scopes.now.funcs.now ≡ scopes.now.funcs.now) }
{
    let inflows = inflows(alloc, scopes, s)?;
    let sets = least_types(alloc, places, &inflows)?;
    Ok(Table { scopes, sets })
}

// The function whose result may have no type.
fn free_function(funcs: &[Func], s: &Signature) -> Option<usize>
    ensures { result ≡ free_function (map routine_of funcs.now) (entry_of s.now) }
{
    if !s.free_result {
        return None;
    }
    match called(funcs, &s.entry) {
        None => None,
        Some(g) => Some(g.number),
    }
}

// The first fault of a slot, or else of a node, by the facts of a table.
fn late_fault(
    alloc: Global,
    table: &Table<'_, '_>,
    places: &[Place<'_>],
    free: Option<usize>,
) -> Result<Option<TypeError>, NoMemory>
    requires { map place_of places.now ≡ slots (map routine_of table.now.scopes.now.funcs.now) }
    ensures { IfOk result (λ e. e ≡ or_fault (slots_fault free (facts_of table.now)
        (slots (map routine_of table.now.scopes.now.funcs.now))) (nodes_fault
        (single (facts_of table.now)) (map routine_of table.now.scopes.now.funcs.now))) }
{
    let fault = slots_fault(table, places, free);
    if fault.is_some() {
        return Ok(fault);
    }
    match least_broken(alloc, table, table.scopes.funcs)? {
        None => Ok(None),
        Some(line) => Ok(Some(TypeError::Fault {
            cause: Cause::TypeFault,
            line,
        })),
    }
}
