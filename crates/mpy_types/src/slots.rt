//! The slots of a program, and the first that hasn't exactly one type.
ghost use Rattle.std.specs.Prelude.{◌≡◌, ◌<◌, ◌^◌, ◌++◌, length, map, IfOk, OnOk};
ghost use Rattle.mpy_tree.specs.View.{block_of, routine_of};
ghost use Rattle.mpy_tree.specs.Sites.{sites};
ghost use Rattle.mpy_tree.specs.Faults.{slots, routine_slots, local_line, assigned_on, listed};
ghost use Rattle.mpy_tree.specs.Faults.{may_lack, slot_fault, slots_fault, facts_at};
ghost use Rattle.mpy_types.specs.Tables.{facts_of};
ghost use Rattle.mpy_scopes.specs.Seen.{name_of, site_of};
ghost use Rattle.mpy_types.specs.Views.{place_of};

use crate::table::Table;
use mpy_scopes::{Scope, Scopes, Site, Target, assigned, push_sites};
use mpy_tree::{Cause, Fact, Func, Name, NoMemory, Slot, Ty, TypeError, TypeSet};
use std::alloc::{AllocError, Global};

/// A slot with its line.
#[derive(Clone, Copy, Drop)]
pub struct Place<'a> {
    pub func: usize,
    pub slot: Target<'a>,
    pub line: u32,
}

/// The slots of a program, in order.
pub fn slots<'a>(alloc: Global, scopes: &Scopes<'a>) -> Result<Vec<Place<'a>>, NoMemory>
    ensures { IfOk result (λ ss. map place_of ss.items ≡ slots
        (map routine_of scopes.now.funcs.now)) }
{
    let mut out = Vec::new(alloc);
    for (i, scope) in scopes.items.iter().enumerate() {
        push_slots(alloc, i, scope, &mut out)?;
    }
    Ok(out)
}

// Appends the slots of a function.
fn push_slots<'a>(
    alloc: Global,
    i: usize,
    scope: &Scope<'a>,
    out: &mut Vec<Place<'a>>,
) -> Result<(), NoMemory>
    ensures { OnOk result (map place_of out.new.items ≡ map place_of out.old.items ++ routine_slots
        i (routine_of scope.now.func.now)) }
{
    let mut seen = Vec::new(alloc);
    push_sites(&scope.func.body, &mut seen)?;
    for x in &scope.names.names {
        let line = local_line(scope.func, &seen, x);
        out.push(Place {
            func: i,
            slot: Target::Local(*x),
            line,
        })?;
    }
    out.push(Place {
        func: i,
        slot: Target::Result,
        line: scope.func.line,
    })?;
    Ok(())
}

// The line of a local.
fn local_line(func: &Func, seen: &[Site<'_>], x: &Name) -> u32
    requires { map site_of seen.now ≡ sites (block_of func.now.body) }
    ensures { result ≡ local_line (routine_of func.now) x.now }
{
    for y in func.params.items() {
        if x.is(y) {
            return func.line;
        }
    }
    assigned_on(seen, x)
}

// The first line on which a name is assigned.
fn assigned_on(seen: &[Site<'_>], x: &Name) -> u32
    ensures { result ≡ assigned_on x.now (map site_of seen.now) }
{
    for s in seen {
        if let Some(y) = assigned(*s) {
            if x.is(y) {
                return s.line();
            }
        }
    }
    0
}

/// The first slot without exactly one type, but for the result of the function `free` without any.
pub fn slots_fault(
    table: &Table<'_, '_>,
    places: &[Place<'_>],
    free: Option<usize>,
) -> Option<TypeError>
    ensures { result ≡ slots_fault free (facts_of table.now) (map place_of places.now) }
{
    for s in places {
        let fault = slot_fault(may_lack(free, s), table.get(s.func, s.slot), s.line);
        if fault.is_some() {
            return fault;
        }
    }
    None
}

// Whether a slot may have no type.
fn may_lack(free: Option<usize>, s: &Place<'_>) -> bool
    ensures { result ≡ may_lack free (place_of s.now) }
{
    match (free, s.slot) {
        (Some(j), Target::Result) => j == s.func,
        _ => false,
    }
}

// The fault of a slot with these types, which may have none or must have one.
fn slot_fault(may_be_none: bool, types: TypeSet, line: u32) -> Option<TypeError>
    ensures { result ≡ slot_fault may_be_none (listed types) line }
{
    let (one, other) = match (types.int, types.bool, types.list, types.text) {
        (false, false, false, false) => {
            if may_be_none {
                return None;
            }
            return Some(TypeError::Fault {
                cause: Cause::Undetermined,
                line,
            });
        }
        (true, true, _, _) => (Ty::Int, Ty::Bool),
        (true, false, true, _) => (Ty::Int, Ty::List),
        (true, false, false, true) => (Ty::Int, Ty::Text),
        (false, true, true, _) => (Ty::Bool, Ty::List),
        (false, true, false, true) => (Ty::Bool, Ty::Text),
        (false, false, true, true) => (Ty::List, Ty::Text),
        _ => return None,
    };
    Some(TypeError::Conflict { line, one, other })
}

/// The facts about slots that have exactly one type.
pub fn facts_at(
    alloc: Global,
    table: &Table<'_, '_>,
    places: &[Place<'_>],
) -> Result<Vec<Fact>, NoMemory>
    ensures { IfOk result (λ fs. fs.items
        ≡ facts_at (facts_of table.now) (map place_of places.now)) }
{
    let mut facts = Vec::new(alloc);
    for s in places {
        if let Some(ty) = table.get(s.func, s.slot).only() {
            let func = u32::try_from(s.func).map_err(|_| AllocError)?;
            let slot = s.slot.copy()?;
            facts.push(Fact { func, slot, ty })?;
        }
    }
    Ok(facts)
}
