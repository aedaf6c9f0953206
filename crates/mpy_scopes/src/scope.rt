//! The functions of a program, with their locals and the numbers of their slots.
ghost use Rattle.std.specs.Prelude.{◌≡◌, ◌+◌, ◌++◌, length, map, IfOk};
ghost use Rattle.mpy_tree.specs.View.{routine_of};
ghost use Rattle.mpy_tree.specs.Locals.{locals};
ghost use Rattle.mpy_scopes.specs.Seen.{slot_of};
ghost use Rattle.mpy_scopes.specs.Numbers.{room, rooms_from, in_room, number};
ghost use Rattle.mpy_scopes.specs.Seen.{name_of};

use crate::flow::Target;
use crate::index::Index;
use crate::names::locals;
use crate::nodes::push_sites;
use mpy_tree::{Func, NoMemory};
use std::alloc::{AllocError, Global};

/// A function with its locals and the numbers of its slots: those of the locals, that of the
/// result, and then `next`.
#[derive(Drop)]
pub struct Scope<'a> {
    pub func: &'a Func,
    pub names: Index<'a>,
    pub first: usize,
    pub next: usize,
    ghost named: { map name_of names.names.items ≡ locals (routine_of func.now) },
    ghost laid: { next ≡ first + (length names.names.items + 1) },
}

// A function whose first slot has this number.
fn read_scope<'a>(alloc: Global, func: &'a Func, first: usize) -> Result<Scope<'a>, NoMemory>
    ensures func { IfOk result (λ s. s.func.now ≡ func.now) }
    ensures first { IfOk result (λ s. s.first ≡ first) }
{
    let mut seen = Vec::new(alloc);
    push_sites(&func.body, &mut seen)?;
    let names = locals(alloc, func, &seen)?;
    let next = match first.checked_add(names.names.len() + 1) {
        None => return Err(AllocError),
        Some(next) => next,
    };
    Ok(Scope {
        func,
        names,
        first,
        next,
    })
}

impl Scope<'_> {
    // The number of a slot of this function, if it is one.
    fn number(&self, slot: Target<'_>) -> Option<usize>
        ensures { result ≡ in_room (room self.now.first (map name_of self.now.names.names.items))
            (slot_of slot.entry) }
    {
        let last = self.next - 1;
        match slot {
            Target::Result => Some(last),
            Target::Local(x) => match self.names.find(x) {
                None => None,
                Some(k) => Some(self.first + k),
            },
        }
    }
}

/// The functions of a program.
#[derive(Drop)]
pub struct Scopes<'a> {
    pub funcs: &'a [Func],
    pub items: Vec<Scope<'a>>,
    ghost same: { map (λ s. s.func.now) items.items ≡ funcs.now },
    ghost laid: { map (λ s. room s.first (map name_of s.names.names.items)) items.items ≡
        rooms_from 0 (map routine_of funcs.now) },
}

/// The functions of a program, with the numbers of their slots in order.
pub fn read_scopes<'a>(alloc: Global, funcs: &'a [Func]) -> Result<Scopes<'a>, NoMemory>
    ensures { IfOk result (λ s. s.funcs.now ≡ funcs.now) }
{
    let mut items = Vec::new(alloc);
    let mut first = 0;
    for func in funcs {
        let scope = read_scope(alloc, func, first)?;
        first = scope.next;
        items.push(scope)?;
    }
    Ok(Scopes { funcs, items })
}

impl Scopes<'_> {
    /// The number of a slot, if it is one of the program's.
    pub fn number(&self, func: usize, slot: Target<'_>) -> Option<usize>
        ensures { result ≡ number (map routine_of self.now.funcs.now) func (slot_of slot.entry) }
    {
        match self.items.get(func) {
            None => None,
            Some(scope) => scope.number(slot),
        }
    }
}
