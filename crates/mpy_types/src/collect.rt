//! The flows of a program, by the numbers of its slots.
ghost use Rattle.std.specs.Prelude.{◌≡◌, ◌++◌, length, map, IfOk, OnOk};
ghost use Rattle.std.specs.List.{flat_map};
ghost use Rattle.mpy_tree.specs.View.{term_of, terms, action_of, block_of, routine_of};
ghost use Rattle.mpy_tree.specs.Sites.{sites};
ghost use Rattle.mpy_tree.specs.Builtins.{builtin_of};
ghost use Rattle.mpy_tree.specs.Entries.{entry_of};
ghost use Rattle.mpy_tree.specs.SetTypes.{called};
ghost use Rattle.mpy_tree.specs.TypeSets.{just};
ghost use Rattle.mpy_tree.specs.Flows.{flows, flows_from, given_flows, all_site_flows, act_flows};
ghost use Rattle.mpy_tree.specs.Flows.{node_flows, argument_flows, entry_flows};
ghost use Rattle.mpy_types.specs.Inflows.{inflows_of, from_slot, from_call, into, flow_inflows};
ghost use Rattle.mpy_types.specs.Inflows.{fixed};
ghost use Rattle.mpy_scopes.specs.Seen.{slot_of};
ghost use Rattle.mpy_scopes.specs.Seen.{site_of};

use crate::inflow::{Inflow, Source, Via};
use mpy_scopes::{
    Numbered, Scopes, Site, Target, builtin_gives, called, push_site_nodes, push_sites,
};
use mpy_tree::{Act, ArithOp, Builtin, Expr, Exprs, Func, Name, NoMemory, Signature, Ty, TypeSet};
use std::alloc::Global;

/// What flows into the slots of a program that is entered so.
pub fn inflows(alloc: Global, scopes: &Scopes<'_>, s: &Signature) -> Result<Vec<Inflow>, NoMemory>
    ensures { IfOk result (λ fs. fs.items ≡ flat_map
        (flow_inflows (map routine_of scopes.now.funcs.now))
        (flows (map routine_of scopes.now.funcs.now) (entry_of s.now))) }
{
    let mut out = Vec::new(alloc);
    push_entry(scopes, &s.entry, s.params.items(), &mut out)?;
    for (i, func) in scopes.funcs.iter().enumerate() {
        let reader = Reader { scopes, func: i };
        reader.push_body(alloc, func, &mut out)?;
    }
    Ok(out)
}

// Appends what flows into the entry's parameters, if the entry is there.
fn push_entry(
    scopes: &Scopes<'_>,
    entry: &Name,
    params: &[Ty],
    out: &mut Vec<Inflow>,
) -> Result<(), NoMemory>
    ensures { OnOk result (out.new.items ≡ out.old.items ++ flat_map
        (flow_inflows (map routine_of scopes.now.funcs.now)) (entry_flows
        (called (map routine_of scopes.now.funcs.now) entry.now) params.now)) }
{
    match called(scopes.funcs, entry) {
        None => Ok(()),
        Some(g) => push_given(scopes, g, params, out),
    }
}

// Appends what flows into the entry's parameters.
fn push_given(
    scopes: &Scopes<'_>,
    g: Numbered<'_>,
    types: &[Ty],
    out: &mut Vec<Inflow>,
) -> Result<(), NoMemory>
    ensures { OnOk result (out.new.items ≡ out.old.items ++ flat_map
        (flow_inflows (map routine_of scopes.now.funcs.now)) (given_flows g.entry.number
        g.entry.func.now.params types.now)) }
{
    for (k, x) in g.func.params.items().iter().enumerate() {
        match types.get(k) {
            None => return Ok(()),
            Some(ty) => {
                let to = scopes.number(g.number, Target::Local(x));
                push_fixed(to, Via::Whole, *ty, out)?;
            }
        }
    }
    Ok(())
}

// Appends a type that flows into a slot.
fn push_fixed(to: Option<usize>, via: Via, ty: Ty, out: &mut Vec<Inflow>) -> Result<(), NoMemory>
    ensures { OnOk result (out.new.items ≡ out.old.items ++ into to (λ k. fixed k via (just ty))) }
{
    if let Some(to) = to {
        let types = via.through(TypeSet::just(ty));
        out.push(Inflow {
            to,
            from: Source::Fixed(types),
        })?;
    }
    Ok(())
}

// Appends what flows from a slot into another.
fn push_slot(
    to: usize,
    via: Via,
    from: Option<usize>,
    out: &mut Vec<Inflow>,
) -> Result<(), NoMemory>
    ensures { OnOk result (out.new.items ≡ out.old.items ++ from_slot to via from) }
{
    if let Some(from) = from {
        out.push(Inflow {
            to,
            from: Source::Slot(via, from),
        })?;
    }
    Ok(())
}

/// A function that is read.
#[derive(Clone, Copy, Drop)]
struct Reader<'s, 'a> {
    scopes: &'s Scopes<'a>,
    func: usize,
}

impl Reader<'_, '_> {
    // Appends the flows of the function.
    fn push_body(self, alloc: Global, func: &Func, out: &mut Vec<Inflow>) -> Result<(), NoMemory>
        ensures { OnOk result (out.new.items ≡ out.old.items ++ flat_map
            (flow_inflows (map routine_of self.entry.scopes.now.funcs.now)) (flat_map
            (all_site_flows (map routine_of self.entry.scopes.now.funcs.now) self.entry.func)
            (sites (block_of func.now.body)))) }
    {
        let mut seen = Vec::new(alloc);
        push_sites(&func.body, &mut seen)?;
        for s in &seen {
            self.push_site(alloc, *s, out)?;
        }
        Ok(())
    }

    // Appends the flows of a statement and of the calls in it.
    fn push_site(self, alloc: Global, s: Site<'_>, out: &mut Vec<Inflow>) -> Result<(), NoMemory>
        ensures { OnOk result (out.new.items ≡ out.old.items ++ flat_map
            (flow_inflows (map routine_of self.entry.scopes.now.funcs.now)) (all_site_flows
            (map routine_of self.entry.scopes.now.funcs.now) self.entry.func (site_of s.entry))) }
    {
        if let Site::Does(_, act) = s {
            self.push_act(act, out)?;
        }
        let mut nodes = Vec::new(alloc);
        push_site_nodes(s, &mut nodes)?;
        for n in &nodes {
            self.push_node(n, out)?;
        }
        Ok(())
    }

    // Appends the flow of a statement.
    fn push_act(self, act: &Act, out: &mut Vec<Inflow>) -> Result<(), NoMemory>
        ensures { OnOk result (out.new.items ≡ out.old.items ++ flat_map
            (flow_inflows (map routine_of self.entry.scopes.now.funcs.now)) (act_flows
            self.entry.func (action_of act.now))) }
    {
        let (slot, via, e) = match act {
            Act::Augment(_, ArithOp::Mul, _) => return Ok(()),
            Act::Assign(x, e) | Act::Augment(x, _, e) => (Target::Local(x), Via::Whole, e),
            Act::For(x, e, _) => (Target::Local(x), Via::Members, e),
            Act::Return(Some(e)) => (Target::Result, Via::Whole, e),
            _ => return Ok(()),
        };
        let to = self.scopes.number(self.func, slot);
        self.push_into(to, via, e, out)
    }

    // Appends the flow of a node, if it is a call.
    fn push_node(self, e: &Expr, out: &mut Vec<Inflow>) -> Result<(), NoMemory>
        ensures { OnOk result (out.new.items ≡ out.old.items ++ flat_map
            (flow_inflows (map routine_of self.entry.scopes.now.funcs.now)) (node_flows
            (map routine_of self.entry.scopes.now.funcs.now) self.entry.func (term_of e.now))) }
    {
        if let Expr::Call(f, es) = e {
            if let Some(g) = called(self.scopes.funcs, f) {
                return self.push_arguments(g, es, out);
            }
        }
        Ok(())
    }

    // Appends what flows into a function's parameters.
    fn push_arguments(
        self,
        g: Numbered<'_>,
        es: &Exprs,
        out: &mut Vec<Inflow>,
    ) -> Result<(), NoMemory>
        ensures { OnOk result (out.new.items ≡ out.old.items ++ flat_map
            (flow_inflows (map routine_of self.entry.scopes.now.funcs.now)) (argument_flows
            g.entry.number g.entry.func.now.params self.entry.func
            (terms (map term_of es.now.items.items)))) }
    {
        for (k, x) in g.func.params.items().iter().enumerate() {
            match es.items.get(k) {
                None => return Ok(()),
                Some(e) => {
                    let to = self.scopes.number(g.number, Target::Local(x));
                    self.push_into(to, Via::Whole, e, out)?;
                }
            }
        }
        Ok(())
    }

    // Appends what flows from an expression into a slot, if it has a number.
    fn push_into(
        self,
        to: Option<usize>,
        via: Via,
        e: &Expr,
        out: &mut Vec<Inflow>,
    ) -> Result<(), NoMemory>
        ensures { OnOk result (out.new.items ≡ out.old.items ++ into to
            (λ k. inflows_of (map routine_of self.entry.scopes.now.funcs.now) self.entry.func k via
            (term_of e.now))) }
    {
        match to {
            None => Ok(()),
            Some(to) => self.push_value(to, via, e, out),
        }
    }

    // Appends what flows from an expression into a slot.
    fn push_value(
        self,
        to: usize,
        via: Via,
        e: &Expr,
        out: &mut Vec<Inflow>,
    ) -> Result<(), NoMemory>
        ensures { OnOk result (out.new.items ≡ out.old.items ++ inflows_of
            (map routine_of self.entry.scopes.now.funcs.now) self.entry.func to via
            (term_of e.now)) }
    {
        let ty = match e {
            Expr::Name(x) => {
                let from = self.scopes.number(self.func, Target::Local(x));
                return push_slot(to, via, from, out);
            }
            Expr::Arith(ArithOp::Add, a, b) => {
                self.push_value(to, via, a, out)?;
                return self.push_value(to, via, b, out);
            }
            Expr::Cond { test: _, yes, no } => {
                self.push_value(to, via, yes, out)?;
                return self.push_value(to, via, no, out);
            }
            Expr::Index(a, _) => return self.push_value(to, via.deeper(), a, out),
            Expr::Arith(ArithOp::Mul, a, _) | Expr::Slice(a, _, _) => {
                return self.push_value(to, via, a, out);
            }
            Expr::Call(f, _) => return self.push_call(to, via, f, out),
            Expr::Int(_) | Expr::Neg(_) | Expr::Arith(_, _, _) => Ty::Int,
            Expr::Text(_) => Ty::Text,
            Expr::List(_) => Ty::List,
            Expr::Bool(_) | Expr::Not(_) | Expr::Cmp(_, _, _) | Expr::And(_, _) | Expr::Or(_, _) =>
                Ty::Bool,
        };
        push_fixed(Some(to), via, ty, out)
    }

    // Appends what flows from a call into a slot.
    fn push_call(self, to: usize, via: Via, f: &Name, out: &mut Vec<Inflow>) -> Result<(), NoMemory>
        ensures { OnOk result (out.new.items ≡ out.old.items ++ from_call
            (map routine_of self.entry.scopes.now.funcs.now) to via (builtin_of f.now)
            (called (map routine_of self.entry.scopes.now.funcs.now) f.now)) }
    {
        if let Some(b) = Builtin::of(f.bytes()) {
            return push_fixed(Some(to), via, builtin_gives(b), out);
        }
        match called(self.scopes.funcs, f) {
            None => Ok(()),
            Some(g) => push_slot(to, via, self.scopes.number(g.number, Target::Result), out),
        }
    }
}
