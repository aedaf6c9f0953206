//! The outcome of an expression.

ghost use Rattle.std.specs.Prelude.{◌≡◌, ◌<◌, ℕ, Bool, List, length, map, Some, IfOk, IsSome};
ghost use Rattle.std.specs.Prelude.{◌∷◌, if◌then◌else◌, slice_get};
ghost use Rattle.mpy_tree.specs.Expressions.{Calls, value_of};
ghost use Rattle.mpy_tree.specs.Trees.{Cond as CondKind};
ghost use Rattle.mpy_tree.specs.Values.{Locals};
ghost use Rattle.bit_words.specs.Logic.{Extends};
ghost use Rattle.choice_tree.specs.WeightedTrees.{Weighted, children, other_trees};
ghost use Rattle.choice_tree.specs.WeightedViews.{member_seen, members as with_trees, weighted_of};
ghost use Rattle.sym_nodes.specs.Environments.{HasPicks, IsEnvIn, PicksRead, StateReads};
ghost use Rattle.sym_nodes.specs.Nodes.{side_kind};
ghost use Rattle.sym_nodes.specs.Operands.{ArePartsIn, types_of};
ghost use Rattle.sym_nodes.specs.Plain.{AllReadAsPlain, number_of, type_of};
ghost use Rattle.sym_nodes.specs.Roots.{IsNodeAt};
ghost use Rattle.sym_nodes.specs.Views.{env_of};
ghost use Rattle.sym_expr.specs.Giving.{GivesPlain, HasTypeIn};
ghost use Rattle.sym_expr.specs.Signatures.{scope_at};

use crate::calls::node_outcome;
use crate::functions::Functions;
use bit_words::NoMemory;
use bit_words::gates::or;
use bit_words::logic::Logic;
use choice_tree::{Other, WExpr, expr_child};
use std::alloc::Global;
use sym_nodes::decided::{known_member, settles};
use sym_nodes::shortcuts::{cond_outcome, side_outcome};
use sym_nodes::view::View;
use sym_values::SymOutcome;
use sym_values::truth::test_bit;

/// The outcome of an expression, whose calls are those of the functions. What is known not to count
/// isn't walked: a side of an `and` or an `or`, an arm of a conditional, a member of a pick.
#[cycle(walk)]
pub fn eval<L: Logic, C: Functions<L>>(
    alloc: Global,
    g: &mut L,
    e: &WExpr,
    view: &View<'_, L::Bit>,
    functions: &C,
) -> Result<SymOutcome<L::Bit>, NoMemory>
    requires env { IsEnvIn L.owns g.old (env_of view.now) }
    requires typed { IsSome (type_of (scope_at (C.signatures functions.now) (env_of view.now))
        (weighted_of e.now)) }
    requires picks { HasPicks (env_of view.now).picks (weighted_of e.now) }
    requires many { C.have_picks functions.now (env_of view.now).picks }
    ensures extends { Extends L.owns L.reads L.count g.old g.new }
    ensures made { IfOk result (HasTypeIn L.owns g.new (C.signatures functions.now)
        (env_of view.now) (weighted_of e.now)) }
    ensures value { IfOk result (GivesPlain L.reads g.old g.new
        (C.are_calls functions.now (env_of view.now).limits) (env_of view.now)
        (weighted_of e.now)) }
{
    match e {
        WExpr::And(_, _) => {
            let outcome = eval_sides(alloc, g, e, false, view, functions)?;
            Ok(outcome)
        }
        WExpr::Or(_, _) => {
            let outcome = eval_sides(alloc, g, e, true, view, functions)?;
            Ok(outcome)
        }
        WExpr::Cond { .. } => {
            let outcome = eval_cond(alloc, g, e, view, functions)?;
            Ok(outcome)
        }
        WExpr::Pick { number, .. } => {
            let outcome = eval_pick(alloc, g, e, *number, view, functions)?;
            Ok(outcome)
        }
        _ => {
            let outcome = eval_whole(alloc, g, e, view, functions)?;
            Ok(outcome)
        }
    }
}

/// The same from the outcomes of all children.
#[cycle(walk)]
fn eval_whole<L: Logic, C: Functions<L>>(
    alloc: Global,
    g: &mut L,
    e: &WExpr,
    view: &View<'_, L::Bit>,
    functions: &C,
) -> Result<SymOutcome<L::Bit>, NoMemory>
    requires env { IsEnvIn L.owns g.old (env_of view.now) }
    requires typed { IsSome (type_of (scope_at (C.signatures functions.now) (env_of view.now))
        (weighted_of e.now)) }
    requires picks { HasPicks (env_of view.now).picks (weighted_of e.now) }
    requires many { C.have_picks functions.now (env_of view.now).picks }
    ensures extends { Extends L.owns L.reads L.count g.old g.new }
    ensures made { IfOk result (HasTypeIn L.owns g.new (C.signatures functions.now)
        (env_of view.now) (weighted_of e.now)) }
    ensures value { IfOk result (GivesPlain L.reads g.old g.new
        (C.are_calls functions.now (env_of view.now).limits) (env_of view.now)
        (weighted_of e.now)) }
{
    let parts = eval_children(alloc, g, e, view, functions)?;
    let outcome = node_outcome(alloc, g, e, view, functions, parts)?;
    Ok(outcome)
}

/// `and` and `or`, which stop at a truth value of the left side.
#[cycle(walk)]
fn eval_sides<L: Logic, C: Functions<L>>(
    alloc: Global,
    g: &mut L,
    e: &WExpr,
    stop: bool,
    view: &View<'_, L::Bit>,
    functions: &C,
) -> Result<SymOutcome<L::Bit>, NoMemory>
    requires env { IsEnvIn L.owns g.old (env_of view.now) }
    requires typed { IsSome (type_of (scope_at (C.signatures functions.now) (env_of view.now))
        (weighted_of e.now)) }
    requires picks { HasPicks (env_of view.now).picks (weighted_of e.now) }
    requires many { C.have_picks functions.now (env_of view.now).picks }
    requires node { IsNodeAt (weighted_of e.now) (side_kind stop) }
    ensures extends { Extends L.owns L.reads L.count g.old g.new }
    ensures made { IfOk result (HasTypeIn L.owns g.new (C.signatures functions.now)
        (env_of view.now) (weighted_of e.now)) }
    ensures value { IfOk result (GivesPlain L.reads g.old g.new
        (C.are_calls functions.now (env_of view.now).limits) (env_of view.now)
        (weighted_of e.now)) }
{
    let left = eval_child(alloc, g, e, 0, view, functions)?;
    if settles(g, &left, stop) {
        return Ok(left);
    }
    let right = eval_child(alloc, g, e, 1, view, functions)?;
    let both = side_outcome(g, stop, &left, &right)?;
    Ok(both)
}

/// A conditional: one arm where the test is known, and else both.
#[cycle(walk)]
fn eval_cond<L: Logic, C: Functions<L>>(
    alloc: Global,
    g: &mut L,
    e: &WExpr,
    view: &View<'_, L::Bit>,
    functions: &C,
) -> Result<SymOutcome<L::Bit>, NoMemory>
    requires env { IsEnvIn L.owns g.old (env_of view.now) }
    requires typed { IsSome (type_of (scope_at (C.signatures functions.now) (env_of view.now))
        (weighted_of e.now)) }
    requires picks { HasPicks (env_of view.now).picks (weighted_of e.now) }
    requires many { C.have_picks functions.now (env_of view.now).picks }
    requires node { IsNodeAt (weighted_of e.now) CondKind }
    ensures extends { Extends L.owns L.reads L.count g.old g.new }
    ensures made { IfOk result (HasTypeIn L.owns g.new (C.signatures functions.now)
        (env_of view.now) (weighted_of e.now)) }
    ensures value { IfOk result (GivesPlain L.reads g.old g.new
        (C.are_calls functions.now (env_of view.now).limits) (env_of view.now)
        (weighted_of e.now)) }
{
    let test = eval_child(alloc, g, e, 1, view, functions)?;
    let holds = test_bit(g, &test.value)?;
    match g.known(holds) {
        Some(known) => {
            let chosen = eval_child(alloc, g, e, arm(known), view, functions)?;
            let fault = or(g, test.fault, chosen.fault)?;
            Ok(SymOutcome {
                value: chosen.value,
                fault,
            })
        }
        None => {
            let yes = eval_child(alloc, g, e, 0, view, functions)?;
            let no = eval_child(alloc, g, e, 2, view, functions)?;
            let joined = cond_outcome(alloc, g, &test, &yes, &no)?;
            Ok(joined)
        }
    }
}

/// A pick: its member where that is known, and else all of them.
#[cycle(walk)]
fn eval_pick<L: Logic, C: Functions<L>>(
    alloc: Global,
    g: &mut L,
    e: &WExpr,
    number: u32,
    view: &View<'_, L::Bit>,
    functions: &C,
) -> Result<SymOutcome<L::Bit>, NoMemory>
    requires env { IsEnvIn L.owns g.old (env_of view.now) }
    requires typed { IsSome (type_of (scope_at (C.signatures functions.now) (env_of view.now))
        (weighted_of e.now)) }
    requires picks { HasPicks (env_of view.now).picks (weighted_of e.now) }
    requires many { C.have_picks functions.now (env_of view.now).picks }
    requires pick { Some number ≡ number_of (weighted_of e.now) }
    ensures extends { Extends L.owns L.reads L.count g.old g.new }
    ensures made { IfOk result (HasTypeIn L.owns g.new (C.signatures functions.now)
        (env_of view.now) (weighted_of e.now)) }
    ensures value { IfOk result (GivesPlain L.reads g.old g.new
        (C.are_calls functions.now (env_of view.now).limits) (env_of view.now)
        (weighted_of e.now)) }
{
    let member = view.picks.at(number as usize);
    match known_member(g, member.as_slice(), members(e))? {
        Some(i) => {
            let outcome = eval_child(alloc, g, e, i, view, functions)?;
            Ok(outcome)
        }
        None => {
            let outcome = eval_whole(alloc, g, e, view, functions)?;
            Ok(outcome)
        }
    }
}

/// How many members a pick has, its base among them.
fn members(e: &WExpr) -> usize
    requires { IsSome (number_of (weighted_of e.now)) }
    ensures { result ≡ length (children (weighted_of e.now)) }
{
    match e {
        WExpr::Pick { base, others, .. } => one_more(base, others.items.as_slice()),
        _ => unreachable!(),
    }
}

// The base and so many others.
fn one_more(base: &WExpr, others: &[Other]) -> usize
    ensures { result ≡ length (weighted_of base.now ∷ other_trees (with_trees (map member_seen
        others.now))) }
{
    let _ = base;
    others.len() + 1
}

/// The place of the arm of a conditional that counts where its test holds, or doesn't.
fn arm(holds: bool) -> usize
    ensures { result ≡ (if holds then 0 else 2) }
{
    if holds { 0 } else { 2 }
}

/// The outcome of the child at a place.
#[cycle(walk)]
fn eval_child<L: Logic, C: Functions<L>>(
    alloc: Global,
    g: &mut L,
    e: &WExpr,
    i: usize,
    view: &View<'_, L::Bit>,
    functions: &C,
) -> Result<SymOutcome<L::Bit>, NoMemory>
    requires env { IsEnvIn L.owns g.old (env_of view.now) }
    requires typed { IsSome (type_of (scope_at (C.signatures functions.now) (env_of view.now))
        (weighted_of e.now)) }
    requires picks { HasPicks (env_of view.now).picks (weighted_of e.now) }
    requires many { C.have_picks functions.now (env_of view.now).picks }
    requires place { i < length (children (weighted_of e.now)) }
    ensures extends { Extends L.owns L.reads L.count g.old g.new }
    ensures made { IfOk result (λ r. (w : Weighted)
        → slice_get (children (weighted_of e.now)) i ≡ Some w
        → HasTypeIn L.owns g.new (C.signatures functions.now) (env_of view.now) w r) }
    ensures value { IfOk result (λ r. (w : Weighted)
        → slice_get (children (weighted_of e.now)) i ≡ Some w
        → GivesPlain L.reads g.old g.new (C.are_calls functions.now (env_of view.now).limits)
        (env_of view.now) w r) }
{
    match expr_child(e, i as u128) {
        Some(part) => {
            let outcome = eval(alloc, g, part, view, functions)?;
            Ok(outcome)
        }
        None => unreachable!(),
    }
}

/// The outcomes of the children of an expression.
#[cycle(walk)]
fn eval_children<L: Logic, C: Functions<L>>(
    alloc: Global,
    g: &mut L,
    e: &WExpr,
    view: &View<'_, L::Bit>,
    functions: &C,
) -> Result<Vec<SymOutcome<L::Bit>>, NoMemory>
    requires env { IsEnvIn L.owns g.old (env_of view.now) }
    requires typed { IsSome (type_of (scope_at (C.signatures functions.now) (env_of view.now))
        (weighted_of e.now)) }
    requires picks { HasPicks (env_of view.now).picks (weighted_of e.now) }
    requires many { C.have_picks functions.now (env_of view.now).picks }
    ensures extends { Extends L.owns L.reads L.count g.old g.new }
    ensures made { IfOk result (λ r. ArePartsIn L.owns g.new (env_of view.now).limits r.items) }
    ensures types { IfOk result (λ r. types_of r.items
        ≡ map (type_of (scope_at (C.signatures functions.now) (env_of view.now)))
        (children (weighted_of e.now))) }
    ensures value { IfOk result (λ r.
        (vs : List Bool) (s : Locals) (m : ℕ → ℕ) (calls : Calls) (line : ℕ)
        → C.are_calls functions.now (env_of view.now).limits m calls
        → StateReads (L.reads g.old vs) (env_of view.now) s
        → PicksRead (L.reads g.old vs) (env_of view.now).picks m
        → AllReadAsPlain (L.reads g.new vs) (value_of (env_of view.now).limits calls s line) m
        r.items (children (weighted_of e.now))) }
{
    let mut made = Vec::new(alloc);
    let mut i = 0u128;
    'parts: while let Some(part) = expr_child(e, i) {
        let outcome = eval(alloc, g, part, view, functions)?;
        made.push(outcome)?;
        i += 1;
    }
    Ok(made)
}
