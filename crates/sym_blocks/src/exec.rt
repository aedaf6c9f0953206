//! The statements of a body.

ghost use Rattle.std.specs.Prelude.{◌≡◌, ◌<◌, ℕ, Bool, List, [], ◌∷◌, Option, Some, IfOk, drop};
ghost use Rattle.std.specs.Prelude.{is_some, length, option_to_list};
ghost use Rattle.mpy_tree.specs.declared.typing.Ty.{Ty};
ghost use Rattle.mpy_tree.specs.declared.value.Value.{Value};
ghost use Rattle.mpy_tree.specs.Expressions.{Calls};
ghost use Rattle.mpy_tree.specs.Statements.{for_turns, run_block, run_else};
ghost use Rattle.mpy_tree.specs.Syntax.{Block};
ghost use Rattle.mpy_tree.specs.Values.{State};
ghost use Rattle.bit_words.specs.Logic.{Extends};
ghost use Rattle.choice_tree.specs.StatementViews.{arms_before, weighted_arm, weighted_arms};
ghost use Rattle.choice_tree.specs.StatementViews.{weighted_body, weighted_else, weighted_stmt};
ghost use Rattle.choice_tree.specs.WeightedViews.{two, weighted_of};
ghost use Rattle.mpy_tree.specs.Rules.{member_of};
ghost use Rattle.list_values.specs.Sequences.{items_of};
ghost use Rattle.sym_nodes.specs.Operands.{IsTypedIn, ty_of};
ghost use Rattle.sym_nodes.specs.Environments.{AllHavePicks, HasPicks};
ghost use Rattle.sym_paths.specs.Endings.{HoldsOut, see, seen_from};
ghost use Rattle.sym_paths.specs.Items.{entering, staying};
ghost use Rattle.sym_paths.specs.Paths.{HoldsPath, HoldsPaths, gone_way, reached, way, ways};
ghost use Rattle.sym_paths.specs.Slots.{slot_forms, type_among};
ghost use Rattle.typed_trees.specs.TypedStatements.{AreTyped, IsBody, IsTyped, goes_over};
ghost use Rattle.typed_trees.specs.TypedStatements.{local_type};
ghost use Rattle.sym_blocks.specs.Bodies.{AreChosen, ArmRunsAsPlain, IsBodyIn, RunsAsPlain};
ghost use Rattle.sym_blocks.specs.Bodies.{scope_in};
ghost use Rattle.sym_blocks.specs.Runs.{IsPlainBlock, IsPlainElse, IsPlainIf};
ghost use Rattle.sym_blocks.specs.Runs.{IsPlainLoop, IsPlainStatement, run_if, run_statement};
ghost use Rattle.sym_blocks.specs.Runs.{run_for, run_while};
ghost use Rattle.sym_blocks.specs.Turns.{ItemsRead};

use crate::body::Body;
use crate::each::{Item, Over, more_items, next_item};
use crate::evaluation::{eval_on, tested};
use crate::leaves::{
    Element, Operand, exec_append, exec_assign, exec_augment, exec_augment_at, exec_print,
    exec_put, exec_return,
};
use crate::sides::add_side;
use bit_words::NoMemory;
use bit_words::logic::Logic;
use choice_tree::{WAct, WArm, WArms, WExpr, WStmt, WStmts};
use std::alloc::Global;
use sym_expr::Functions;
use sym_paths::outs::{
    add_next, add_part, no_way_out, out_broke, out_continued, out_next, take_step, take_turn,
};
use sym_paths::split::{living, narrow};
use sym_paths::{Out, Path};

/// What an arm of an `if` leaves: the ways out of its body, and the path on which its test doesn't
/// hold, which is none where it is known that this isn't taken.
#[derive(Drop)]
struct Tried<B: Copy> {
    part: Out<B>,
    other: Option<Path<B>>,
}

/// What a body does from where a path leads.
pub fn exec_block<L: Logic, C: Functions<L>>(
    alloc: Global,
    g: &mut L,
    run: &Body<'_, L::Bit, C>,
    path: Path<L::Bit>,
    body: &WStmts,
) -> Result<Out<L::Bit>, NoMemory>
    requires run { IsBodyIn L.owns (C.have_picks run.now.functions.now) g.old run.now }
    requires path { HoldsPath L.owns g.old (slot_forms run.now.slots.now) path }
    requires typed { IsTyped (scope_in (C.signatures run.now.functions.now) run.now)
        (weighted_body body.now) }
    requires picks { HasPicks run.now.picks.now (weighted_body body.now) }
    ensures extends { Extends L.owns L.reads L.count g.old g.new }
    ensures held { IfOk result (λ r. HoldsOut L.owns g.new run.now.slots.now r) }
    ensures value { IfOk result (λ r.
        RunsAsPlain L.reads (C.are_calls run.now.functions.now) g.old g.new run.now
        (path ∷ []) r (IsPlainBlock (weighted_body body.now)) run_block) }
{
    let side = living(g, run.slots, path);
    let out = exec_side(alloc, g, run, side, body)?;
    Ok(out)
}

/// The same where it may be known that the path isn't taken.
#[cycle(exec)]
fn exec_side<L: Logic, C: Functions<L>>(
    alloc: Global,
    g: &mut L,
    run: &Body<'_, L::Bit, C>,
    path: Option<Path<L::Bit>>,
    body: &WStmts,
) -> Result<Out<L::Bit>, NoMemory>
    requires run { IsBodyIn L.owns (C.have_picks run.now.functions.now) g.old run.now }
    requires path { HoldsPaths L.owns g.old (slot_forms run.now.slots.now)
        (option_to_list path) }
    requires typed { IsTyped (scope_in (C.signatures run.now.functions.now) run.now)
        (weighted_body body.now) }
    requires picks { HasPicks run.now.picks.now (weighted_body body.now) }
    ensures extends { Extends L.owns L.reads L.count g.old g.new }
    ensures held { IfOk result (λ r. HoldsOut L.owns g.new run.now.slots.now r) }
    ensures value { IfOk result (λ r.
        RunsAsPlain L.reads (C.are_calls run.now.functions.now) g.old g.new run.now
        (option_to_list path) r (IsPlainBlock (weighted_body body.now)) run_block) }
{
    match path {
        None => Ok(no_way_out(alloc, g, run.slots)),
        Some(here) => {
            let out = exec_live(alloc, g, run, here, body)?;
            Ok(out)
        }
    }
}

/// What the statements of a body do, one after another. Those after which no path leads on end it.
#[cycle(exec)]
fn exec_live<L: Logic, C: Functions<L>>(
    alloc: Global,
    g: &mut L,
    run: &Body<'_, L::Bit, C>,
    path: Path<L::Bit>,
    body: &WStmts,
) -> Result<Out<L::Bit>, NoMemory>
    requires run { IsBodyIn L.owns (C.have_picks run.now.functions.now) g.old run.now }
    requires path { HoldsPath L.owns g.old (slot_forms run.now.slots.now) path }
    requires typed { IsTyped (scope_in (C.signatures run.now.functions.now) run.now)
        (weighted_body body.now) }
    requires picks { HasPicks run.now.picks.now (weighted_body body.now) }
    ensures extends { Extends L.owns L.reads L.count g.old g.new }
    ensures held { IfOk result (λ r. HoldsOut L.owns g.new run.now.slots.now r) }
    ensures value { IfOk result (λ r.
        RunsAsPlain L.reads (C.are_calls run.now.functions.now) g.old g.new run.now
        (path ∷ []) r (IsPlainBlock (weighted_body body.now)) run_block) }
{
    let mut out = no_way_out(alloc, g, run.slots);
    let mut here = path;
    for s in &body.items {
        let step = exec_stmt(alloc, g, run, here, s)?;
        match take_step(alloc, g, run.slots, &mut out, step)? {
            None => return Ok(out),
            Some(on) => here = on,
        }
    }
    add_next(g, run.slots, &mut out, here)?;
    Ok(out)
}

/// What a statement does.
#[cycle(exec)]
fn exec_stmt<L: Logic, C: Functions<L>>(
    alloc: Global,
    g: &mut L,
    run: &Body<'_, L::Bit, C>,
    path: Path<L::Bit>,
    s: &WStmt,
) -> Result<Out<L::Bit>, NoMemory>
    requires run { IsBodyIn L.owns (C.have_picks run.now.functions.now) g.old run.now }
    requires path { HoldsPath L.owns g.old (slot_forms run.now.slots.now) path }
    requires typed { IsTyped (scope_in (C.signatures run.now.functions.now) run.now)
        (weighted_stmt s.now) }
    requires picks { HasPicks run.now.picks.now (weighted_stmt s.now) }
    ensures extends { Extends L.owns L.reads L.count g.old g.new }
    ensures held { IfOk result (λ r. HoldsOut L.owns g.new run.now.slots.now r) }
    ensures value { IfOk result (λ r.
        RunsAsPlain L.reads (C.are_calls run.now.functions.now) g.old g.new run.now
        (path ∷ []) r (IsPlainStatement (weighted_stmt s.now)) run_statement) }
{
    match &s.act {
        WAct::Assign(x, e) => {
            let out = exec_assign(alloc, g, run, path, x, e)?;
            Ok(out)
        }
        WAct::Augment(x, op, e) => {
            let by = Operand { op: *op, value: e };
            let out = exec_augment(alloc, g, run, path, x, by)?;
            Ok(out)
        }
        WAct::Put(x, i, e) => {
            let at = Element { name: x, place: i };
            let out = exec_put(alloc, g, run, path, at, e)?;
            Ok(out)
        }
        WAct::AugmentAt(x, i, op, e) => {
            let at = Element { name: x, place: i };
            let by = Operand { op: *op, value: e };
            let out = exec_augment_at(alloc, g, run, path, at, by)?;
            Ok(out)
        }
        WAct::Append(x, e) => {
            let out = exec_append(alloc, g, run, path, x, e)?;
            Ok(out)
        }
        WAct::Print(e) => {
            let out = exec_print(alloc, g, run, path, e)?;
            Ok(out)
        }
        WAct::Return(e) => {
            let out = exec_return(alloc, g, run, path, e)?;
            Ok(out)
        }
        WAct::Pass => {
            let out = out_next(alloc, g, run.slots, path)?;
            Ok(out)
        }
        WAct::Break => {
            let out = out_broke(alloc, g, run.slots, path)?;
            Ok(out)
        }
        WAct::Continue => {
            let out = out_continued(alloc, g, run.slots, path)?;
            Ok(out)
        }
        WAct::If(arms, last) => {
            let out = exec_if(alloc, g, run, path, arms, last)?;
            Ok(out)
        }
        WAct::While(e, body) => {
            let out = exec_while(alloc, g, run, path, e, body)?;
            Ok(out)
        }
        WAct::For(x, e, body) => {
            let each = Element { name: x, place: e };
            let out = exec_for(alloc, g, run, path, each, body)?;
            Ok(out)
        }
    }
}

/// An `if`: the arms in order, and then what follows where no test holds.
#[cycle(exec)]
fn exec_if<L: Logic, C: Functions<L>>(
    alloc: Global,
    g: &mut L,
    run: &Body<'_, L::Bit, C>,
    path: Path<L::Bit>,
    arms: &WArms,
    last: &Option<WStmts>,
) -> Result<Out<L::Bit>, NoMemory>
    requires run { IsBodyIn L.owns (C.have_picks run.now.functions.now) g.old run.now }
    requires path { HoldsPath L.owns g.old (slot_forms run.now.slots.now) path }
    requires typed { AreTyped (scope_in (C.signatures run.now.functions.now) run.now)
        (arms_before (weighted_arms arms.now) (weighted_else last.now)) }
    requires picks { AllHavePicks run.now.picks.now
        (arms_before (weighted_arms arms.now) (weighted_else last.now)) }
    ensures extends { Extends L.owns L.reads L.count g.old g.new }
    ensures held { IfOk result (λ r. HoldsOut L.owns g.new run.now.slots.now r) }
    ensures value { IfOk result (λ r.
        RunsAsPlain L.reads (C.are_calls run.now.functions.now) g.old g.new run.now
        (path ∷ []) r (IsPlainIf (weighted_arms arms.now) (weighted_else last.now)) run_if) }
{
    let mut out = no_way_out(alloc, g, run.slots);
    let mut here = path;
    for arm in &arms.items {
        let tried = exec_arm(alloc, g, run, here, arm)?;
        let other = tried.other;
        add_part(g, run.slots, &mut out, tried.part)?;
        match other {
            None => return Ok(out),
            Some(next) => here = next,
        }
    }
    let part = exec_else(alloc, g, run, here, last)?;
    add_part(g, run.slots, &mut out, part)?;
    Ok(out)
}

/// One arm. Its body isn't walked where it is known that the test doesn't hold.
#[cycle(exec)]
fn exec_arm<L: Logic, C: Functions<L>>(
    alloc: Global,
    g: &mut L,
    run: &Body<'_, L::Bit, C>,
    path: Path<L::Bit>,
    arm: &WArm,
) -> Result<Tried<L::Bit>, NoMemory>
    requires run { IsBodyIn L.owns (C.have_picks run.now.functions.now) g.old run.now }
    requires path { HoldsPath L.owns g.old (slot_forms run.now.slots.now) path }
    requires typed { IsTyped (scope_in (C.signatures run.now.functions.now) run.now)
        (weighted_arm arm.now) }
    requires picks { HasPicks run.now.picks.now (weighted_arm arm.now) }
    ensures extends { Extends L.owns L.reads L.count g.old g.new }
    ensures held { IfOk result (λ r. HoldsOut L.owns g.new run.now.slots.now r.part) }
    ensures other { IfOk result (λ r.
        HoldsPaths L.owns g.new (slot_forms run.now.slots.now) (option_to_list r.other)) }
    ensures value { IfOk result (λ r.
        ArmRunsAsPlain L.reads (C.are_calls run.now.functions.now) g.old g.new run.now path
        r.part (option_to_list r.other) (weighted_arm arm.now)) }
{
    let sides = tested(alloc, g, run, path, &arm.test)?;
    let part = exec_side(alloc, g, run, sides.yes, &arm.body)?;
    Ok(Tried {
        part,
        other: sides.no,
    })
}

/// What follows where no test of an `if` holds.
#[cycle(exec)]
fn exec_else<L: Logic, C: Functions<L>>(
    alloc: Global,
    g: &mut L,
    run: &Body<'_, L::Bit, C>,
    path: Path<L::Bit>,
    last: &Option<WStmts>,
) -> Result<Out<L::Bit>, NoMemory>
    requires run { IsBodyIn L.owns (C.have_picks run.now.functions.now) g.old run.now }
    requires path { HoldsPath L.owns g.old (slot_forms run.now.slots.now) path }
    requires typed { AreTyped (scope_in (C.signatures run.now.functions.now) run.now)
        (weighted_else last.now) }
    requires picks { AllHavePicks run.now.picks.now (weighted_else last.now) }
    ensures extends { Extends L.owns L.reads L.count g.old g.new }
    ensures held { IfOk result (λ r. HoldsOut L.owns g.new run.now.slots.now r) }
    ensures value { IfOk result (λ r.
        RunsAsPlain L.reads (C.are_calls run.now.functions.now) g.old g.new run.now
        (path ∷ []) r (IsPlainElse (weighted_else last.now)) run_else) }
{
    match last {
        None => {
            let out = out_next(alloc, g, run.slots, path)?;
            Ok(out)
        }
        Some(body) => {
            let out = exec_live(alloc, g, run, path, body)?;
            Ok(out)
        }
    }
}

/// A `while`. The paths that leave it are kept apart to its end.
#[cycle(exec)]
fn exec_while<L: Logic, C: Functions<L>>(
    alloc: Global,
    g: &mut L,
    run: &Body<'_, L::Bit, C>,
    path: Path<L::Bit>,
    e: &WExpr,
    body: &WStmts,
) -> Result<Out<L::Bit>, NoMemory>
    requires run { IsBodyIn L.owns (C.have_picks run.now.functions.now) g.old run.now }
    requires path { HoldsPath L.owns g.old (slot_forms run.now.slots.now) path }
    requires typed { IsBody (scope_in (C.signatures run.now.functions.now) run.now) is_some
        (two (weighted_of e.now) (weighted_body body.now)) }
    requires picks { AllHavePicks run.now.picks.now
        (two (weighted_of e.now) (weighted_body body.now)) }
    ensures extends { Extends L.owns L.reads L.count g.old g.new }
    ensures held { IfOk result (λ r. HoldsOut L.owns g.new run.now.slots.now r) }
    ensures value { IfOk result (λ r.
        (line : ℕ) → RunsAsPlain L.reads (C.are_calls run.now.functions.now) g.old g.new run.now
        (path ∷ []) r (IsPlainLoop (weighted_of e.now) (weighted_body body.now)) (run_while line)) }
{
    let mut out = no_way_out(alloc, g, run.slots);
    let mut here = path;
    let mut left = run.slots.limits.turns;
    'turns: loop {
        let sides = tested(alloc, g, run, here, e)?;
        add_side(g, run.slots, &mut out, sides.no)?;
        if left == 0 {
            return Ok(out);
        }
        let turn = exec_side(alloc, g, run, sides.yes, body)?;
        match take_turn(alloc, g, run.slots, &mut out, turn)? {
            None => return Ok(out),
            Some(on) => here = on,
        }
        left -= 1;
    }
}

/// A `for`: its items, where what it goes over has no fault.
#[cycle(exec)]
fn exec_for<L: Logic, C: Functions<L>>(
    alloc: Global,
    g: &mut L,
    run: &Body<'_, L::Bit, C>,
    path: Path<L::Bit>,
    each: Element<'_>,
    body: &WStmts,
) -> Result<Out<L::Bit>, NoMemory>
    requires run { IsBodyIn L.owns (C.have_picks run.now.functions.now) g.old run.now }
    requires path { HoldsPath L.owns g.old (slot_forms run.now.slots.now) path }
    requires typed { IsBody (scope_in (C.signatures run.now.functions.now) run.now)
        (goes_over (local_type (scope_in (C.signatures run.now.functions.now) run.now)
        each.name.now))
        (two (weighted_of each.place.now) (weighted_body body.now)) }
    requires picks { AllHavePicks run.now.picks.now
        (two (weighted_of each.place.now) (weighted_body body.now)) }
    ensures extends { Extends L.owns L.reads L.count g.old g.new }
    ensures held { IfOk result (λ r. HoldsOut L.owns g.new run.now.slots.now r) }
    ensures value { IfOk result (λ r.
        (line : ℕ) → RunsAsPlain L.reads (C.are_calls run.now.functions.now) g.old g.new run.now
        (path ∷ []) r (IsPlainLoop (weighted_of each.entry.place.now) (weighted_body body.now))
        (run_for line each.entry.name.now)) }
{
    let list = eval_on(alloc, g, run, &path, each.place)?;
    let fine = g.not(list.fault);
    let here = narrow(g, run.slots, path, fine)?;
    let over = Over {
        name: each.name,
        list: &list.value,
    };
    let out = exec_items(alloc, g, run, here, over, body)?;
    Ok(out)
}

/// A turn for each item in order. The paths that leave the loop are kept apart to its end.
#[cycle(exec)]
fn exec_items<L: Logic, C: Functions<L>>(
    alloc: Global,
    g: &mut L,
    run: &Body<'_, L::Bit, C>,
    path: Path<L::Bit>,
    over: Over<'_, L::Bit>,
    body: &WStmts,
) -> Result<Out<L::Bit>, NoMemory>
    requires run { IsBodyIn L.owns (C.have_picks run.now.functions.now) g.old run.now }
    requires path { HoldsPath L.owns g.old (slot_forms run.now.slots.now) path }
    requires list { IsTypedIn L.owns g.old run.now.slots.now.limits over.list.now }
    requires item { (t : Ty)
        × (type_among run.now.slots.now.names run.now.slots.now.types over.name.now ≡ Some t)
        × (member_of (ty_of over.list.now) ≡ Some t) }
    requires typed { IsTyped (scope_in (C.signatures run.now.functions.now) run.now)
        (weighted_body body.now) }
    requires picks { HasPicks run.now.picks.now (weighted_body body.now) }
    ensures extends { Extends L.owns L.reads L.count g.old g.new }
    ensures held { IfOk result (λ r. HoldsOut L.owns g.new run.now.slots.now r) }
    ensures value { IfOk result (λ r.
        (vs : List Bool) (m : ℕ → ℕ) (calls : Calls) (o : Option State) (b : Block)
        (ms : List Value) (line : ℕ)
        → AreChosen L.reads (C.are_calls run.now.functions.now) g.old vs run.now m calls
        → gone_way run.now.slots.now (way (L.reads g.old vs) path ∷ []) ≡ reached o
        → ItemsRead (L.reads g.old vs) over.entry.list.now o ms
        → IsPlainBlock (weighted_body body.now) m b
        → see (L.reads g.new vs) run.now.slots.now r
        ≡ seen_from o (for_turns ms run.now.slots.now.limits.turns over.entry.name.now
        (run_block run.now.slots.now.limits calls b) line)) }
{
    let mut out = no_way_out(alloc, g, run.slots);
    let mut here = path;
    let mut turns = run.slots.limits.turns;
    let mut place = 0usize;
    'items: loop {
        if place == run.slots.limits.cap as usize {
            add_next(g, run.slots, &mut out, here)?;
            return Ok(out);
        }
        let sides = more_items(g, run.slots, here, over.list, place)?;
        add_side(g, run.slots, &mut out, sides.no)?;
        if turns == 0 {
            return Ok(out);
        }
        let item = Item {
            name: over.name,
            list: over.list,
            place,
        };
        let round = exec_item(alloc, g, run, sides.yes, item, body)?;
        match take_turn(alloc, g, run.slots, &mut out, round)? {
            None => return Ok(out),
            Some(on) => here = on,
        }
        turns -= 1;
        place += 1;
    }
}

/// One turn, where there may be an item.
#[cycle(exec)]
fn exec_item<L: Logic, C: Functions<L>>(
    alloc: Global,
    g: &mut L,
    run: &Body<'_, L::Bit, C>,
    path: Option<Path<L::Bit>>,
    item: Item<'_, L::Bit>,
    body: &WStmts,
) -> Result<Out<L::Bit>, NoMemory>
    requires run { IsBodyIn L.owns (C.have_picks run.now.functions.now) g.old run.now }
    requires path { HoldsPaths L.owns g.old (slot_forms run.now.slots.now)
        (option_to_list path) }
    requires list { IsTypedIn L.owns g.old run.now.slots.now.limits item.list.now }
    requires item { (t : Ty)
        × (type_among run.now.slots.now.names run.now.slots.now.types item.name.now ≡ Some t)
        × (member_of (ty_of item.list.now) ≡ Some t) }
    requires place { item.place < length (items_of item.list.now) }
    requires typed { IsTyped (scope_in (C.signatures run.now.functions.now) run.now)
        (weighted_body body.now) }
    requires picks { HasPicks run.now.picks.now (weighted_body body.now) }
    ensures extends { Extends L.owns L.reads L.count g.old g.new }
    ensures held { IfOk result (λ r. HoldsOut L.owns g.new run.now.slots.now r) }
    ensures value { IfOk result (λ r.
        (vs : List Bool) (m : ℕ → ℕ) (calls : Calls) (o : Option State) (b : Block)
        (ms : List Value)
        → AreChosen L.reads (C.are_calls run.now.functions.now) g.old vs run.now m calls
        → gone_way run.now.slots.now (ways (L.reads g.old vs) (option_to_list path))
        ≡ reached (staying o (drop item.entry.place ms))
        → ItemsRead (L.reads g.old vs) item.entry.list.now o ms
        → IsPlainBlock (weighted_body body.now) m b
        → see (L.reads g.new vs) run.now.slots.now r
        ≡ seen_from (entering o item.entry.name.now (drop item.entry.place ms))
        (run_block run.now.slots.now.limits calls b)) }
{
    match path {
        None => Ok(no_way_out(alloc, g, run.slots)),
        Some(here) => {
            let there = next_item(alloc, g, run.slots, here, &item)?;
            let out = exec_live(alloc, g, run, there, body)?;
            Ok(out)
        }
    }
}
