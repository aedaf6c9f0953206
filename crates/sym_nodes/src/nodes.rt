//! The outcome of a node, from those of its parts.

ghost use Rattle.std.specs.Prelude.{◌≡◌, ℕ, Bool, List, length, Some, IfOk, IsSome};
ghost use Rattle.std.specs.declared.result.Result.{Result};
ghost use Rattle.mpy_tree.specs.Expressions.{Calls, value_of};
ghost use Rattle.mpy_tree.specs.Values.{Locals};
ghost use Rattle.mpy_tree.specs.declared.outcome.Halted.{Halted};
ghost use Rattle.mpy_tree.specs.declared.typing.Ty.{Ty};
ghost use Rattle.mpy_tree.specs.declared.value.Value.{Value};
ghost use Rattle.bit_words.specs.Logic.{Extends};
ghost use Rattle.choice_tree.specs.Heads.{HasParts, head_kind};
ghost use Rattle.choice_tree.specs.Typing.{node_type};
ghost use Rattle.choice_tree.specs.WeightedTrees.{children};
ghost use Rattle.choice_tree.specs.WeightedViews.{weighted_of};
ghost use Rattle.sym_values.specs.Forms.{form_for};
ghost use Rattle.sym_values.specs.Reading.{OutcomeReads};
ghost use Rattle.sym_values.specs.Results.{IsOutcomeIn};
ghost use Rattle.sym_nodes.specs.Environments.{HasPick, IsEnvIn, PicksRead, StateReads, scope_of};
ghost use Rattle.sym_nodes.specs.Nodes.{node_result};
ghost use Rattle.sym_nodes.specs.Operands.{ArePartsIn, PartsRead, types_of};
ghost use Rattle.sym_nodes.specs.Plain.{AllReadAsPlain, ReadsAsPlain, root_type};
ghost use Rattle.sym_nodes.specs.Roots.{IsRootOf};
ghost use Rattle.sym_nodes.specs.Views.{env_of};

use crate::choices::chosen_outcome;
use crate::locals::local;
use crate::operands::{three_parts, two_parts};
use crate::shortcuts::{and_outcome, cond_outcome, or_outcome};
use crate::strict::strict_outcome;
use crate::view::View;
use bit_words::NoMemory;
use bit_words::logic::Logic;
use choice_tree::{Head, WExpr};
use std::alloc::Global;
use sym_values::SymOutcome;

/// What stands at the root of a weighted expression: a node, its parts aside, or a pick of a
/// number.
enum Root<'a> {
    Node(Head<'a>),
    Pick(u32),
}

/// What stands at the root of a weighted expression.
fn root_of(e: &WExpr) -> Root<'_>
    ensures { IsRootOf result (weighted_of e.now) }
{
    match e {
        WExpr::Int(n) => Root::Node(Head::Int(*n)),
        WExpr::Bool(b) => Root::Node(Head::Bool(*b)),
        WExpr::Text(t) => Root::Node(Head::Text(t)),
        WExpr::Name(x) => Root::Node(Head::Name(x)),
        WExpr::List(_) => Root::Node(Head::List),
        WExpr::Neg(_) => Root::Node(Head::Neg),
        WExpr::Not(_) => Root::Node(Head::Not),
        WExpr::Arith(op, _, _) => Root::Node(Head::Arith(*op)),
        WExpr::Cmp(op, _, _) => Root::Node(Head::Cmp(*op)),
        WExpr::And(_, _) => Root::Node(Head::And),
        WExpr::Or(_, _) => Root::Node(Head::Or),
        WExpr::Cond { .. } => Root::Node(Head::Cond),
        WExpr::Index(_, _) => Root::Node(Head::Index),
        WExpr::Slice(_, from, to) => Root::Node(Head::Slice(from.is_some(), to.is_some())),
        WExpr::Call(f, _) => Root::Node(Head::Call(f)),
        WExpr::Pick { number, .. } => Root::Pick(*number),
    }
}

/// The outcome of a node that is no pick.
fn head_outcome<L: Logic>(
    alloc: Global,
    g: &mut L,
    head: Head<'_>,
    view: &View<'_, L::Bit>,
    parts: &[SymOutcome<L::Bit>],
) -> Result<SymOutcome<L::Bit>, NoMemory>
    requires env { IsEnvIn L.owns g.old (env_of view.now) }
    requires parts { ArePartsIn L.owns g.old (env_of view.now).limits parts.now }
    requires many { HasParts (head_kind head) (length parts.now) }
    requires typed { IsSome
        (node_type (scope_of (env_of view.now)) (head_kind head) (types_of parts.now)) }
    ensures extends { Extends L.owns L.reads L.count g.old g.new }
    ensures made { IfOk result (λ r. (t : Ty)
        → node_type (scope_of (env_of view.now)) (head_kind head.entry) (types_of parts.now)
        ≡ Some t
        → IsOutcomeIn L.owns g.new (form_for (env_of view.now).limits t) r) }
    ensures value { IfOk result (λ r.
        (vs : List Bool) (s : Locals) (calls : Calls) (line : ℕ) (rs : List (Result Value Halted))
        → StateReads (L.reads g.old vs) (env_of view.now) s
        → PartsRead (L.reads g.old vs) parts.now rs
        → OutcomeReads (L.reads g.new vs) r
        (node_result (env_of view.now).limits calls s line (head_kind head.entry) rs)) }
{
    match head {
        Head::Name(x) => {
            let value = local(g, view, x)?;
            Ok(value)
        }
        Head::And => {
            let two = two_parts(parts);
            let truth = and_outcome(g, two.first, two.second)?;
            Ok(truth)
        }
        Head::Or => {
            let two = two_parts(parts);
            let truth = or_outcome(g, two.first, two.second)?;
            Ok(truth)
        }
        Head::Cond => {
            let three = three_parts(parts);
            let chosen = cond_outcome(alloc, g, three.second, three.first, three.third)?;
            Ok(chosen)
        }
        _ => {
            let given = strict_outcome(alloc, g, view.limits, head, parts)?;
            Ok(given)
        }
    }
}

/// The outcome of a node from those of its parts, which stand in the order in which they are
/// written; of a pick, from those of its base and of its other members.
pub fn node_in_view<L: Logic>(
    alloc: Global,
    g: &mut L,
    e: &WExpr,
    view: &View<'_, L::Bit>,
    parts: &Vec<SymOutcome<L::Bit>>,
) -> Result<SymOutcome<L::Bit>, NoMemory>
    requires env { IsEnvIn L.owns g.old (env_of view.now) }
    requires parts { ArePartsIn L.owns g.old (env_of view.now).limits parts.now.items }
    requires many { length parts.now.items ≡ length (children (weighted_of e.now)) }
    requires typed { IsSome
        (root_type (scope_of (env_of view.now)) (weighted_of e.now) (types_of parts.now.items)) }
    requires pick { HasPick (env_of view.now).picks (weighted_of e.now) }
    ensures extends { Extends L.owns L.reads L.count g.old g.new }
    ensures made { IfOk result (λ r. (t : Ty)
        → root_type (scope_of (env_of view.now)) (weighted_of e.now) (types_of parts.now.items)
        ≡ Some t
        → IsOutcomeIn L.owns g.new (form_for (env_of view.now).limits t) r) }
    ensures value { IfOk result (λ r.
        (vs : List Bool) (s : Locals) (m : ℕ → ℕ) (calls : Calls) (line : ℕ)
        → StateReads (L.reads g.old vs) (env_of view.now) s
        → PicksRead (L.reads g.old vs) (env_of view.now).picks m
        → AllReadAsPlain (L.reads g.old vs) (value_of (env_of view.now).limits calls s line) m
        parts.now.items (children (weighted_of e.now))
        → ReadsAsPlain (L.reads g.new vs) (value_of (env_of view.now).limits calls s line) m
        r (weighted_of e.now)) }
{
    match root_of(e) {
        Root::Node(head) => {
            let outcome = head_outcome(alloc, g, head, view, parts.as_slice())?;
            Ok(outcome)
        }
        Root::Pick(number) => {
            let member = view.picks.at(number as usize);
            let outcome = chosen_outcome(alloc, g, view.limits, member, parts.as_slice())?;
            Ok(outcome)
        }
    }
}
