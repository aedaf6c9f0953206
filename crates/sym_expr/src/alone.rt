//! Expressions that call no function of a program.

ghost use Rattle.std.specs.Prelude.{◌≡◌, ℕ, Bool, List, length, Some, IfOk, IsSome};
ghost use Rattle.mpy_tree.specs.Expressions.{Calls, value_of};
ghost use Rattle.mpy_tree.specs.Values.{Locals};
ghost use Rattle.mpy_tree.specs.declared.typing.Ty.{Ty as AnyType};
ghost use Rattle.bit_words.specs.Logic.{Extends};
ghost use Rattle.choice_tree.specs.WeightedTrees.{children};
ghost use Rattle.choice_tree.specs.WeightedViews.{weighted_of};
ghost use Rattle.sym_values.specs.Forms.{form_for};
ghost use Rattle.sym_values.specs.Results.{IsOutcomeIn};
ghost use Rattle.sym_nodes.specs.Environments.{HasPick, HasPicks, IsEnvIn, PicksRead};
ghost use Rattle.sym_nodes.specs.Environments.{StateReads, scope_of};
ghost use Rattle.sym_nodes.specs.Operands.{ArePartsIn, types_of};
ghost use Rattle.sym_nodes.specs.Plain.{AllReadAsPlain, ReadsAsPlain, root_type, type_of};

use crate::bodiless::Bodiless;
use crate::walk::eval;
use bit_words::NoMemory;
use bit_words::logic::Logic;
use choice_tree::WExpr;
use mpy_tree::Ty;
use std::alloc::Global;
use sym_nodes::env::Env;
use sym_nodes::nodes;
use sym_nodes::view::view_of;
use sym_values::SymOutcome;

/// The outcome of an expression that calls no function of the program.
pub fn sym_expr<L: Logic>(
    alloc: Global,
    g: &mut L,
    e: &WExpr,
    env: &Env<L::Bit>,
) -> Result<SymOutcome<L::Bit>, NoMemory>
    requires env { IsEnvIn L.owns g.old env.now }
    requires typed { IsSome (type_of (scope_of env.now) (weighted_of e.now)) }
    requires picks { HasPicks env.now.picks (weighted_of e.now) }
    ensures extends { Extends L.owns L.reads L.count g.old g.new }
    ensures made { IfOk result (λ r. (t : AnyType)
        → type_of (scope_of env.now) (weighted_of e.now) ≡ Some t
        → IsOutcomeIn L.owns g.new (form_for env.now.limits t) r) }
    ensures value { IfOk result (λ r.
        (vs : List Bool) (s : Locals) (m : ℕ → ℕ) (calls : Calls) (line : ℕ)
        → StateReads (L.reads g.old vs) env.now s → PicksRead (L.reads g.old vs) env.now.picks m
        → ReadsAsPlain (L.reads g.new vs) (value_of env.now.limits calls s line) m r
        (weighted_of e.now)) }
{
    let none = Bodiless {
        name: None,
        gives: Ty::Bool,
    };
    let view = view_of(env);
    let outcome = eval(alloc, g, e, &view, &none)?;
    Ok(outcome)
}

/// The outcome of a node that is no call of a function of the program, from those of its parts,
/// which stand in the order in which they are written; of a pick, from those of its base and of its
/// other members.
pub fn sym_node<L: Logic>(
    alloc: Global,
    g: &mut L,
    e: &WExpr,
    env: &Env<L::Bit>,
    parts: &Vec<SymOutcome<L::Bit>>,
) -> Result<SymOutcome<L::Bit>, NoMemory>
    requires env { IsEnvIn L.owns g.old env.now }
    requires parts { ArePartsIn L.owns g.old env.now.limits parts.now.items }
    requires many { length parts.now.items ≡ length (children (weighted_of e.now)) }
    requires typed { IsSome
        (root_type (scope_of env.now) (weighted_of e.now) (types_of parts.now.items)) }
    requires pick { HasPick env.now.picks (weighted_of e.now) }
    ensures extends { Extends L.owns L.reads L.count g.old g.new }
    ensures made { IfOk result (λ r. (t : AnyType)
        → root_type (scope_of env.now) (weighted_of e.now) (types_of parts.now.items) ≡ Some t
        → IsOutcomeIn L.owns g.new (form_for env.now.limits t) r) }
    ensures value { IfOk result (λ r.
        (vs : List Bool) (s : Locals) (m : ℕ → ℕ) (calls : Calls) (line : ℕ)
        → StateReads (L.reads g.old vs) env.now s → PicksRead (L.reads g.old vs) env.now.picks m
        → AllReadAsPlain (L.reads g.old vs) (value_of env.now.limits calls s line) m
        parts.now.items (children (weighted_of e.now))
        → ReadsAsPlain (L.reads g.new vs) (value_of env.now.limits calls s line) m r
        (weighted_of e.now)) }
{
    let view = view_of(env);
    let outcome = nodes::node_in_view(alloc, g, e, &view, parts)?;
    Ok(outcome)
}
