//! Calls of functions.

ghost use Rattle.std.specs.Prelude.{◌≡◌, ℕ, Bool, List, length, Some, IfOk, IsSome, option_map};
ghost use Rattle.std.specs.declared.result.Result.{Result};
ghost use Rattle.mpy_tree.specs.Expressions.{Calls, value_of};
ghost use Rattle.mpy_tree.specs.Values.{Locals};
ghost use Rattle.mpy_tree.specs.declared.outcome.Halted.{Halted};
ghost use Rattle.mpy_tree.specs.declared.typing.Ty.{Ty};
ghost use Rattle.mpy_tree.specs.declared.value.Value.{Value};
ghost use Rattle.bit_words.specs.Logic.{Extends};
ghost use Rattle.choice_tree.specs.WeightedTrees.{children};
ghost use Rattle.choice_tree.specs.WeightedViews.{weighted_of};
ghost use Rattle.sym_values.specs.Forms.{form_for};
ghost use Rattle.sym_values.specs.Reading.{OutcomeReads};
ghost use Rattle.sym_values.specs.Results.{IsOutcomeIn};
ghost use Rattle.sym_nodes.specs.Environments.{HasPick, IsEnvIn, PicksRead, StateReads};
ghost use Rattle.sym_nodes.specs.Operands.{ArePartsIn, PartsRead, types_of};
ghost use Rattle.sym_nodes.specs.Operands.{values_of as values_among};
ghost use Rattle.sym_nodes.specs.Plain.{AllReadAsPlain, ReadsAsPlain, root_type};
ghost use Rattle.sym_nodes.specs.Views.{env_of};
ghost use Rattle.sym_expr.specs.Giving.{call_result, function_at};
ghost use Rattle.sym_expr.specs.Signatures.{given_type, scope_at};

use crate::functions::Functions;
use bit_words::NoMemory;
use bit_words::gates::or;
use bit_words::logic::Logic;
use choice_tree::WExpr;
use mpy_tree::{Builtin, Name};
use std::alloc::Global;
use sym_nodes::nodes::node_in_view;
use sym_nodes::strict::any_fault;
use sym_nodes::view::View;
use sym_values::constant::zero_value;
use sym_values::{SymOutcome, SymValues};

/// The function of the program that is called at the root of an expression, if one is.
fn called_function(e: &WExpr) -> Option<&Name>
    ensures { option_map (λ f. f.now) result ≡ function_at (weighted_of e.now) }
{
    match e {
        WExpr::Call(f, _) => match Builtin::of(f.bytes()) {
            Some(_) => None,
            None => Some(f),
        },
        _ => None,
    }
}

/// The values of outcomes.
fn values_of<B: Copy>(alloc: Global, parts: Vec<SymOutcome<B>>) -> Result<SymValues<B>, NoMemory>
    ensures { IfOk result (λ r. r ≡ values_among parts.items) }
{
    let mut values = SymValues::new(alloc);
    for part in parts {
        values.push(part.value)?;
    }
    Ok(values)
}

/// The outcome of a call of a function from those of its arguments, whose faults come before that
/// of the function. It isn't called where an argument is known to be a fault.
fn call_outcome<L: Logic, C: Functions<L>>(
    alloc: Global,
    g: &mut L,
    view: &View<'_, L::Bit>,
    functions: &C,
    f: &Name,
    parts: Vec<SymOutcome<L::Bit>>,
) -> Result<SymOutcome<L::Bit>, NoMemory>
    requires env { IsEnvIn L.owns g.old (env_of view.now) }
    requires many { C.have_picks functions.now (env_of view.now).picks }
    requires parts { ArePartsIn L.owns g.old (env_of view.now).limits parts.items }
    requires typed { IsSome
        (given_type (C.signatures functions.now) f.now (types_of parts.items)) }
    ensures extends { Extends L.owns L.reads L.count g.old g.new }
    ensures made { IfOk result (λ r. (t : Ty)
        → given_type (C.signatures functions.now) f.now (types_of parts.items) ≡ Some t
        → IsOutcomeIn L.owns g.new (form_for (env_of view.now).limits t) r) }
    ensures value { IfOk result (λ r.
        (vs : List Bool) (m : ℕ → ℕ) (calls : Calls) (line : ℕ) (rs : List (Result Value Halted))
        → C.are_calls functions.now (env_of view.now).limits m calls
        → PicksRead (L.reads g.old vs) (env_of view.now).picks m
        → PartsRead (L.reads g.old vs) parts.items rs
        → OutcomeReads (L.reads g.new vs) r (call_result calls f.now line rs)) }
{
    let early = any_fault(g, parts.as_slice())?;
    if let Some(true) = g.known(early) {
        let value = zero_value(alloc, g, view.limits, functions.result_type(f))?;
        return Ok(SymOutcome {
            value,
            fault: early,
        });
    }
    let args = values_of(alloc, parts)?;
    let given = functions.call(alloc, g, view, f, args)?;
    let fault = or(g, early, given.fault)?;
    Ok(SymOutcome {
        value: given.value,
        fault,
    })
}

/// The outcome of a node, or of a call of a function, from those of its parts.
pub fn node_outcome<L: Logic, C: Functions<L>>(
    alloc: Global,
    g: &mut L,
    e: &WExpr,
    view: &View<'_, L::Bit>,
    functions: &C,
    parts: Vec<SymOutcome<L::Bit>>,
) -> Result<SymOutcome<L::Bit>, NoMemory>
    requires env { IsEnvIn L.owns g.old (env_of view.now) }
    requires many { C.have_picks functions.now (env_of view.now).picks }
    requires parts { ArePartsIn L.owns g.old (env_of view.now).limits parts.items }
    requires all { length parts.items ≡ length (children (weighted_of e.now)) }
    requires typed { IsSome (root_type (scope_at (C.signatures functions.now) (env_of view.now))
        (weighted_of e.now) (types_of parts.items)) }
    requires pick { HasPick (env_of view.now).picks (weighted_of e.now) }
    ensures extends { Extends L.owns L.reads L.count g.old g.new }
    ensures made { IfOk result (λ r. (t : Ty)
        → root_type (scope_at (C.signatures functions.now) (env_of view.now))
        (weighted_of e.now) (types_of parts.items) ≡ Some t
        → IsOutcomeIn L.owns g.new (form_for (env_of view.now).limits t) r) }
    ensures value { IfOk result (λ r.
        (vs : List Bool) (s : Locals) (m : ℕ → ℕ) (calls : Calls) (line : ℕ)
        → C.are_calls functions.now (env_of view.now).limits m calls
        → StateReads (L.reads g.old vs) (env_of view.now) s
        → PicksRead (L.reads g.old vs) (env_of view.now).picks m
        → AllReadAsPlain (L.reads g.old vs) (value_of (env_of view.now).limits calls s line) m
        parts.items (children (weighted_of e.now))
        → ReadsAsPlain (L.reads g.new vs) (value_of (env_of view.now).limits calls s line) m
        r (weighted_of e.now)) }
{
    match called_function(e) {
        Some(f) => {
            let given = call_outcome(alloc, g, view, functions, f, parts)?;
            Ok(given)
        }
        None => {
            let made = node_in_view(alloc, g, e, view, &parts)?;
            Ok(made)
        }
    }
}
