//! Functions that expressions call.

ghost use Rattle.std.specs.Prelude.{◌≡◌, ℕ, Bool, List, map, Some, IfOk, IsSome};
ghost use Rattle.mpy_tree.specs.Expressions.{Calls};
ghost use Rattle.mpy_tree.specs.declared.limits.Limits.{Limits as Bounds};
ghost use Rattle.mpy_tree.specs.declared.typing.Ty.{Ty as AnyType};
ghost use Rattle.mpy_tree.specs.declared.value.Value.{Value};
ghost use Rattle.bit_words.specs.Logic.{Extends, OwnsAll};
ghost use Rattle.sym_values.specs.Forms.{form_for, joined};
ghost use Rattle.sym_values.specs.Reading.{OutcomeReads, read, sure};
ghost use Rattle.sym_values.specs.Results.{IsOutcomeIn};
ghost use Rattle.sym_nodes.specs.Environments.{PicksRead};
ghost use Rattle.sym_nodes.specs.Views.{env_of};
ghost use Rattle.sym_expr.specs.Signatures.{AreArgumentsIn, Signatures, given_type};
ghost use Rattle.sym_expr.specs.Signatures.{result_type, value_types};

use bit_words::NoMemory;
use bit_words::logic::Logic;
use mpy_tree::{Name, Ty};
use std::alloc::Global;
use sym_nodes::View;
use sym_values::{SymOutcome, SymValues};

/// The functions of a program as bits: what a call of one gives.
pub trait Functions<L: Logic> {
    /// The functions that may be called, with the types of their slots.
    ghost signatures: { Self → Signatures };

    /// Which calls they are at given limits, where members of picks are chosen.
    ghost are_calls: { Self → Bounds → (ℕ → ℕ) → Calls → Type 0 };

    /// Whether the picks that their bodies need are among these.
    ghost have_picks: { Self → List (List L.Bit) → Type 0 };

    /// The type of what a function gives, by its name.
    fn result_type(&self, f: &Name) -> Ty
        requires { IsSome (result_type (signatures self.now) f.now) }
        ensures { result_type (signatures self.now) f.now ≡ Some result };

    /// The outcome of a call of a function, by its name.
    fn call(
        &self,
        alloc: Global,
        g: &mut L,
        view: &View<'_, L::Bit>,
        f: &Name,
        args: SymValues<L::Bit>,
    ) -> Result<SymOutcome<L::Bit>, NoMemory>
        requires picks { OwnsAll L.owns g.old (joined (env_of view.now).picks) }
        requires many { have_picks self.now (env_of view.now).picks }
        requires args { AreArgumentsIn L.owns g.old (env_of view.now).limits args }
        requires typed { IsSome (given_type (signatures self.now) f.now (value_types args)) }
        ensures extends { Extends L.owns L.reads L.count g.old g.new }
        ensures made { IfOk result (λ r. (t : AnyType)
            → given_type (signatures self.now) f.now (value_types args) ≡ Some t
            → IsOutcomeIn L.owns g.new (form_for (env_of view.now).limits t) r) }
        ensures value { IfOk result (λ r.
            (vs : List Bool) (m : ℕ → ℕ) (calls : Calls) (values : List Value) (line : ℕ)
            → are_calls self.now (env_of view.now).limits m calls
            → PicksRead (L.reads g.old vs) (env_of view.now).picks m
            → map (read (L.reads g.old vs)) args ≡ map sure values
            → OutcomeReads (L.reads g.new vs) r (calls f.now values line)) };
}
