//! A function without a body.

ghost use Rattle.std.specs.Prelude.{◌≡◌, ⊤, ℕ, Bool, List, map, Some, IfOk, IsSome};
ghost use Rattle.mpy_tree.specs.Expressions.{Calls};
ghost use Rattle.mpy_tree.specs.declared.typing.Ty.{Ty as AnyType};
ghost use Rattle.mpy_tree.specs.declared.value.Value.{Value};
ghost use Rattle.bit_words.specs.Logic.{Extends, OwnsAll};
ghost use Rattle.sym_values.specs.Forms.{form_for, joined};
ghost use Rattle.sym_values.specs.Reading.{OutcomeReads, read, sure};
ghost use Rattle.sym_values.specs.Results.{IsOutcomeIn};
ghost use Rattle.sym_nodes.specs.Environments.{PicksRead};
ghost use Rattle.sym_nodes.specs.Views.{env_of};
ghost use Rattle.sym_expr.specs.Bodiless.{AreFaults, bodiless_signatures};
ghost use Rattle.sym_expr.specs.Signatures.{AreArgumentsIn, given_type, value_types};

use crate::functions::Functions;
use bit_words::NoMemory;
use bit_words::logic::Logic;
use mpy_tree::{Name, Ty};
use std::alloc::Global;
use sym_nodes::view::View;
use sym_values::constant::zero_value;
use sym_values::{SymOutcome, SymValues};

/// A function of which only the name and the type of what it gives are known, or none. A call of
/// it is a fault.
#[derive(Drop)]
pub struct Bodiless {
    pub name: Option<Name>,
    pub gives: Ty,
}

impl<L: Logic> Functions<L> for Bodiless {
    ghost signatures = { bodiless_signatures };

    ghost are_calls = { λ functions l m calls. AreFaults functions calls };

    ghost have_picks = { λ functions picks. ⊤ };

    fn result_type(&self, _f: &Name) -> Ty {
        self.gives
    }

    fn call(
        &self,
        alloc: Global,
        g: &mut L,
        view: &View<'_, L::Bit>,
        f: &Name,
        args: SymValues<L::Bit>,
    ) -> Result<SymOutcome<L::Bit>, NoMemory>
        requires picks { OwnsAll L.owns g.old (joined (env_of view.now).picks) }
        requires args { AreArgumentsIn L.owns g.old (env_of view.now).limits args }
        requires typed { IsSome
            (given_type (bodiless_signatures self.now) f.now (value_types args)) }
        ensures extends { Extends L.owns L.reads L.count g.old g.new }
        ensures made { IfOk result (λ r. (t : AnyType)
            → given_type (bodiless_signatures self.now) f.now (value_types args) ≡ Some t
            → IsOutcomeIn L.owns g.new (form_for (env_of view.now).limits t) r) }
        ensures value { IfOk result (λ r.
            (vs : List Bool) (m : ℕ → ℕ) (calls : Calls) (values : List Value) (line : ℕ)
            → AreFaults self.now calls
            → PicksRead (L.reads g.old vs) (env_of view.now).picks m
            → map (read (L.reads g.old vs)) args ≡ map sure values
            → OutcomeReads (L.reads g.new vs) r (calls f.now values line)) }
    {
        let _ = (f, args);
        let value = zero_value(alloc, g, view.limits, self.gives)?;
        let fault = g.constant(true);
        Ok(SymOutcome { value, fault })
    }
}
