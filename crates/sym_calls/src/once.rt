//! Functions whose calls are built once.

ghost use Rattle.std.specs.Prelude.{◌≡◌, ℕ, Bool, List, map, Some, IfOk, IsSome};
ghost use Rattle.mpy_tree.specs.declared.typing.Ty.{Ty as AnyType};
ghost use Rattle.mpy_tree.specs.declared.value.Value.{Value};
ghost use Rattle.mpy_tree.specs.Expressions.{Calls};
ghost use Rattle.bit_words.specs.Logic.{Extends, OwnsAll};
ghost use Rattle.sym_values.specs.Forms.{form_for, joined};
ghost use Rattle.sym_values.specs.Reading.{OutcomeReads, read, sure};
ghost use Rattle.sym_values.specs.Results.{IsOutcomeIn};
ghost use Rattle.sym_nodes.specs.Environments.{PicksRead};
ghost use Rattle.sym_nodes.specs.Views.{env_of};
ghost use Rattle.sym_expr.specs.Signatures.{AreArgumentsIn, given_type, value_types};
ghost use Rattle.sym_calls.specs.Pairs.{paired};
ghost use Rattle.sym_calls.specs.Reuse.{CanReuse};

use crate::call::call_of;
use crate::matching::copy_of;
use crate::remembering::Remembering;
use crate::setting::Setting;
use bit_words::NoMemory;
use bit_words::logic::Logic;
use mpy_tree::{Name, Ty};
use std::alloc::Global;
use sym_expr::{Functions, View};
use sym_values::{SymOutcome, SymValues};

/// Functions at a level of calls, each of whose calls is built once: a call of the same function on
/// arguments that are the same bits gives what was built before, with no walk and no gate.
#[derive(Clone, Copy, Drop)]
pub struct Once<C> {
    pub level: u32,
    pub functions: C,
}

impl<'a, L, K, C> Functions<Remembering<'a, L, K>> for Once<C>
where
    L: Logic,
    K: Setting<L::Bit>,
    C: Functions<Remembering<'a, L, K>>,
{
    ghost signatures = { λ d. C.signatures d.functions };

    ghost are_calls = { λ d l m calls. K.fixed.are_calls d.level l m calls };

    ghost have_picks = { λ d picks. CanReuse K.fixed (C.signatures d.functions)
        (C.are_calls d.functions) (C.have_picks d.functions) d.level picks };

    fn result_type(&self, f: &Name) -> Ty {
        self.functions.result_type(f)
    }

    fn call(
        &self,
        alloc: Global,
        g: &mut Remembering<'a, L, K>,
        view: &View<'_, L::Bit>,
        f: &Name,
        args: SymValues<L::Bit>,
    ) -> Result<SymOutcome<L::Bit>, NoMemory>
        requires picks { OwnsAll (λ s b. L.owns s.logic.now b) g.old
            (joined (env_of view.now).picks) }
        requires many { CanReuse K.fixed (C.signatures self.now.functions)
            (C.are_calls self.now.functions) (C.have_picks self.now.functions) self.now.level
            (env_of view.now).picks }
        requires args { AreArgumentsIn (λ s b. L.owns s.logic.now b) g.old
            (env_of view.now).limits args }
        requires typed { IsSome (given_type (C.signatures self.now.functions) f.now
            (value_types args)) }
        ensures extends { Extends (λ s b. L.owns s.logic.now b)
            (λ s vs b. L.reads s.logic.now vs b)
            (λ s. paired (L.count s.logic.now) s.logic.ghost_name) g.old g.new }
        ensures made { IfOk result (λ r. (t : AnyType)
            → given_type (C.signatures self.now.functions) f.now (value_types args) ≡ Some t
            → IsOutcomeIn (λ s b. L.owns s.logic.now b) g.new
            (form_for (env_of view.now).limits t) r) }
        ensures value { IfOk result (λ r.
            (vs : List Bool) (m : ℕ → ℕ) (calls : Calls) (values : List Value) (line : ℕ)
            → K.fixed.are_calls self.now.level (env_of view.now).limits m calls
            → PicksRead (L.reads g.old.logic.now vs) (env_of view.now).picks m
            → map (read (L.reads g.old.logic.now vs)) args ≡ map sure values
            → OutcomeReads (L.reads g.new.logic.now vs) r (calls f.now values line)) }
    {
        let call = call_of(self.level, view.limits, f, &args)?;
        match g.find(&call) {
            Some(outcome) => {
                let known = copy_of(outcome)?;
                Ok(known)
            }
            None => {
                let outcome = self.functions.call(alloc, g, view, f, args)?;
                g.remember(call, &outcome)?;
                Ok(outcome)
            }
        }
    }
}
