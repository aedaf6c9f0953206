//! Names.

ghost use Rattle.std.specs.Prelude.{◌≡◌, ◌<◌, Bool, List, Some, IfOk, IfSome, IsSome, slice_get};
ghost use Rattle.std.specs.declared.result.Result.{Result};
ghost use Rattle.mpy_tree.specs.Locals.{place_of};
ghost use Rattle.mpy_tree.specs.Values.{Locals, set_or_fault};
ghost use Rattle.mpy_tree.specs.declared.typing.Ty.{Ty};
ghost use Rattle.bit_words.specs.Logic.{Extends};
ghost use Rattle.sym_values.specs.Forms.{form_for};
ghost use Rattle.sym_values.specs.Reading.{OutcomeReads};
ghost use Rattle.sym_values.specs.Results.{IsOutcomeIn};
ghost use Rattle.sym_nodes.specs.Environments.{IsEnvIn, StateReads, type_at};
ghost use Rattle.sym_nodes.specs.Views.{env_of};

use crate::view::View;
use bit_words::NoMemory;
use bit_words::logic::Logic;
use mpy_tree::Name;
use sym_values::SymOutcome;

/// The value of a local, or Unset.
pub fn local<L: Logic>(
    g: &L,
    view: &View<'_, L::Bit>,
    x: &Name,
) -> Result<SymOutcome<L::Bit>, NoMemory>
    requires env { IsEnvIn L.owns g.now (env_of view.now) }
    requires typed { IsSome
        (type_at (env_of view.now).values (place_of (env_of view.now).names x.now)) }
    ensures made { IfOk result (λ r. (t : Ty)
        → type_at (env_of view.now).values (place_of (env_of view.now).names x.now) ≡ Some t
        → IsOutcomeIn L.owns g.now (form_for (env_of view.now).limits t) r) }
    ensures value { IfOk result (λ r. (vs : List Bool) (s : Locals)
        → StateReads (L.reads g.now vs) (env_of view.now) s
        → OutcomeReads (L.reads g.now vs) r (set_or_fault (s x.now))) }
{
    match view.names.place(x) {
        Some(i) => {
            let held = view.values.at(i);
            let mark = view.set.at(i);
            let value = held.copy()?;
            let fault = g.not(mark);
            Ok(SymOutcome { value, fault })
        }
        None => unreachable!(),
    }
}
