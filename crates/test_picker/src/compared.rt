//! The ends of two runs as bits, compared.
ghost use Rattle.std.specs.Prelude.{Bool, List, Option, IfOk, option_map};
ghost use Rattle.std.specs.declared.result.Result.{Result as AnyResult};
ghost use Rattle.mpy_tree.specs.declared.outcome.Halted.{Halted};
ghost use Rattle.mpy_tree.specs.declared.typing.Ty.{Ty as AnyType};
ghost use Rattle.mpy_tree.specs.Outcomes.{outcome_of};
ghost use Rattle.mpy_tree.specs.Running.{Done};
ghost use Rattle.bit_words.specs.Logic.{Extends};
ghost use Rattle.sym_values.specs.Forms.{form_for};
ghost use Rattle.sym_values.specs.Printed.{DoneReads, IsDoneIn};
ghost use Rattle.test_picker.specs.Comparing.{TellsFailure};

use crate::NoMemory;
use bit_words::logic::Logic;
use mpy_tree::Limits;
use std::alloc::Global;
use sym_values::SymDone;
use sym_values::alike::ends_alike;

/// Whether a run ends without a fault, and another, whose end has its form, doesn't end so.
pub(crate) fn fails<L: Logic>(
    alloc: Global,
    g: &mut L,
    limits: &Limits,
    wanted: &SymDone<L::Bit>,
    given: &SymDone<L::Bit>,
) -> Result<L::Bit, NoMemory>
    requires formed { (t : Option AnyType)
        × IsDoneIn L.owns g.old limits.now (option_map (form_for limits.now) t) wanted.now
        × IsDoneIn L.owns g.old limits.now (option_map (form_for limits.now) t) given.now }
    ensures extends { Extends L.owns L.reads L.count g.old g.new }
    ensures owned { IfOk result (λ r. L.owns g.new r) }
    ensures value { IfOk result (λ r. (vs : List Bool) (x y : AnyResult Done Halted)
        → DoneReads limits.now (L.reads g.old vs) wanted.now x
        → DoneReads limits.now (L.reads g.old vs) given.now y
        → TellsFailure (L.reads g.new vs r) (outcome_of x) (outcome_of y)) }
{
    let equal = ends_alike(alloc, g, limits, wanted, given)?;
    let ends = g.not(wanted.fault);
    let given_ends = g.not(given.fault);
    let alike = g.and(given_ends, equal)?;
    let other = g.not(alike);
    let failing = g.and(ends, other)?;
    Ok(failing)
}
