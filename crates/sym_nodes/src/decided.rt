//! What is known without a walk: which side settles a node, and which member of a pick is chosen.

ghost use Rattle.std.specs.Prelude.{◌≡◌, ◌<◌, Bool, List, IsTrue, IfOk, IfSome};
ghost use Rattle.bit_words.specs.Logic.{Extends, OwnsAll};
ghost use Rattle.bit_words.specs.Words.{nat_read};
ghost use Rattle.sym_values.specs.Forms.{BoolForm};
ghost use Rattle.sym_values.specs.Results.{IsOutcomeIn};
ghost use Rattle.sym_nodes.specs.Members.{place_chosen};
ghost use Rattle.sym_nodes.specs.Operands.{Settles};

use crate::choices::is_place;
use crate::operands::truth_of;
use bit_words::NoMemory;
use bit_words::logic::Logic;
use sym_values::SymOutcome;

/// Whether the left side of an `and` or an `or` is known to settle it: it is a fault, or the truth
/// value at which that stops.
pub fn settles<L: Logic>(g: &L, left: &SymOutcome<L::Bit>, stop: bool) -> bool
    requires { IsOutcomeIn L.owns g.now BoolForm left.now }
    ensures { IsTrue result → (vs : List Bool) → Settles (L.reads g.now vs) stop left.now }
{
    let truth = truth_of(&left.value);
    if let Some(true) = g.known(left.fault) {
        return true;
    }
    match g.known(truth) {
        None => false,
        Some(known) => known == stop,
    }
}

/// The place among so many members of the one that some bits name, where it is known.
pub fn known_member<L: Logic>(
    g: &mut L,
    member: &[L::Bit],
    count: usize,
) -> Result<Option<usize>, NoMemory>
    requires member { OwnsAll L.owns g.old member.now }
    requires some { 0 < count }
    ensures extends { Extends L.owns L.reads L.count g.old g.new }
    ensures within { IfOk result (λ r. IfSome r (λ i. i < count)) }
    ensures value { IfOk result (λ r. IfSome r (λ i. (vs : List Bool)
        → place_chosen (nat_read L.reads g.old vs member.now) count ≡ i)) }
{
    for i in 1..count {
        let named = is_place(g, member, i)?;
        match g.known(named) {
            None => return Ok(None),
            Some(true) => return Ok(Some(i)),
            Some(false) => {}
        }
    }
    Ok(Some(0))
}
