//! The end of a call: one outcome of all that is returned.

ghost use Rattle.std.specs.Prelude.{◌≡◌, ℕ, Bool, List, map, Some, IfOk, IsSome};
ghost use Rattle.mpy_tree.specs.declared.typing.Ty.{Ty as AnyType};
ghost use Rattle.mpy_tree.specs.Running.{given_by};
ghost use Rattle.mpy_tree.specs.Statements.{Ran};
ghost use Rattle.bit_words.specs.Logic.{Extends};
ghost use Rattle.sym_values.specs.Forms.{form_for, form_of};
ghost use Rattle.sym_values.specs.Reading.{OutcomeReads};
ghost use Rattle.sym_values.specs.Results.{IsOutcomeIn};
ghost use Rattle.sym_paths.specs.Paths.{handed, first_handed, HoldsAllGiven};
ghost use Rattle.sym_paths.specs.Endings.{or_other, seen_of};
ghost use Rattle.sym_paths.specs.Ends.{gives, HoldsReturned};

use crate::path::{Given, Many};
use crate::slots::Slots;
use bit_words::NoMemory;
use bit_words::gates::or;
use bit_words::logic::Logic;
use std::alloc::Global;
use sym_values::choose::choose_value;
use sym_values::constant::zero_value;
use sym_values::{SymOutcome, SymValue};

// A value that is returned where a bit holds.
#[derive(Drop)]
struct Returned<B: Copy> {
    bit: B,
    value: SymValue<B>,
}

// A return with a value.
fn with_value<B: Copy>(given: Given<B>) -> Returned<B>
    requires { IsSome given.value }
    ensures bit { result.bit ≡ given.bit }
    ensures value { Some result.value ≡ given.value }
{
    let Given {
        bit,
        value,
        printed: _printed,
    } = given;
    match value {
        None => unreachable!(),
        Some(value) => Returned { bit, value },
    }
}

// One of two values that are returned. The first counts where both bits hold.
fn join_given<L: Logic>(
    alloc: Global,
    g: &mut L,
    a: &Returned<L::Bit>,
    b: &Returned<L::Bit>,
) -> Result<Returned<L::Bit>, NoMemory>
    requires first { HoldsReturned L.owns g.old (form_of a.now.value) a.now }
    requires second { HoldsReturned L.owns g.old (form_of a.now.value) b.now }
    ensures extends { Extends L.owns L.reads L.count g.old g.new }
    ensures held { IfOk result (λ r. HoldsReturned L.owns g.new (form_of a.now.value) r) }
    ensures value { IfOk result (λ r. (vs : List Bool) → gives (L.reads g.new vs) r
        ≡ or_other (gives (L.reads g.old vs) a.now) (gives (L.reads g.old vs) b.now)) }
{
    let bit = or(g, a.bit, b.bit)?;
    let value = choose_value(alloc, g, a.bit, &a.value, &b.value)?;
    Ok(Returned { bit, value })
}

// Lets go of a value. A function of its own, since the kinds of a value would divide its caller.
pub(crate) fn let_go<T: Drop>(_x: T) {}

// The same. Where it is known of one whether it is returned, that decides.
fn join_given_known<L: Logic>(
    alloc: Global,
    g: &mut L,
    a: Returned<L::Bit>,
    b: Returned<L::Bit>,
) -> Result<Returned<L::Bit>, NoMemory>
    requires first { HoldsReturned L.owns g.old (form_of a.value) a }
    requires second { HoldsReturned L.owns g.old (form_of a.value) b }
    ensures extends { Extends L.owns L.reads L.count g.old g.new }
    ensures held { IfOk result (λ r. HoldsReturned L.owns g.new (form_of a.value) r) }
    ensures value { IfOk result (λ r. (vs : List Bool) → gives (L.reads g.new vs) r
        ≡ or_other (gives (L.reads g.old vs) a) (gives (L.reads g.old vs) b)) }
{
    match g.known(a.bit) {
        Some(true) => {
            let_go(b);
            Ok(a)
        }
        Some(false) => {
            let_go(a);
            Ok(b)
        }
        None => match g.known(b.bit) {
            Some(false) => {
                let_go(b);
                Ok(a)
            }
            _ => {
                let joined = join_given(alloc, g, &a, &b);
                let_go(a);
                let_go(b);
                joined
            }
        },
    }
}

/// The outcome of a call whose body returns these values. Where none of their bits holds there is a
/// fault, and the value is a zero.
pub fn finish<L: Logic>(
    alloc: Global,
    g: &mut L,
    slots: &Slots,
    mut all: Many<Given<L::Bit>>,
) -> Result<SymOutcome<L::Bit>, NoMemory>
    requires result { IsSome slots.now.result }
    requires dropped { slots.now.prints ≡ 0 }
    requires all { HoldsAllGiven L.owns g.old slots.now all }
    ensures extends { Extends L.owns L.reads L.count g.old g.new }
    ensures made { IfOk result (λ r. (t : AnyType) → slots.now.result ≡ Some t
        → IsOutcomeIn L.owns g.new (form_for slots.now.limits t) r) }
    ensures value { IfOk result (λ r. (vs : List Bool) (run : Ran) (line : ℕ)
        → first_handed slots.now.limits (map (handed (L.reads g.old vs)) all)
        ≡ (seen_of run).returned
        → OutcomeReads (L.reads g.new vs) r (given_by line run)) }
{
    let ty = match slots.result {
        None => unreachable!(),
        Some(ty) => ty,
    };
    let none = zero_value(alloc, g, &slots.limits, ty)?;
    let no = g.constant(false);
    let mut joined = Returned {
        bit: no,
        value: none,
    };
    while let Some(given) = all.pop() {
        joined = join_given_known(alloc, g, with_value(given), joined)?;
    }
    let fault = g.not(joined.bit);
    Ok(SymOutcome {
        value: joined.value,
        fault,
    })
}
