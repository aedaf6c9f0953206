//! Values as tests.

ghost use Rattle.std.specs.Prelude.{◌≡◌, Bool, List, nat_eq, not, IfOk};
ghost use Rattle.std.specs.declared.result.Result.TheVariants.{Ok};
ghost use Rattle.mpy_tree.specs.Operations.{holds};
ghost use Rattle.mpy_tree.specs.declared.value.Value.{Value};
ghost use Rattle.mpy_tree.specs.declared.value.Value.TheVariants.{Bool as Truth};
ghost use Rattle.bit_words.specs.Logic.{Extends, OwnsAll};
ghost use Rattle.bit_words.specs.Words.{nat_read};
ghost use Rattle.sym_values.specs.Forms.{bits_of, BoolForm};
ghost use Rattle.sym_values.specs.Operations.{ValueGives};
ghost use Rattle.sym_values.specs.Reading.{read, sure};
ghost use Rattle.sym_values.specs.Results.{IsOutcomeIn};

use crate::value::{SymOutcome, SymValue};
use bit_words::NoMemory;
use bit_words::logic::Logic;
use bit_words::order::equal_number;

/// Whether one of some bits is true.
#[tactic(auto, using(crate::proofs::Held::parts))]
fn any_bit<L: Logic>(g: &mut L, bits: &[L::Bit]) -> Result<L::Bit, NoMemory>
    requires { OwnsAll L.owns g.old bits.now }
    ensures extends { Extends L.owns L.reads L.count g.old g.new }
    ensures owned { IfOk result (λ r. L.owns g.new r) }
    ensures value { IfOk result (λ r. (vs : List Bool) →
        L.reads g.new vs r ≡ not (nat_eq (nat_read L.reads g.old vs bits.now) 0)) }
{
    let none = equal_number(g, bits, 0)?;
    Ok(g.not(none))
}

/// Whether a value holds as a test: a number that isn't 0, True, or what isn't empty.
#[tactic(auto, using(crate::proofs::Held::parts))]
pub fn test_bit<L: Logic>(g: &mut L, a: &SymValue<L::Bit>) -> Result<L::Bit, NoMemory>
    requires { OwnsAll L.owns g.old (bits_of a.now) }
    ensures extends { Extends L.owns L.reads L.count g.old g.new }
    ensures owned { IfOk result (λ r. L.owns g.new r) }
    ensures value { IfOk result (λ r. (vs : List Bool) (v : Value) →
        read (L.reads g.old vs) a.now ≡ sure v → L.reads g.new vs r ≡ holds v) }
{
    match a {
        SymValue::Int(word) => {
            let some = any_bit(g, word.as_slice())?;
            Ok(some)
        }
        SymValue::Bool(bit) => Ok(*bit),
        SymValue::List { len, .. } => {
            let some = any_bit(g, len.as_slice())?;
            Ok(some)
        }
        SymValue::Text { len, .. } => {
            let some = any_bit(g, len.as_slice())?;
            Ok(some)
        }
    }
}

/// The opposite of what a value is as a test.
#[tactic(auto, using(crate::proofs::Held::parts))]
pub fn negation<L: Logic>(g: &mut L, a: &SymValue<L::Bit>) -> Result<SymOutcome<L::Bit>, NoMemory>
    requires { OwnsAll L.owns g.old (bits_of a.now) }
    ensures extends { Extends L.owns L.reads L.count g.old g.new }
    ensures made { IfOk result (λ r. IsOutcomeIn L.owns g.new BoolForm r) }
    ensures value { IfOk result (λ r.
        ValueGives L.reads g.old g.new a.now r (λ v. Ok (Truth (not (holds v))))) }
{
    let holds = test_bit(g, a)?;
    let bit = g.not(holds);
    let fault = g.constant(false);
    Ok(SymOutcome {
        value: SymValue::Bool(bit),
        fault,
    })
}
