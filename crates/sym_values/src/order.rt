//! Numbers in order: comparisons, and the least and the greatest of two.

ghost use Rattle.std.specs.Prelude.{◌≡◌, ◌<◌, length, IfOk};
ghost use Rattle.mpy_tree.specs.Operations.{compare, greatest, least, truth};
ghost use Rattle.mpy_tree.specs.declared.operators.CmpOp.TheVariants.{Le, Lt};
ghost use Rattle.bit_words.specs.Logic.{Extends, OwnsAll};
ghost use Rattle.sym_values.specs.Forms.{BoolForm, IntForm};
ghost use Rattle.sym_values.specs.Operations.{NumbersGive};
ghost use Rattle.sym_values.specs.Results.{IsOutcomeIn};

use crate::value::{SymOutcome, SymValue};
use bit_words::NoMemory;
use bit_words::bitwise::choose_word;
use bit_words::compare::less;
use bit_words::logic::Logic;
use bit_words::word::Word;
use std::alloc::Global;

/// Whether one number is below another.
#[tactic(auto, using(crate::proofs::Held::parts))]
pub fn less_than<L: Logic>(
    alloc: Global,
    g: &mut L,
    a: &Word<L::Bit>,
    b: &Word<L::Bit>,
) -> Result<SymOutcome<L::Bit>, NoMemory>
    requires some { 0 < length a.now }
    requires alike { length b.now ≡ length a.now }
    requires left { OwnsAll L.owns g.old a.now }
    requires right { OwnsAll L.owns g.old b.now }
    ensures extends { Extends L.owns L.reads L.count g.old g.new }
    ensures made { IfOk result (λ r. IsOutcomeIn L.owns g.new (BoolForm) r) }
    ensures value { IfOk result (λ r.
        NumbersGive L.reads g.old g.new a.now b.now r (λ l v w. truth (compare Lt v w))) }
{
    let below = less(alloc, g, a, b)?;
    let fault = g.constant(false);
    Ok(SymOutcome {
        value: SymValue::Bool(below),
        fault,
    })
}

/// Whether one number is no greater than another.
#[tactic(auto, using(crate::proofs::Held::parts))]
pub fn at_most<L: Logic>(
    alloc: Global,
    g: &mut L,
    a: &Word<L::Bit>,
    b: &Word<L::Bit>,
) -> Result<SymOutcome<L::Bit>, NoMemory>
    requires some { 0 < length a.now }
    requires alike { length b.now ≡ length a.now }
    requires left { OwnsAll L.owns g.old a.now }
    requires right { OwnsAll L.owns g.old b.now }
    ensures extends { Extends L.owns L.reads L.count g.old g.new }
    ensures made { IfOk result (λ r. IsOutcomeIn L.owns g.new (BoolForm) r) }
    ensures value { IfOk result (λ r.
        NumbersGive L.reads g.old g.new a.now b.now r (λ l v w. truth (compare Le v w))) }
{
    let above = less(alloc, g, b, a)?;
    let holds = g.not(above);
    let fault = g.constant(false);
    Ok(SymOutcome {
        value: SymValue::Bool(holds),
        fault,
    })
}

/// The least of two numbers.
#[tactic(auto, using(crate::proofs::Held::parts))]
pub fn least<L: Logic>(
    alloc: Global,
    g: &mut L,
    a: &Word<L::Bit>,
    b: &Word<L::Bit>,
) -> Result<SymOutcome<L::Bit>, NoMemory>
    requires some { 0 < length a.now }
    requires alike { length b.now ≡ length a.now }
    requires left { OwnsAll L.owns g.old a.now }
    requires right { OwnsAll L.owns g.old b.now }
    ensures extends { Extends L.owns L.reads L.count g.old g.new }
    ensures made { IfOk result (λ r. IsOutcomeIn L.owns g.new (IntForm (length a.now)) r) }
    ensures value { IfOk result (λ r.
        NumbersGive L.reads g.old g.new a.now b.now r (λ l. least)) }
{
    let lower = less(alloc, g, b, a)?;
    let word = choose_word(alloc, g, lower, b, a)?;
    let fault = g.constant(false);
    Ok(SymOutcome {
        value: SymValue::Int(word),
        fault,
    })
}

/// The greatest of two numbers.
#[tactic(auto, using(crate::proofs::Held::parts))]
pub fn greatest<L: Logic>(
    alloc: Global,
    g: &mut L,
    a: &Word<L::Bit>,
    b: &Word<L::Bit>,
) -> Result<SymOutcome<L::Bit>, NoMemory>
    requires some { 0 < length a.now }
    requires alike { length b.now ≡ length a.now }
    requires left { OwnsAll L.owns g.old a.now }
    requires right { OwnsAll L.owns g.old b.now }
    ensures extends { Extends L.owns L.reads L.count g.old g.new }
    ensures made { IfOk result (λ r. IsOutcomeIn L.owns g.new (IntForm (length a.now)) r) }
    ensures value { IfOk result (λ r.
        NumbersGive L.reads g.old g.new a.now b.now r (λ l. greatest)) }
{
    let lower = less(alloc, g, b, a)?;
    let word = choose_word(alloc, g, lower, a, b)?;
    let fault = g.constant(false);
    Ok(SymOutcome {
        value: SymValue::Int(word),
        fault,
    })
}
