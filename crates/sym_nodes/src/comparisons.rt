//! Comparisons.

ghost use Rattle.std.specs.Prelude.{IfOk, IsSome};
ghost use Rattle.mpy_tree.specs.Operations.{compare, truth};
ghost use Rattle.mpy_tree.specs.Rules.{compare_type, order_type};
ghost use Rattle.mpy_tree.specs.declared.operators.CmpOp.TheVariants.{Le, Lt};
ghost use Rattle.bit_words.specs.Logic.{Extends};
ghost use Rattle.sym_values.specs.Forms.{BoolForm};
ghost use Rattle.sym_values.specs.Operations.{ValuesGive};
ghost use Rattle.sym_values.specs.Results.{IsOutcomeIn};
ghost use Rattle.sym_nodes.specs.Operands.{IsTypedIn, ty_of};

use crate::operands::word_of;
use bit_words::NoMemory;
use bit_words::logic::Logic;
use list_values::members::{absence, membership};
use mpy_tree::{CmpOp, Limits};
use std::alloc::Global;
use sym_values::equality::{equality, inequality};
use sym_values::order::{at_most, less_than};
use sym_values::{SymOutcome, SymValue};

/// A comparison of two values.
pub fn compare_value<L: Logic>(
    alloc: Global,
    g: &mut L,
    limits: &Limits,
    op: CmpOp,
    a: &SymValue<L::Bit>,
    b: &SymValue<L::Bit>,
) -> Result<SymOutcome<L::Bit>, NoMemory>
    requires left { IsTypedIn L.owns g.old limits.now a.now }
    requires right { IsTypedIn L.owns g.old limits.now b.now }
    requires typed { IsSome (compare_type op (ty_of a.now) (ty_of b.now)) }
    ensures extends { Extends L.owns L.reads L.count g.old g.new }
    ensures made { IfOk result (λ r. IsOutcomeIn L.owns g.new BoolForm r) }
    ensures value { IfOk result (λ r. ValuesGive L.reads g.old g.new a.now b.now r
        (λ v w. truth (compare op v w))) }
{
    match op {
        CmpOp::Eq => equality(g, a, b),
        CmpOp::Ne => inequality(g, a, b),
        CmpOp::Lt => below(alloc, g, limits, a, b),
        CmpOp::Le => up_to(alloc, g, limits, a, b),
        CmpOp::Gt => below(alloc, g, limits, b, a),
        CmpOp::Ge => up_to(alloc, g, limits, b, a),
        CmpOp::Member => membership(g, a, b),
        CmpOp::NotMember => absence(g, a, b),
    }
}

/// Whether one number is below another.
fn below<L: Logic>(
    alloc: Global,
    g: &mut L,
    limits: &Limits,
    a: &SymValue<L::Bit>,
    b: &SymValue<L::Bit>,
) -> Result<SymOutcome<L::Bit>, NoMemory>
    requires left { IsTypedIn L.owns g.old limits.now a.now }
    requires right { IsTypedIn L.owns g.old limits.now b.now }
    requires typed { IsSome (order_type (ty_of a.now) (ty_of b.now)) }
    ensures extends { Extends L.owns L.reads L.count g.old g.new }
    ensures made { IfOk result (λ r. IsOutcomeIn L.owns g.new BoolForm r) }
    ensures value { IfOk result (λ r. ValuesGive L.reads g.old g.new a.now b.now r
        (λ v w. truth (compare Lt v w))) }
{
    let v = word_of(a);
    let w = word_of(b);
    let outcome = less_than(alloc, g, v, w)?;
    Ok(outcome)
}

/// Whether one number is no greater than another.
fn up_to<L: Logic>(
    alloc: Global,
    g: &mut L,
    limits: &Limits,
    a: &SymValue<L::Bit>,
    b: &SymValue<L::Bit>,
) -> Result<SymOutcome<L::Bit>, NoMemory>
    requires left { IsTypedIn L.owns g.old limits.now a.now }
    requires right { IsTypedIn L.owns g.old limits.now b.now }
    requires typed { IsSome (order_type (ty_of a.now) (ty_of b.now)) }
    ensures extends { Extends L.owns L.reads L.count g.old g.new }
    ensures made { IfOk result (λ r. IsOutcomeIn L.owns g.new BoolForm r) }
    ensures value { IfOk result (λ r. ValuesGive L.reads g.old g.new a.now b.now r
        (λ v w. truth (compare Le v w))) }
{
    let v = word_of(a);
    let w = word_of(b);
    let outcome = at_most(alloc, g, v, w)?;
    Ok(outcome)
}
