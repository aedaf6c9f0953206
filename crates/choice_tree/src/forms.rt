//! The expressions of rules, as they are read.
ghost use Rattle.std.specs.Prelude.{◌≡◌, ◌∷◌, [], map, option_map, IfOk};
ghost use Rattle.choice_tree.specs.Templates.{Template, one_arith, one_comparison, one_of};
ghost use Rattle.choice_tree.specs.RuleViews.{template_of, arith_template, comparison_template};
ghost use Rattle.choice_tree.specs.RuleViews.{templates};
ghost use Rattle.choice_tree.specs.Sides.{sides};
ghost use Rattle.choice_tree.specs.SideViews.{operation_of};

use crate::NoMemory;
use crate::rules::{ArithOps, CmpOps, Meta, PArith, PCmp, PExpr, PExprs};
use mpy_expressions::Forms;
use mpy_tree::{ArithOp, Chars, CmpOp, Name};
use std::alloc::Global;

/// What stands in rules alone, in the place of an expression or of an operator.
#[derive(Drop)]
pub enum Mark {
    /// `$a`, `$v` and `$n`; as operators `$o` and `$c`
    Meta(Meta),
    /// `?$a`
    Local(Meta),
    /// `{+, -}`
    Ariths(ArithOps),
    /// `{<, <=}`
    Comparisons(CmpOps),
}

/// An operator of rules, of either level.
#[derive(Drop)]
pub enum Operator {
    Arith(PArith),
    Cmp(PCmp),
}

// Two values, each in a box.
fn two<T: Drop>(alloc: Global, a: T, b: T) -> Result<(Box<T>, Box<T>), NoMemory>
    ensures { IfOk result (λ r. (r.0.value ≡ a) × (r.1.value ≡ b)) }
{
    Ok((Box::new(alloc, a)?, Box::new(alloc, b)?))
}

// A value in a box, if there is one.
fn boxed<T: Drop>(alloc: Global, e: Option<T>) -> Result<Option<Box<T>>, NoMemory>
    ensures { IfOk result (λ b. option_map (λ x. x.value) b ≡ e) }
{
    match e {
        None => Ok(None),
        Some(e) => Ok(Some(Box::new(alloc, e)?)),
    }
}

fn one_arith(alloc: Global, op: ArithOp) -> Result<PArith, NoMemory>
    ensures { IfOk result (λ r. arith_template r ≡ one_arith (op ∷ [])) }
{
    Ok(PArith::Ops(ArithOps::from_vec(Vec::from_slice(alloc, &[op])?)))
}

fn one_comparison(alloc: Global, op: CmpOp) -> Result<PCmp, NoMemory>
    ensures { IfOk result (λ r. comparison_template r ≡ one_comparison (op ∷ [])) }
{
    Ok(PCmp::Ops(CmpOps::from_vec(Vec::from_slice(alloc, &[op])?)))
}

fn set_of(items: Vec<PExpr>) -> PExpr
    ensures { template_of result ≡ one_of (templates (map template_of items.items)) }
{
    PExpr::Set(PExprs { items })
}

impl ArithOps {
    /// An equal list.
    fn copy(&self, alloc: Global) -> Result<ArithOps, NoMemory>
        ensures { IfOk result (λ r. r ≡ self.now) }
    {
        Ok(ArithOps::from_vec(Vec::from_slice(alloc, self.items())?))
    }
}

impl CmpOps {
    /// An equal list.
    fn copy(&self, alloc: Global) -> Result<CmpOps, NoMemory>
        ensures { IfOk result (λ r. r ≡ self.now) }
    {
        Ok(CmpOps::from_vec(Vec::from_slice(alloc, self.items())?))
    }
}

impl Forms for PExpr {
    type Hole = Mark;

    type Operator = Operator;

    ghost Plain = { Template };

    ghost forms = { sides };

    ghost plain = { template_of };

    ghost operation = { operation_of };

    fn int(n: u32) -> PExpr {
        PExpr::Int(n)
    }

    fn text(characters: Chars) -> PExpr {
        PExpr::Text(characters)
    }

    fn truth(b: bool) -> PExpr {
        PExpr::Bool(b)
    }

    fn name(name: Name) -> PExpr {
        PExpr::Name(name)
    }

    fn hole(_alloc: Global, hole: &Mark) -> Result<Option<PExpr>, NoMemory> {
        match hole {
            Mark::Meta(m) => Ok(Some(PExpr::Meta(*m))),
            Mark::Local(m) => Ok(Some(PExpr::Local(*m))),
            _ => Ok(None),
        }
    }

    fn set(items: Vec<PExpr>) -> Option<PExpr>
        ensures { option_map template_of result ≡ sides.Set (map template_of items.items) }
    {
        if items.is_empty() {
            return None;
        }
        Some(set_of(items))
    }

    fn operator(alloc: Global, x: &Mark) -> Result<Option<Operator>, NoMemory> {
        match x {
            Mark::Meta(m) => Ok(Some(Operator::Arith(PArith::Meta(*m)))),
            Mark::Ariths(ops) => Ok(Some(Operator::Arith(PArith::Ops(ops.copy(alloc)?)))),
            _ => Ok(None),
        }
    }

    fn comparator(alloc: Global, x: &Mark) -> Result<Option<Operator>, NoMemory> {
        match x {
            Mark::Meta(m) => Ok(Some(Operator::Cmp(PCmp::Meta(*m)))),
            Mark::Comparisons(ops) => Ok(Some(Operator::Cmp(PCmp::Ops(ops.copy(alloc)?)))),
            _ => Ok(None),
        }
    }

    fn operated(alloc: Global, op: Operator, a: PExpr, b: PExpr) -> Result<PExpr, NoMemory> {
        let (a, b) = two(alloc, a, b)?;
        match op {
            Operator::Arith(op) => Ok(PExpr::Arith(op, a, b)),
            Operator::Cmp(op) => Ok(PExpr::Cmp(op, a, b)),
        }
    }

    fn list(items: Vec<PExpr>) -> PExpr
        ensures { template_of result ≡ sides.List (map template_of items.items) }
    {
        PExpr::List(PExprs { items })
    }

    fn call(function: Name, arguments: Vec<PExpr>) -> PExpr
        ensures { template_of result ≡ sides.Call function (map template_of arguments.items) }
    {
        PExpr::Call(function, PExprs { items: arguments })
    }

    fn minus(alloc: Global, e: PExpr) -> Result<PExpr, NoMemory> {
        Ok(PExpr::Neg(Box::new(alloc, e)?))
    }

    fn negation(alloc: Global, e: PExpr) -> Result<PExpr, NoMemory> {
        Ok(PExpr::Not(Box::new(alloc, e)?))
    }

    fn arith(alloc: Global, op: ArithOp, a: PExpr, b: PExpr) -> Result<PExpr, NoMemory> {
        let (a, b) = two(alloc, a, b)?;
        Ok(PExpr::Arith(one_arith(alloc, op)?, a, b))
    }

    fn comparison(alloc: Global, op: CmpOp, a: PExpr, b: PExpr) -> Result<PExpr, NoMemory> {
        let (a, b) = two(alloc, a, b)?;
        Ok(PExpr::Cmp(one_comparison(alloc, op)?, a, b))
    }

    fn both(alloc: Global, a: PExpr, b: PExpr) -> Result<PExpr, NoMemory> {
        let (a, b) = two(alloc, a, b)?;
        Ok(PExpr::And(a, b))
    }

    fn either(alloc: Global, a: PExpr, b: PExpr) -> Result<PExpr, NoMemory> {
        let (a, b) = two(alloc, a, b)?;
        Ok(PExpr::Or(a, b))
    }

    fn choice(alloc: Global, test: PExpr, yes: PExpr, no: PExpr) -> Result<PExpr, NoMemory> {
        let (yes, no) = two(alloc, yes, no)?;
        let test = Box::new(alloc, test)?;
        Ok(PExpr::Cond { test, yes, no })
    }

    fn index(alloc: Global, value: PExpr, index: PExpr) -> Result<PExpr, NoMemory> {
        let (value, index) = two(alloc, value, index)?;
        Ok(PExpr::Index(value, index))
    }

    fn slice(
        alloc: Global,
        value: PExpr,
        from: Option<PExpr>,
        to: Option<PExpr>,
    ) -> Result<PExpr, NoMemory>
        ensures { IfOk result
            (λ r. template_of r
            ≡ sides.Slice (template_of value) (option_map template_of from)
            (option_map template_of to)) }
    {
        let value = Box::new(alloc, value)?;
        let from = boxed(alloc, from)?;
        let to = boxed(alloc, to)?;
        Ok(PExpr::Slice(value, from, to))
    }
}
