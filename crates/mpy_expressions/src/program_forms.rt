//! The expressions of programs, as they are built.
ghost use Rattle.std.specs.Prelude.{◌≡◌, map, option_map, IfOk};
ghost use Rattle.mpy_tree.specs.Syntax.{Term};
ghost use Rattle.mpy_tree.specs.Syntax as ast;
ghost use Rattle.mpy_tree.specs.View.{term_of};
ghost use Rattle.mpy_expressions.specs.Programs.{programs};

use crate::NoMemory;
use crate::forms::Forms;
use mpy_tree::{ArithOp, Chars, CmpOp, Expr, Exprs, Name};
use std::alloc::Global;

// Two values, each in a box.
fn two<T: Drop>(alloc: Global, a: T, b: T) -> Result<(Box<T>, Box<T>), NoMemory>
    ensures { IfOk result (λ r. (r.0.value ≡ a) × (r.1.value ≡ b)) }
{
    Ok((Box::new(alloc, a)?, Box::new(alloc, b)?))
}

// Three values, each in a box.
fn three<T: Drop>(alloc: Global, a: T, b: T, c: T) -> Result<(Box<T>, Box<T>, Box<T>), NoMemory>
    ensures { IfOk result (λ r. (r.0.value ≡ a) × (r.1.value ≡ b) × (r.2.value ≡ c)) }
{
    Ok((
        Box::new(alloc, a)?,
        Box::new(alloc, b)?,
        Box::new(alloc, c)?,
    ))
}

// A value in a box, if there is one.
fn boxed<T: Drop>(alloc: Global, e: Option<T>) -> Result<Option<Box<T>>, NoMemory>
    ensures { IfOk result (λ b. option_map (λ x. x.value) b ≡ e) }
{
    match e {
        None => Ok(None),
        Some(e) => Ok(Some(Box::new(alloc, e)?)),
    }
}

// The parts of a slice, each in a box.
fn sliced<T: Drop>(
    alloc: Global,
    value: T,
    from: Option<T>,
    to: Option<T>,
) -> Result<(Box<T>, Option<Box<T>>, Option<Box<T>>), NoMemory>
    ensures { IfOk result
        (λ r. (r.0.value ≡ value) × (option_map (λ x. x.value) r.1 ≡ from)
        × (option_map (λ x. x.value) r.2 ≡ to)) }
{
    Ok((
        Box::new(alloc, value)?,
        boxed(alloc, from)?,
        boxed(alloc, to)?,
    ))
}

impl Forms for Expr {
    type Hole = ();

    type Operator = ArithOp;

    ghost Plain = { Term };

    ghost forms = { programs };

    ghost plain = { term_of };

    ghost operation = { ast.Arith };

    fn int(n: u32) -> Expr {
        Expr::Int(n)
    }

    fn text(characters: Chars) -> Expr {
        Expr::Text(characters)
    }

    fn truth(b: bool) -> Expr {
        Expr::Bool(b)
    }

    fn name(name: Name) -> Expr {
        Expr::Name(name)
    }

    fn hole(_alloc: Global, _hole: &()) -> Result<Option<Expr>, NoMemory> {
        Ok(None)
    }

    fn set(_items: Vec<Expr>) -> Option<Expr>
        ensures { option_map term_of result ≡ programs.Set (map term_of _items.items) }
    {
        None
    }

    fn operator(_alloc: Global, _x: &()) -> Result<Option<ArithOp>, NoMemory> {
        Ok(None)
    }

    fn comparator(_alloc: Global, _x: &()) -> Result<Option<ArithOp>, NoMemory> {
        Ok(None)
    }

    fn operated(alloc: Global, op: ArithOp, a: Expr, b: Expr) -> Result<Expr, NoMemory> {
        let (a, b) = two(alloc, a, b)?;
        Ok(Expr::Arith(op, a, b))
    }

    fn list(items: Vec<Expr>) -> Expr
        ensures { term_of result ≡ programs.List (map term_of items.items) }
    {
        Expr::List(Exprs::from_vec(items))
    }

    fn call(function: Name, arguments: Vec<Expr>) -> Expr
        ensures { term_of result ≡ programs.Call function (map term_of arguments.items) }
    {
        Expr::Call(function, Exprs::from_vec(arguments))
    }

    fn minus(alloc: Global, e: Expr) -> Result<Expr, NoMemory> {
        Ok(Expr::Neg(Box::new(alloc, e)?))
    }

    fn negation(alloc: Global, e: Expr) -> Result<Expr, NoMemory> {
        Ok(Expr::Not(Box::new(alloc, e)?))
    }

    fn arith(alloc: Global, op: ArithOp, a: Expr, b: Expr) -> Result<Expr, NoMemory> {
        let (a, b) = two(alloc, a, b)?;
        Ok(Expr::Arith(op, a, b))
    }

    fn comparison(alloc: Global, op: CmpOp, a: Expr, b: Expr) -> Result<Expr, NoMemory> {
        let (a, b) = two(alloc, a, b)?;
        Ok(Expr::Cmp(op, a, b))
    }

    fn both(alloc: Global, a: Expr, b: Expr) -> Result<Expr, NoMemory> {
        let (a, b) = two(alloc, a, b)?;
        Ok(Expr::And(a, b))
    }

    fn either(alloc: Global, a: Expr, b: Expr) -> Result<Expr, NoMemory> {
        let (a, b) = two(alloc, a, b)?;
        Ok(Expr::Or(a, b))
    }

    fn choice(alloc: Global, test: Expr, yes: Expr, no: Expr) -> Result<Expr, NoMemory> {
        let (test, yes, no) = three(alloc, test, yes, no)?;
        Ok(Expr::Cond { test, yes, no })
    }

    fn index(alloc: Global, value: Expr, index: Expr) -> Result<Expr, NoMemory> {
        let (value, index) = two(alloc, value, index)?;
        Ok(Expr::Index(value, index))
    }

    fn slice(
        alloc: Global,
        value: Expr,
        from: Option<Expr>,
        to: Option<Expr>,
    ) -> Result<Expr, NoMemory>
        ensures { IfOk result
            (λ r. term_of r
            ≡ programs.Slice (term_of value) (option_map term_of from) (option_map term_of to)) }
    {
        let (value, from, to) = sliced(alloc, value, from, to)?;
        Ok(Expr::Slice(value, from, to))
    }
}
