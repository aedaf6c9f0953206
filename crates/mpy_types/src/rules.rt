//! The typing rules.
ghost use Rattle.std.specs.Prelude.{◌≡◌, ◌<◌, ◌^◌, length, map};
ghost use Rattle.mpy_tree.specs.Syntax as ast;
ghost use Rattle.mpy_tree.specs.View.{term_of, terms_of, end_by, routine_of};
ghost use Rattle.mpy_tree.specs.Rules.{single, type_in, all_types, end_types, arith_type};
ghost use Rattle.mpy_tree.specs.Rules.{compare_type, both_are, choice_type, index_type, slice_type};
ghost use Rattle.mpy_tree.specs.Rules.{negative_type, callee_type, are_arguments, all_numbers};
ghost use Rattle.mpy_tree.specs.Rules.{all_sequences, type_if, are_operands, builtin_type};
ghost use Rattle.mpy_tree.specs.Rules.{member_of};

use crate::known::Known;
use mpy_scopes::{Numbered, builtin_gives, called};
use mpy_tree::{ArithOp, Builtin, CmpOp, Expr, Exprs, Func, Name, Ty};

/// The type of an expression in a function of a program, if each of its nodes obeys its rule.
#[cycle(type_in)]
pub fn type_in<K: Known>(known: &K, funcs: &[Func], func: usize, e: &Expr) -> Option<Ty>
    ensures { result ≡ type_in (single (K.gives known.now)) (map routine_of funcs.now) func
        (term_of e.now) }
{
    match e {
        Expr::Int(_) => Some(Ty::Int),
        Expr::Bool(_) => Some(Ty::Bool),
        Expr::Text(_) => Some(Ty::Text),
        Expr::Name(x) => known.local(func, x).only(),
        Expr::Neg(a) => negative_type(type_in(known, funcs, func, a)?),
        Expr::Not(a) => {
            let _type = type_in(known, funcs, func, a)?;
            Some(Ty::Bool)
        }
        Expr::Arith(op, a, b) => {
            let left = type_in(known, funcs, func, a)?;
            let right = type_in(known, funcs, func, b)?;
            arith_type(*op, left, right)
        }
        Expr::Cmp(op, a, b) => {
            let left = type_in(known, funcs, func, a)?;
            let right = type_in(known, funcs, func, b)?;
            compare_type(*op, left, right)
        }
        Expr::And(a, b) | Expr::Or(a, b) => {
            let left = type_in(known, funcs, func, a)?;
            let right = type_in(known, funcs, func, b)?;
            both_are(Ty::Bool, left, right)
        }
        Expr::Cond { test, yes, no } => {
            let _type = type_in(known, funcs, func, test)?;
            let left = type_in(known, funcs, func, yes)?;
            let right = type_in(known, funcs, func, no)?;
            choice_type(left, right)
        }
        Expr::Index(a, k) => {
            let left = type_in(known, funcs, func, a)?;
            let right = type_in(known, funcs, func, k)?;
            index_type(left, right)
        }
        Expr::List(es) => type_if(are_numbers(known, funcs, func, es), Ty::List),
        Expr::Slice(a, from, to) => {
            let whole = type_in(known, funcs, func, a)?;
            if is_end(known, funcs, func, from) && is_end(known, funcs, func, to) {
                slice_type(whole)
            } else {
                None
            }
        }
        Expr::Call(f, es) => call_in(known, funcs, func, f, es),
    }
}

// Whether all the expressions are numbers.
#[cycle(type_in)]
fn are_numbers<K: Known>(known: &K, funcs: &[Func], func: usize, es: &Exprs) -> bool
    ensures { result ≡ all_numbers (all_types (single (K.gives known.now))
        (map routine_of funcs.now) func (terms_of es.now)) }
{
    for e in &es.items {
        if type_in(known, funcs, func, e) != Some(Ty::Int) {
            return false;
        }
    }
    true
}

// Whether an end of a slice is a number or missing.
#[cycle(type_in)]
fn is_end<K: Known>(known: &K, funcs: &[Func], func: usize, e: &Option<Box<Expr>>) -> bool
    ensures { result ≡ all_numbers (end_types (single (K.gives known.now))
        (map routine_of funcs.now) func (end_by (λ b. term_of b.value) e.now)) }
{
    match e {
        None => true,
        Some(e) => type_in(known, funcs, func, e) == Some(Ty::Int),
    }
}

// The type of a call.
#[cycle(type_in)]
fn call_in<K: Known>(known: &K, funcs: &[Func], func: usize, f: &Name, es: &Exprs) -> Option<Ty>
    ensures { result ≡ type_in (single (K.gives known.now)) (map routine_of funcs.now) func
        (ast.Call f.now (terms_of es.now)) }
{
    if known.local(func, f).only().is_some() {
        return None;
    }
    if let Some(b) = Builtin::of(f.bytes()) {
        return builtin_in(known, funcs, func, b, es);
    }
    let g = called(funcs, f)?;
    if are_arguments(known, funcs, g, func, es) {
        known.result(g.number).only()
    } else {
        None
    }
}

// Whether all the expressions are lists or texts.
#[cycle(type_in)]
fn are_sequences<K: Known>(known: &K, funcs: &[Func], func: usize, es: &Exprs) -> bool
    ensures { result ≡ all_sequences (all_types (single (K.gives known.now))
        (map routine_of funcs.now) func (terms_of es.now)) }
{
    for e in &es.items {
        match type_in(known, funcs, func, e) {
            Some(Ty::List) | Some(Ty::Text) => {}
            _ => return false,
        }
    }
    true
}

// The type of a call of a builtin.
#[tactic(auto, using(crate::proofs::Counting::count_of))]
#[cycle(type_in)]
fn builtin_in<K: Known>(
    known: &K,
    funcs: &[Func],
    func: usize,
    b: Builtin,
    es: &Exprs,
) -> Option<Ty>
    ensures { result ≡ builtin_type b (all_types (single (K.gives known.now))
        (map routine_of funcs.now) func (terms_of es.now)) }
{
    let fit = b.takes(es.items.len()) && are_operands(known, funcs, func, b, es);
    type_if(fit, builtin_gives(b))
}

// Whether a builtin takes expressions of these types.
#[cycle(type_in)]
fn are_operands<K: Known>(known: &K, funcs: &[Func], func: usize, b: Builtin, es: &Exprs) -> bool
    ensures { result ≡ are_operands b (all_types (single (K.gives known.now))
        (map routine_of funcs.now) func (terms_of es.now)) }
{
    match b {
        Builtin::Len => are_sequences(known, funcs, func, es),
        Builtin::Abs | Builtin::Min | Builtin::Max | Builtin::Range => are_numbers(
            known, funcs, func, es,
        ),
    }
}

// Whether the arguments have the types of a function's parameters.
#[tactic(auto, using(crate::proofs::Counting::none_left))]
#[cycle(type_in)]
fn are_arguments<K: Known>(
    known: &K,
    funcs: &[Func],
    g: Numbered<'_>,
    func: usize,
    es: &Exprs,
) -> bool
    ensures { result ≡ are_arguments (single (K.gives known.now)) g.entry.number
        g.entry.func.now.params (all_types (single (K.gives known.now)) (map routine_of funcs.now)
        func (terms_of es.now)) }
{
    let params = g.func.params.items();
    for (k, e) in es.items.iter().enumerate() {
        let ty = match params.get(k) {
            None => return false,
            Some(x) => known.local(g.number, x).only(),
        };
        if ty.is_none() || type_in(known, funcs, func, e) != ty {
            return false;
        }
    }
    params.len() <= es.items.len()
}

// The type, under a condition.
fn type_if(holds: bool, ty: Ty) -> Option<Ty>
    ensures { result ≡ type_if holds ty }
{
    if holds { Some(ty) } else { None }
}

// The type of `-a`.
fn negative_type(ty: Ty) -> Option<Ty>
    ensures { result ≡ negative_type ty }
{
    match ty {
        Ty::Int => Some(Ty::Int),
        Ty::Bool | Ty::List | Ty::Text => None,
    }
}

// The type where both are it.
fn both_are(ty: Ty, left: Ty, right: Ty) -> Option<Ty>
    ensures { result ≡ both_are ty left right }
{
    if ty == left && ty == right {
        Some(ty)
    } else {
        None
    }
}

/// The type of `a op b`.
pub fn arith_type(op: ArithOp, left: Ty, right: Ty) -> Option<Ty>
    ensures { result ≡ arith_type op left right }
{
    match (op, left, right) {
        (_, Ty::Int, Ty::Int) => Some(Ty::Int),
        (ArithOp::Add, Ty::List, Ty::List) => Some(Ty::List),
        (ArithOp::Add, Ty::Text, Ty::Text) => Some(Ty::Text),
        (ArithOp::Mul, Ty::List, Ty::Int) => Some(Ty::List),
        (ArithOp::Mul, Ty::Text, Ty::Int) => Some(Ty::Text),
        _ => None,
    }
}

// The type of a comparison.
fn compare_type(op: CmpOp, left: Ty, right: Ty) -> Option<Ty>
    ensures { result ≡ compare_type op left right }
{
    let takes = match op {
        CmpOp::Eq | CmpOp::Ne => left == right,
        CmpOp::Lt | CmpOp::Le | CmpOp::Gt | CmpOp::Ge => left == Ty::Int && right == Ty::Int,
        CmpOp::Member | CmpOp::NotMember => {
            left == Ty::Int && right == Ty::List || left == Ty::Text && right == Ty::Text
        }
    };
    if takes { Some(Ty::Bool) } else { None }
}

// The type of a conditional with these arms.
fn choice_type(yes: Ty, no: Ty) -> Option<Ty>
    ensures { result ≡ choice_type yes no }
{
    if yes == no { Some(yes) } else { None }
}

/// The type of the members.
pub fn member_of(ty: Ty) -> Option<Ty>
    ensures { result ≡ member_of ty }
{
    match ty {
        Ty::List => Some(Ty::Int),
        Ty::Text => Some(Ty::Text),
        Ty::Int | Ty::Bool => None,
    }
}

// The type of `a[k]`.
fn index_type(whole: Ty, index: Ty) -> Option<Ty>
    ensures { result ≡ index_type whole index }
{
    match index {
        Ty::Int => member_of(whole),
        Ty::Bool | Ty::List | Ty::Text => None,
    }
}

// The type of a slice.
fn slice_type(whole: Ty) -> Option<Ty>
    ensures { result ≡ slice_type whole }
{
    match whole {
        Ty::List | Ty::Text => Some(whole),
        Ty::Int | Ty::Bool => None,
    }
}
