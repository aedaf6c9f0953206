//! What left sides match.

use choice_tree::{Meta, PArith, PExpr, Pattern, Place, Right, Rule, Rules};
use eml_match::{Bound, Site, match_expr, matched_rules};
use mpy_printer::print_expr;
use mpy_tree::{ArithOp, Expr, Name};
use std::alloc::Global;
use std::test::Fail;

fn meta(letter: u8, digit: Option<u8>) -> Meta {
    Meta {
        letter,
        digit,
        primed: false,
    }
}

/// `$a0 $o $n`.
fn pattern(alloc: Global) -> Result<PExpr, Fail> {
    let left = Box::new(alloc, PExpr::Meta(meta(b'a', Some(0))))?;
    let right = Box::new(alloc, PExpr::Meta(meta(b'n', None)))?;
    Ok(PExpr::Arith(PArith::Meta(meta(b'o', None)), left, right))
}

/// `x` with an operator and another expression behind it.
fn term(alloc: Global, op: ArithOp, right: Expr) -> Result<Expr, Fail> {
    let x = Expr::Name(Name::from_vec(Vec::from_slice(alloc, b"x")?));
    Ok(Expr::Arith(op, Box::new(alloc, x)?, Box::new(alloc, right)?))
}

#[test]
fn operators_and_parts_are_bound(rt: HostRuntime) -> Result<(), Fail> {
    let alloc = rt.alloc();
    let e = term(alloc, ArithOp::Mul, Expr::Int(7))?;
    let found = match_expr(alloc, &pattern(alloc)?, &e)?;
    assert!(rt; found.is_some());
    let mut told = String::new(alloc);
    for b in found.iter().flatten() {
        match b.bound {
            Bound::Term(t) => told.push_str(String::from_utf8(print_expr(alloc, t)?)?.as_str())?,
            Bound::Arith(ArithOp::Mul) => told.push_str(" * ")?,
            _ => told.push_str("?")?,
        }
    }
    assert!(rt; told.as_str() == " * x7");
    Ok(())
}

/// Whether `$a0 $o $n` matches.
fn is_matched(alloc: Global, e: &Expr) -> Result<bool, Fail> {
    let p = pattern(alloc)?;
    Ok(match_expr(alloc, &p, e)?.is_some())
}

#[test]
fn powers_do_not_match(rt: HostRuntime) -> Result<(), Fail> {
    let power = term(rt.alloc(), ArithOp::Power, Expr::Int(7))?;
    assert!(rt; !is_matched(rt.alloc(), &power)?);
    Ok(())
}

#[test]
fn only_numbers_are_numbers(rt: HostRuntime) -> Result<(), Fail> {
    let truth = term(rt.alloc(), ArithOp::Mul, Expr::Bool(true))?;
    assert!(rt; !is_matched(rt.alloc(), &truth)?);
    assert!(rt; !is_matched(rt.alloc(), &Expr::Int(7))?);
    Ok(())
}

/// The rule `r: $a0 $o $n => 1` with this place on its two sides.
fn rule(alloc: Global, place: Place) -> Result<Rule, Fail> {
    let left = Pattern {
        place,
        term: pattern(alloc)?,
    };
    let right = Right {
        place,
        term: PExpr::Int(1),
    };
    let name = Name::from_vec(Vec::from_slice(alloc, b"r")?);
    Ok(Rule {
        line: 1,
        name,
        cost: 1,
        left,
        right,
        say: None,
    })
}

#[test]
fn rules_are_tried_at_their_places(rt: HostRuntime) -> Result<(), Fail> {
    let alloc = rt.alloc();
    let mut items = Vec::new(alloc);
    items.push(rule(alloc, Place::Return)?)?;
    items.push(rule(alloc, Place::Anywhere)?)?;
    items.push(rule(alloc, Place::Assign(meta(b'v', None)))?)?;
    let rules = Rules { items };
    let e = term(alloc, ArithOp::Mul, Expr::Int(7))?;
    let v = Name::from_vec(Vec::from_slice(alloc, b"v")?);
    let sites = [
        (Site::Return, 0, 3),
        (Site::Elsewhere, 1, 3),
        (Site::Assign(&v), 2, 4),
    ];
    for (site, number, bound) in &sites {
        let found = matched_rules(alloc, &rules, *site, &e)?;
        assert!(rt; found.len() == 1, "at {number}");
        for m in &found {
            assert!(rt; m.rule == *number, "at {number}");
            assert!(rt; m.bindings.len() == *bound, "at {number}");
        }
    }
    assert!(rt; matched_rules(alloc, &rules, Site::If, &e)?.is_empty());
    Ok(())
}
