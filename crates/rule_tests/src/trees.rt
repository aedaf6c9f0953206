//! Weighted trees, made by hand.

use choice_tree::{Other, Others, WAct, WExpr, WFunc, WFuncs, WProg, WStmt, WStmts};
use mpy_tree::{ArithOp, Name, Names};
use std::alloc::Global;
use std::test::Fail;

/// A list of one.
fn listed<T: Drop>(alloc: Global, item: T) -> Result<Vec<T>, Fail> {
    let mut list = Vec::new(alloc);
    list.push(item)?;
    Ok(list)
}

fn name(alloc: Global, x: &[u8]) -> Result<Name, Fail> {
    Ok(Name::from_vec(Vec::from_slice(alloc, x)?))
}

/// The name `x`.
fn x(alloc: Global) -> Result<WExpr, Fail> {
    Ok(WExpr::Name(name(alloc, b"x")?))
}

/// A sum of a tree and a number.
fn plus(alloc: Global, e: WExpr, number: u32) -> Result<WExpr, Fail> {
    let number = Box::new(alloc, WExpr::Int(number))?;
    Ok(WExpr::Arith(ArithOp::Add, Box::new(alloc, e)?, number))
}

/// A member by a rule at a cost.
fn member(rule: u32, cost: u32, tree: WExpr) -> Other {
    Other { rule, cost, tree }
}

/// `x`, or `x + 1` by the rule 2.
fn x_or_more(alloc: Global, number: u32) -> Result<WExpr, Fail> {
    let base = Box::new(alloc, x(alloc)?)?;
    let other = member(2, 1, plus(alloc, x(alloc)?, 1)?);
    let others = Others {
        items: listed(alloc, other)?,
    };
    Ok(WExpr::Pick {
        number,
        base,
        others,
    })
}

/// The function `f(x)` that returns this.
fn returning(alloc: Global, e: WExpr) -> Result<WProg, Fail> {
    let stmt = WStmt {
        line: 2,
        act: WAct::Return(Some(e)),
    };
    let body = WStmts {
        items: listed(alloc, stmt)?,
    };
    let params = Names::from_vec(listed(alloc, name(alloc, b"x")?)?);
    let func = WFunc {
        line: 1,
        name: name(alloc, b"f")?,
        params,
        body,
    };
    Ok(WProg {
        funcs: WFuncs {
            items: listed(alloc, func)?,
        },
    })
}

/// The rewritings of `return x` by three rules: `return $a => return $a + 2` at the cost 3,
/// `return $a => return $a' + 1` and `x => x + 1` at the cost 1 each.
pub fn three_rules(alloc: Global) -> Result<WProg, Fail> {
    let base = Box::new(alloc, x_or_more(alloc, 1)?)?;
    let mut items = Vec::new(alloc);
    items.push(member(0, 3, plus(alloc, x(alloc)?, 2)?))?;
    items.push(member(1, 1, plus(alloc, x_or_more(alloc, 2)?, 1)?))?;
    returning(
        alloc,
        WExpr::Pick {
            number: 0,
            base,
            others: Others { items },
        },
    )
}

/// 0, or 1 by a member at each of these costs.
fn zero_or_one(alloc: Global, number: u32, costs: &[u32]) -> Result<WExpr, Fail> {
    let base = Box::new(alloc, WExpr::Int(0))?;
    let mut items = Vec::new(alloc);
    for cost in costs {
        items.push(member(0, *cost, WExpr::Int(1)))?;
    }
    let others = Others { items };
    Ok(WExpr::Pick {
        number,
        base,
        others,
    })
}

/// A sum of picks, each by the costs of its members.
pub fn sum_of_picks(alloc: Global, picks: &[&[u32]]) -> Result<WProg, Fail> {
    let mut sum = WExpr::Int(0);
    for (i, costs) in picks.iter().enumerate() {
        let number = u32::try_from(i).ok().ok_or("too many picks")?;
        let left = Box::new(alloc, sum)?;
        let right = Box::new(alloc, zero_or_one(alloc, number, *costs)?)?;
        sum = WExpr::Arith(ArithOp::Add, left, right);
    }
    returning(alloc, sum)
}
