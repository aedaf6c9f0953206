//! Expressions read from the left, by one function for each kind of level.
ghost use Rattle.std.specs.Prelude.{◌≡◌, map, ◌∷◌, [], List, Option, Some, None, option_map, Ok};
ghost use Rattle.std.specs.Prelude.{Err};
ghost use Rattle.std.specs.Prelude.{MatchResult, IfOk, IfSome, length, ◌<◌, ◌≤◌};
ghost use Rattle.mpy_expressions.specs.Reading.{special, reading, at_level, conditional_tail};
ghost use Rattle.mpy_expressions.specs.Reading.{joint_tail};
ghost use Rattle.mpy_expressions.specs.Reading.{followed_by, operator_at, comparator_at};
ghost use Rattle.mpy_expressions.specs.Reading.{comparison_tail};
ghost use Rattle.mpy_expressions.specs.Reading.{set};
ghost use Rattle.mpy_expressions.specs.Reading.{comparison_at, joint_before, suffix_at, second_end};
ghost use Rattle.mpy_expressions.specs.Reading.{elements, name_or_call, parenthesized, closed};
ghost use Rattle.mpy_expressions.specs.Reading.{behind_if, behind_else, behind_power};
ghost use Rattle.mpy_expressions.specs.Reading.{behind_bracket, behind_colon, behind_comma, atom};
ghost use Rattle.mpy_expressions.specs.Views.{suffix_of, link_of};
ghost use Rattle.mpy_expressions.specs.Joints.{IsChain, IsPrefix};
ghost use Rattle.mpy_tree.specs.declared.levels.Level.TheVariants as level;

use crate::NoMemory;
use crate::forms::Forms;
use crate::joints::{Joint, joint_at};
use crate::terminals::Terminal;
use crate::terms::{Bracket, Link, Suffix, join, with_suffix};
use crate::words::Word;
use mpy_tree::{ArithOp, CmpOp, Level, Name};
use std::alloc::Global;

/// What stands behind a closing bracket.
pub fn behind_closing<X>(bracket: Bracket, ts: &[Terminal<X>]) -> Option<&[Terminal<X>]>
    ensures { option_map (λ x. x.now) result ≡ closed bracket ts.now }
{
    match (bracket, ts) {
        (Bracket::Round, [Terminal::Word(Word::RightParen), rest @ ..]) => Some(rest),
        (Bracket::Square, [Terminal::Word(Word::RightBracket), rest @ ..]) => Some(rest),
        (Bracket::Curly, [Terminal::Word(Word::RightBrace), rest @ ..]) => Some(rest),
        _ => None,
    }
}

/// What stands behind a colon.
pub fn behind_colon<X>(ts: &[Terminal<X>]) -> Option<&[Terminal<X>]>
    ensures { option_map (λ x. x.now) result ≡ behind_colon ts.now }
{
    match ts {
        [Terminal::Word(Word::Colon), rest @ ..] => Some(rest),
        _ => None,
    }
}

fn behind_comma<X>(ts: &[Terminal<X>]) -> Option<&[Terminal<X>]>
    ensures { option_map (λ x. x.now) result ≡ behind_comma ts.now }
{
    match ts {
        [Terminal::Word(Word::Comma), rest @ ..] => Some(rest),
        _ => None,
    }
}

fn behind_if<X>(ts: &[Terminal<X>]) -> Option<&[Terminal<X>]>
    ensures { option_map (λ x. x.now) result ≡ behind_if ts.now }
{
    match ts {
        [Terminal::Word(Word::If), rest @ ..] => Some(rest),
        _ => None,
    }
}

fn behind_else<X>(ts: &[Terminal<X>]) -> Option<&[Terminal<X>]>
    ensures { option_map (λ x. x.now) result ≡ behind_else ts.now }
{
    match ts {
        [Terminal::Word(Word::Else), rest @ ..] => Some(rest),
        _ => None,
    }
}

fn behind_power<X>(ts: &[Terminal<X>]) -> Option<&[Terminal<X>]>
    ensures { option_map (λ x. x.now) result ≡ behind_power ts.now }
{
    match ts {
        [Terminal::Word(Word::DoubleStar), rest @ ..] => Some(rest),
        _ => None,
    }
}

fn behind_bracket<X>(ts: &[Terminal<X>]) -> Option<&[Terminal<X>]>
    ensures { option_map (λ x. x.now) result ≡ behind_bracket ts.now }
{
    match ts {
        [Terminal::Word(Word::LeftBracket), rest @ ..] => Some(rest),
        _ => None,
    }
}

// A value beside what is read behind it.
fn beside<A: Drop, B>(
    value: A,
    read: Result<Option<B>, NoMemory>,
) -> Result<Option<(A, B)>, NoMemory>
    ensures { MatchResult read
        (λ r. result ≡ Ok (option_map (λ b. (value, b)) r))
        (λ e. result ≡ Err e) }
{
    match read? {
        None => Ok(None),
        Some(b) => Ok(Some((value, b))),
    }
}

/// The longest expression of the level at the front, and what stands behind it.
#[cycle(expression)]
#[tactic(auto, using(crate::proofs::Readings::reading_step))]
pub fn expression<T: Forms>(
    alloc: Global,
    level: Level,
    ts: &[Terminal<T::Hole>],
) -> Result<Option<(T, &[Terminal<T::Hole>])>, NoMemory>
    ensures same { IfOk result
        (λ r. option_map (λ x. (T.plain x.0, x.1.now)) r ≡ reading T.forms level ts.now) }
    ensures shorter { IfOk result (λ r. IfSome r (λ x. length x.1.now < length ts.now)) }
{
    match level {
        Level::Conditional => conditional(alloc, ts),
        Level::Disjunction | Level::Conjunction | Level::Sum | Level::Product => {
            chain(alloc, level, ts)
        }
        Level::Negation | Level::Unary => prefixed(alloc, level, ts),
        Level::Comparison => comparison(alloc, ts),
        Level::Power => power(alloc, ts),
        Level::Postfix => postfix(alloc, ts),
        Level::Atom => atom(alloc, ts),
    }
}

#[cycle(expression)]
fn conditional<T: Forms>(
    alloc: Global,
    ts: &[Terminal<T::Hole>],
) -> Result<Option<(T, &[Terminal<T::Hole>])>, NoMemory>
    ensures same { IfOk result
        (λ r. option_map (λ x. (T.plain x.0, x.1.now)) r
        ≡ at_level T.forms (reading T.forms) level.Conditional ts.now) }
    ensures shorter { IfOk result (λ r. IfSome r (λ x. length x.1.now < length ts.now)) }
{
    let Some((yes, rest)) = expression::<T>(alloc, Level::Disjunction, ts)? else {
        return Ok(None);
    };
    match conditional_tail::<T>(alloc, rest)? {
        None => Ok(Some((yes, rest))),
        Some((test, no, rest)) => Ok(Some((T::choice(alloc, test, yes, no)?, rest))),
    }
}

#[cycle(expression)]
fn conditional_tail<T: Forms>(
    alloc: Global,
    ts: &[Terminal<T::Hole>],
) -> Result<Option<(T, T, &[Terminal<T::Hole>])>, NoMemory>
    ensures same { IfOk result
        (λ r. option_map (λ x. (T.plain x.0, T.plain x.1, x.2.now)) r
        ≡ conditional_tail (reading T.forms) ts.now) }
    ensures shorter { IfOk result (λ r. IfSome r (λ x. length x.2.now < length ts.now)) }
{
    let Some(ts) = behind_if(ts) else {
        return Ok(None);
    };
    let Some((test, ts)) = expression::<T>(alloc, Level::Disjunction, ts)? else {
        return Ok(None);
    };
    let Some(ts) = behind_else(ts) else {
        return Ok(None);
    };
    let Some((test, (no, ts))) = beside(test, expression::<T>(alloc, Level::Conditional, ts))?
    else {
        return Ok(None);
    };
    Ok(Some((test, no, ts)))
}

// An operator that only some kinds of expression have, and what stands behind it.
fn operator<'a, T: Forms>(
    alloc: Global,
    x: &T::Hole,
    rest: &'a [Terminal<T::Hole>],
) -> Result<Option<(Link<T::Operator>, &'a [Terminal<T::Hole>])>, NoMemory>
    ensures same { IfOk result
        (λ r. option_map (λ x. (link_of T.forms T.operation x.0, x.1.now)) r
        ≡ followed_by (T.forms.Operator x.now) rest.now) }
    ensures rest { IfOk result (λ r. IfSome r (λ x. x.1.now ≡ rest.now)) }
{
    match T::operator(alloc, x)? {
        None => Ok(None),
        Some(op) => Ok(Some((Link::Special(op), rest))),
    }
}

fn operator_at<'a, T: Forms>(
    alloc: Global,
    level: Level,
    x: &T::Hole,
    rest: &'a [Terminal<T::Hole>],
) -> Result<Option<(Link<T::Operator>, &'a [Terminal<T::Hole>])>, NoMemory>
    ensures same { IfOk result
        (λ r. option_map (λ x. (link_of T.forms T.operation x.0, x.1.now)) r
        ≡ operator_at T.forms level x.now rest.now) }
    ensures rest { IfOk result (λ r. IfSome r (λ x. x.1.now ≡ rest.now)) }
{
    match level {
        Level::Sum => operator::<T>(alloc, x, rest),
        _ => Ok(None),
    }
}

// What joins parts at the level, at the front, and what stands behind it.
fn joint_before<T: Forms>(
    alloc: Global,
    level: Level,
    ts: &[Terminal<T::Hole>],
) -> Result<Option<(Link<T::Operator>, &[Terminal<T::Hole>])>, NoMemory>
    ensures same { IfOk result
        (λ r. option_map (λ x. (link_of T.forms T.operation x.0, x.1.now)) r
        ≡ joint_before T.forms level ts.now) }
    ensures shorter { IfOk result (λ r. IfSome r (λ x. length x.1.now < length ts.now)) }
{
    match ts {
        [Terminal::Word(w), rest @ ..] => {
            let Some(joint) = joint_at(level, *w) else {
                return Ok(None);
            };
            Ok(Some((Link::Joint(joint), rest)))
        }
        [Terminal::Operator(x), rest @ ..] => operator_at::<T>(alloc, level, x, rest),
        _ => Ok(None),
    }
}

#[cycle(expression)]
fn joint_tail<T: Forms>(
    alloc: Global,
    level: Level,
    ts: &[Terminal<T::Hole>],
) -> Result<Option<(Link<T::Operator>, T, &[Terminal<T::Hole>])>, NoMemory>
    ensures same { IfOk result
        (λ r. option_map (λ x. (link_of T.forms T.operation x.0, T.plain x.1, x.2.now)) r
        ≡ joint_tail T.forms (reading T.forms) level ts.now) }
    ensures shorter { IfOk result (λ r. IfSome r (λ x. length x.2.now < length ts.now)) }
{
    let Some((link, ts)) = joint_before::<T>(alloc, level, ts)? else {
        return Ok(None);
    };
    let Some((link, (right, ts))) = beside(link, expression::<T>(alloc, level.above(), ts))? else {
        return Ok(None);
    };
    Ok(Some((link, right, ts)))
}

// Parts of the level above, joined from the left.
#[cycle(expression)]
fn chain<T: Forms>(
    alloc: Global,
    level: Level,
    ts: &[Terminal<T::Hole>],
) -> Result<Option<(T, &[Terminal<T::Hole>])>, NoMemory>
    requires { IsChain level }
    ensures same { IfOk result
        (λ r. option_map (λ x. (T.plain x.0, x.1.now)) r
        ≡ at_level T.forms (reading T.forms) level ts.now) }
    ensures shorter { IfOk result (λ r. IfSome r (λ x. length x.1.now < length ts.now)) }
{
    let Some((first, rest)) = expression::<T>(alloc, level.above(), ts)? else {
        return Ok(None);
    };
    let mut left = first;
    let mut rest = rest;
    while let Some((link, right, ts)) = joint_tail::<T>(alloc, level, rest)? {
        left = join(alloc, link, left, right)?;
        rest = ts;
    }
    Ok(Some((left, rest)))
}

// An operator before an expression of its own level, or an expression of the level above.
#[cycle(expression)]
fn prefixed<T: Forms>(
    alloc: Global,
    level: Level,
    ts: &[Terminal<T::Hole>],
) -> Result<Option<(T, &[Terminal<T::Hole>])>, NoMemory>
    requires { IsPrefix level }
    ensures same { IfOk result
        (λ r. option_map (λ x. (T.plain x.0, x.1.now)) r
        ≡ at_level T.forms (reading T.forms) level ts.now) }
    ensures shorter { IfOk result (λ r. IfSome r (λ x. length x.1.now < length ts.now)) }
{
    match (level, ts) {
        (Level::Negation, [Terminal::Word(Word::Not), ts @ ..]) => {
            let Some((e, rest)) = expression::<T>(alloc, level, ts)? else {
                return Ok(None);
            };
            Ok(Some((T::negation(alloc, e)?, rest)))
        }
        (Level::Unary, [Terminal::Word(Word::Minus), ts @ ..]) => {
            let Some((e, rest)) = expression::<T>(alloc, level, ts)? else {
                return Ok(None);
            };
            Ok(Some((T::minus(alloc, e)?, rest)))
        }
        _ => expression::<T>(alloc, level.above(), ts),
    }
}

// A comparison at the front, and what stands behind it.
fn comparison_at<X>(ts: &[Terminal<X>]) -> Option<(CmpOp, &[Terminal<X>])>
    ensures { option_map (λ x. (x.0, x.1.now)) result ≡ comparison_at ts.now }
{
    match ts {
        [Terminal::Word(Word::Equal), ts @ ..] => Some((CmpOp::Eq, ts)),
        [Terminal::Word(Word::NotEqual), ts @ ..] => Some((CmpOp::Ne, ts)),
        [Terminal::Word(Word::Less), ts @ ..] => Some((CmpOp::Lt, ts)),
        [Terminal::Word(Word::LessEqual), ts @ ..] => Some((CmpOp::Le, ts)),
        [Terminal::Word(Word::Greater), ts @ ..] => Some((CmpOp::Gt, ts)),
        [Terminal::Word(Word::GreaterEqual), ts @ ..] => Some((CmpOp::Ge, ts)),
        [Terminal::Word(Word::In), ts @ ..] => Some((CmpOp::Member, ts)),
        [Terminal::Word(Word::Not), Terminal::Word(Word::In), ts @ ..] => Some((
            CmpOp::NotMember,
            ts,
        )),
        _ => None,
    }
}

// A comparison that only some kinds of expression have, and what stands behind it.
fn comparator<'a, T: Forms>(
    alloc: Global,
    x: &T::Hole,
    rest: &'a [Terminal<T::Hole>],
) -> Result<Option<(Link<T::Operator>, &'a [Terminal<T::Hole>])>, NoMemory>
    ensures same { IfOk result
        (λ r. option_map (λ x. (link_of T.forms T.operation x.0, x.1.now)) r
        ≡ followed_by (T.forms.Comparator x.now) rest.now) }
    ensures rest { IfOk result (λ r. IfSome r (λ x. x.1.now ≡ rest.now)) }
{
    match T::comparator(alloc, x)? {
        None => Ok(None),
        Some(op) => Ok(Some((Link::Special(op), rest))),
    }
}

// What compares parts, at the front, and what stands behind it.
fn comparator_at<T: Forms>(
    alloc: Global,
    ts: &[Terminal<T::Hole>],
) -> Result<Option<(Link<T::Operator>, &[Terminal<T::Hole>])>, NoMemory>
    ensures same { IfOk result
        (λ r. option_map (λ x. (link_of T.forms T.operation x.0, x.1.now)) r
        ≡ comparator_at T.forms ts.now) }
    ensures shorter { IfOk result (λ r. IfSome r (λ x. length x.1.now < length ts.now)) }
{
    match ts {
        [Terminal::Comparator(x), rest @ ..] => comparator::<T>(alloc, x, rest),
        _ => {
            let Some((op, rest)) = comparison_at(ts) else {
                return Ok(None);
            };
            Ok(Some((Link::Joint(Joint::Cmp(op)), rest)))
        }
    }
}

#[cycle(expression)]
fn comparison_tail<T: Forms>(
    alloc: Global,
    ts: &[Terminal<T::Hole>],
) -> Result<Option<(Link<T::Operator>, T, &[Terminal<T::Hole>])>, NoMemory>
    ensures same { IfOk result
        (λ r. option_map (λ x. (link_of T.forms T.operation x.0, T.plain x.1, x.2.now)) r
        ≡ comparison_tail T.forms (reading T.forms) ts.now) }
    ensures shorter { IfOk result (λ r. IfSome r (λ x. length x.2.now < length ts.now)) }
{
    let Some((link, ts)) = comparator_at::<T>(alloc, ts)? else {
        return Ok(None);
    };
    let Some((link, (right, ts))) = beside(link, expression::<T>(alloc, Level::Sum, ts))? else {
        return Ok(None);
    };
    Ok(Some((link, right, ts)))
}

#[cycle(expression)]
fn comparison<T: Forms>(
    alloc: Global,
    ts: &[Terminal<T::Hole>],
) -> Result<Option<(T, &[Terminal<T::Hole>])>, NoMemory>
    ensures same { IfOk result
        (λ r. option_map (λ x. (T.plain x.0, x.1.now)) r
        ≡ at_level T.forms (reading T.forms) level.Comparison ts.now) }
    ensures shorter { IfOk result (λ r. IfSome r (λ x. length x.1.now < length ts.now)) }
{
    let Some((left, rest)) = expression::<T>(alloc, Level::Sum, ts)? else {
        return Ok(None);
    };
    match comparison_tail::<T>(alloc, rest)? {
        None => Ok(Some((left, rest))),
        Some((link, right, end)) => Ok(Some((join(alloc, link, left, right)?, end))),
    }
}

#[cycle(expression)]
fn power<T: Forms>(
    alloc: Global,
    ts: &[Terminal<T::Hole>],
) -> Result<Option<(T, &[Terminal<T::Hole>])>, NoMemory>
    ensures same { IfOk result
        (λ r. option_map (λ x. (T.plain x.0, x.1.now)) r
        ≡ at_level T.forms (reading T.forms) level.Power ts.now) }
    ensures shorter { IfOk result (λ r. IfSome r (λ x. length x.1.now < length ts.now)) }
{
    let Some((base, rest)) = expression::<T>(alloc, Level::Postfix, ts)? else {
        return Ok(None);
    };
    let Some(behind) = behind_power(rest) else {
        return Ok(Some((base, rest)));
    };
    let Some((exponent, end)) = expression::<T>(alloc, Level::Unary, behind)? else {
        return Ok(Some((base, rest)));
    };
    Ok(Some((T::arith(alloc, ArithOp::Power, base, exponent)?, end)))
}

#[cycle(expression)]
fn postfix<T: Forms>(
    alloc: Global,
    ts: &[Terminal<T::Hole>],
) -> Result<Option<(T, &[Terminal<T::Hole>])>, NoMemory>
    ensures same { IfOk result
        (λ r. option_map (λ x. (T.plain x.0, x.1.now)) r
        ≡ at_level T.forms (reading T.forms) level.Postfix ts.now) }
    ensures shorter { IfOk result (λ r. IfSome r (λ x. length x.1.now < length ts.now)) }
{
    let Some((first, rest)) = expression::<T>(alloc, Level::Atom, ts)? else {
        return Ok(None);
    };
    let mut value = first;
    let mut rest = rest;
    while let Some((behind, ts)) = suffix_at::<T>(alloc, rest)? {
        value = with_suffix(alloc, value, behind)?;
        rest = ts;
    }
    Ok(Some((value, rest)))
}

#[cycle(expression)]
fn suffix_at<T: Forms>(
    alloc: Global,
    ts: &[Terminal<T::Hole>],
) -> Result<Option<(Suffix<T>, &[Terminal<T::Hole>])>, NoMemory>
    ensures same { IfOk result
        (λ r. option_map (λ x. (suffix_of T.plain x.0, x.1.now)) r
        ≡ suffix_at (reading T.forms) ts.now) }
    ensures shorter { IfOk result (λ r. IfSome r (λ x. length x.1.now < length ts.now)) }
{
    let Some(ts) = behind_bracket(ts) else {
        return Ok(None);
    };
    if let Some(ts) = behind_colon(ts) {
        let Some((to, rest)) = second_end::<T>(alloc, ts)? else {
            return Ok(None);
        };
        return Ok(Some((Suffix::Slice(None, to), rest)));
    }
    let Some((index, ts)) = expression::<T>(alloc, Level::Conditional, ts)? else {
        return Ok(None);
    };
    if let Some(rest) = behind_closing(Bracket::Square, ts) {
        return Ok(Some((Suffix::Index(index), rest)));
    }
    let Some(ts) = behind_colon(ts) else {
        return Ok(None);
    };
    let Some((index, (to, rest))) = beside(index, second_end::<T>(alloc, ts))? else {
        return Ok(None);
    };
    Ok(Some((Suffix::Slice(Some(index), to), rest)))
}

// The second end of a slice, and the closing bracket.
#[cycle(expression)]
fn second_end<T: Forms>(
    alloc: Global,
    ts: &[Terminal<T::Hole>],
) -> Result<Option<(Option<T>, &[Terminal<T::Hole>])>, NoMemory>
    ensures same { IfOk result
        (λ r. option_map (λ x. (option_map T.plain x.0, x.1.now)) r
        ≡ second_end (reading T.forms) ts.now) }
    ensures shorter { IfOk result (λ r. IfSome r (λ x. length x.1.now < length ts.now)) }
{
    if let Some(rest) = behind_closing(Bracket::Square, ts) {
        return Ok(Some((None, rest)));
    }
    let Some((to, ts)) = expression::<T>(alloc, Level::Conditional, ts)? else {
        return Ok(None);
    };
    Ok(behind_closing(Bracket::Square, ts).map(|rest| (Some(to), rest)))
}

// A hole, and what stands behind it.
fn special<'a, T: Forms>(
    alloc: Global,
    hole: &T::Hole,
    rest: &'a [Terminal<T::Hole>],
) -> Result<Option<(T, &'a [Terminal<T::Hole>])>, NoMemory>
    ensures same { IfOk result
        (λ r. option_map (λ x. (T.plain x.0, x.1.now)) r ≡ special T.forms hole.now rest.now) }
    ensures rest { IfOk result (λ r. IfSome r (λ x. x.1.now ≡ rest.now)) }
{
    match T::hole(alloc, hole)? {
        None => Ok(None),
        Some(e) => Ok(Some((e, rest))),
    }
}

#[cycle(expression)]
fn atom<T: Forms>(
    alloc: Global,
    ts: &[Terminal<T::Hole>],
) -> Result<Option<(T, &[Terminal<T::Hole>])>, NoMemory>
    ensures same { IfOk result
        (λ r. option_map (λ x. (T.plain x.0, x.1.now)) r ≡ atom T.forms (reading T.forms) ts.now) }
    ensures shorter { IfOk result (λ r. IfSome r (λ x. length x.1.now < length ts.now)) }
{
    match ts {
        [Terminal::Number(n), rest @ ..] => Ok(Some((T::int(*n), rest))),
        [Terminal::Text(cs), rest @ ..] => Ok(Some((T::text(cs.copy()?), rest))),
        [Terminal::Word(Word::True), rest @ ..] => Ok(Some((T::truth(true), rest))),
        [Terminal::Word(Word::False), rest @ ..] => Ok(Some((T::truth(false), rest))),
        [Terminal::Special(x), rest @ ..] => special(alloc, x, rest),
        [Terminal::Name(x), rest @ ..] => name_or_call(alloc, x, rest),
        [Terminal::Word(Word::LeftBracket), ts @ ..] => {
            let Some((items, rest)) = elements::<T>(alloc, Bracket::Square, ts)? else {
                return Ok(None);
            };
            Ok(Some((T::list(items), rest)))
        }
        [Terminal::Word(Word::LeftBrace), ts @ ..] => set(alloc, ts),
        [Terminal::Word(Word::LeftParen), ts @ ..] => parenthesized(alloc, ts),
        _ => Ok(None),
    }
}

// A name, and the arguments of its call if they follow.
#[cycle(expression)]
fn name_or_call<'a, T: Forms>(
    alloc: Global,
    name: &Name,
    ts: &'a [Terminal<T::Hole>],
) -> Result<Option<(T, &'a [Terminal<T::Hole>])>, NoMemory>
    ensures same { IfOk result
        (λ r. option_map (λ x. (T.plain x.0, x.1.now)) r
        ≡ Some (name_or_call T.forms (reading T.forms) name.now ts.now)) }
    ensures shorter { IfOk result (λ r. IfSome r (λ x. length x.1.now ≤ length ts.now)) }
{
    if let [Terminal::Word(Word::LeftParen), inside @ ..] = ts {
        if let Some((arguments, rest)) = elements::<T>(alloc, Bracket::Round, inside)? {
            return Ok(Some((T::call(name.copy()?, arguments), rest)));
        }
    }
    Ok(Some((T::name(name.copy()?), ts)))
}

#[cycle(expression)]
fn parenthesized<T: Forms>(
    alloc: Global,
    ts: &[Terminal<T::Hole>],
) -> Result<Option<(T, &[Terminal<T::Hole>])>, NoMemory>
    ensures same { IfOk result
        (λ r. option_map (λ x. (T.plain x.0, x.1.now)) r ≡ parenthesized (reading T.forms) ts.now) }
    ensures shorter { IfOk result (λ r. IfSome r (λ x. length x.1.now < length ts.now)) }
{
    let Some((e, ts)) = expression::<T>(alloc, Level::Conditional, ts)? else {
        return Ok(None);
    };
    Ok(behind_closing(Bracket::Round, ts).map(|rest| (e, rest)))
}

// A set, where it may stand, behind its opening brace.
#[cycle(expression)]
fn set<T: Forms>(
    alloc: Global,
    ts: &[Terminal<T::Hole>],
) -> Result<Option<(T, &[Terminal<T::Hole>])>, NoMemory>
    ensures same { IfOk result
        (λ r. option_map (λ x. (T.plain x.0, x.1.now)) r ≡ set T.forms (reading T.forms) ts.now) }
    ensures shorter { IfOk result (λ r. IfSome r (λ x. length x.1.now < length ts.now)) }
{
    let Some((items, rest)) = elements::<T>(alloc, Bracket::Curly, ts)? else {
        return Ok(None);
    };
    match T::set(items) {
        None => Ok(None),
        Some(e) => Ok(Some((e, rest))),
    }
}

// Expressions joined by commas, up to the closing bracket.
#[cycle(expression)]
fn elements<T: Forms>(
    alloc: Global,
    bracket: Bracket,
    ts: &[Terminal<T::Hole>],
) -> Result<Option<(Vec<T>, &[Terminal<T::Hole>])>, NoMemory>
    ensures same { IfOk result
        (λ r. option_map (λ x. (map T.plain x.0.items, x.1.now)) r
        ≡ elements (reading T.forms) bracket ts.now) }
    ensures shorter { IfOk result (λ r. IfSome r (λ x. length x.1.now < length ts.now)) }
{
    let mut items = Vec::new(alloc);
    if let Some(rest) = behind_closing(bracket, ts) {
        return Ok(Some((items, rest)));
    }
    let mut ts = ts;
    while let Some((e, behind)) = expression::<T>(alloc, Level::Conditional, ts)? {
        items.push(e)?;
        if let Some(rest) = behind_closing(bracket, behind) {
            return Ok(Some((items, rest)));
        }
        let Some(next) = behind_comma(behind) else {
            return Ok(None);
        };
        ts = next;
    }
    Ok(None)
}
