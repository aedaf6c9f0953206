//! How large a program may be, and the first line on which one is larger.
ghost use Rattle.std.specs.Prelude.{◌≡◌, ◌<◌, ◌≤◌, ◌++◌, ◌∷◌, IfNone, IfSome, drop, length, map};
ghost use Rattle.std.specs.Prelude.{nat_lt, take};
ghost use Rattle.std.specs.List.{flat_map, list_any};
ghost use Rattle.mpy_tree.specs.Leasts.{lesser, least};
ghost use Rattle.mpy_tree.specs.NameLengths.{is_long};
ghost use Rattle.mpy_tree.specs.View.{action_of, block_of, block_or_none, branch_of, branches_of};
ghost use Rattle.mpy_tree.specs.View.{end_by, maybe_term, routine_of, routines_of, statement_of};
ghost use Rattle.mpy_tree.specs.View.{term_of, terms_of};
ghost use Rattle.mpy_tree.specs.Trees.{most_depth, no_trees};
ghost use Rattle.mpy_tree.specs.Shapes.{shape_and, shapes};
ghost use Rattle.mpy_tree.specs.Sites.{all_nodes, end_nodes};
ghost use Rattle.mpy_limits.specs.Limits.{action_lines, all_statements, arms_lines};
ghost use Rattle.mpy_limits.specs.Limits.{block_lines, deeper, depth};
ghost use Rattle.mpy_limits.specs.Limits.{end_is_large, has_long, is_large, is_large_header};
ghost use Rattle.mpy_limits.specs.Limits.{is_long_node, last_lines, limit_lines, line_if};
ghost use Rattle.mpy_limits.specs.Limits.{nth_or_left, routine_lines, statements, statements_in};
ghost use Rattle.mpy_limits.specs.Limits.{statements_last, statements_of, too_deep};

use mpy_tree::{Act, Arms, Expr, Exprs, Func, Name, Prog, Stmts};

const MAX_DEPTH: u32 = 32;

const MAX_NESTING: u32 = 8;

const MAX_STATEMENTS: usize = 200;

const MAX_PARAMS: usize = 6;

const MAX_FUNCTIONS: usize = 8;

// Whether an expression is deeper than a limit.
#[cycle(depth)]
#[tactic(auto, using(crate::proofs::Depths::depths))]
fn is_deeper(e: &Expr, limit: u32) -> bool
    ensures { result ≡ nat_lt limit (depth (term_of e.now)) }
{
    if limit == 0 {
        return true;
    }
    let rest = limit - 1;
    match e {
        Expr::Int(_) | Expr::Bool(_) | Expr::Text(_) | Expr::Name(_) => false,
        Expr::List(es) => some_is_deeper(es, rest),
        Expr::Neg(a) | Expr::Not(a) => is_deeper(a, rest),
        Expr::Arith(_, a, b) | Expr::Cmp(_, a, b) => is_deeper(a, rest) || is_deeper(b, rest),
        Expr::And(a, b) | Expr::Or(a, b) | Expr::Index(a, b) => is_deeper(a, rest)
            || is_deeper(b, rest),
        Expr::Cond { test, yes, no } => {
            is_deeper(yes, rest) || is_deeper(test, rest) || is_deeper(no, rest)
        }
        Expr::Slice(a, from, to) => {
            is_deeper(a, rest) || end_is_deeper(from, rest) || end_is_deeper(to, rest)
        }
        Expr::Call(_, es) => some_is_deeper(es, rest),
    }
}

// Whether some expression is deeper than a limit.
#[cycle(depth)]
#[tactic(auto, using(crate::proofs::Depths::max_depth))]
fn some_is_deeper(es: &Exprs, limit: u32) -> bool
    ensures { result ≡ nat_lt limit (most_depth (shapes (terms_of es.now))) }
{
    for e in &es.items {
        if is_deeper(e, limit) {
            return true;
        }
    }
    false
}

// Whether there is an end of a slice that is deeper than a limit.
#[cycle(depth)]
fn end_is_deeper(e: &Option<Box<Expr>>, limit: u32) -> bool
    ensures { result
        ≡ nat_lt limit (most_depth (shape_and (end_by (λ b. term_of b.value) e.now) no_trees)) }
{
    match e {
        None => false,
        Some(e) => is_deeper(e, limit),
    }
}

// Whether some name is too long.
fn some_is_long(names: &[Name]) -> bool
    ensures { result ≡ list_any is_long names.now }
{
    names.iter().any(|x| x.is_long())
}

// Whether some name of an expression is too long.
#[cycle(names)]
#[tactic(auto, using(crate::proofs::LongNames::long_names))]
fn has_long(e: &Expr) -> bool
    ensures { result ≡ has_long (term_of e.now) }
{
    match e {
        Expr::Int(_) | Expr::Bool(_) | Expr::Text(_) => false,
        Expr::Name(x) => x.is_long(),
        Expr::List(es) => some_has_long(es),
        Expr::Neg(a) | Expr::Not(a) => has_long(a),
        Expr::Arith(_, a, b) | Expr::Cmp(_, a, b) => has_long(a) || has_long(b),
        Expr::And(a, b) | Expr::Or(a, b) | Expr::Index(a, b) => has_long(a) || has_long(b),
        Expr::Cond { test, yes, no } => has_long(yes) || has_long(test) || has_long(no),
        Expr::Slice(a, from, to) => has_long(a) || end_has_long(from) || end_has_long(to),
        Expr::Call(f, es) => f.is_long() || some_has_long(es),
    }
}

// Whether some name of some expression is too long.
#[cycle(names)]
#[tactic(auto, using(crate::proofs::LongNames::long_of_two))]
fn some_has_long(es: &Exprs) -> bool
    ensures { result ≡ list_any is_long_node (all_nodes (terms_of es.now)) }
{
    for e in &es.items {
        if has_long(e) {
            return true;
        }
    }
    false
}

// Whether some name of an end of a slice is too long.
#[cycle(names)]
fn end_has_long(e: &Option<Box<Expr>>) -> bool
    ensures { result ≡ list_any is_long_node (end_nodes (end_by (λ b. term_of b.value) e.now)) }
{
    match e {
        None => false,
        Some(e) => has_long(e),
    }
}

// Whether an expression passes a limit.
fn is_large(e: &Expr) -> bool
    ensures { result ≡ is_large (term_of e.now) }
{
    is_deeper(e, MAX_DEPTH) || has_long(e)
}

// Whether the expression of a `return` passes a limit.
fn end_is_large(e: &Option<Expr>) -> bool
    ensures { result ≡ end_is_large (maybe_term e.now) }
{
    match e {
        None => false,
        Some(e) => is_large(e),
    }
}

// The lesser of the line found so far and another, where something is too large there.
fn with_line(found: Option<u32>, is_large: bool, line: u32) -> Option<u32>
    ensures { result ≡ lesser found (least (line_if is_large line)) }
{
    if !is_large {
        return found;
    }
    match found {
        None => Some(line),
        Some(first) => Some(first.min(line)),
    }
}

// Nesting one deeper, counted as far as matters.
fn deeper(nesting: u32) -> u32
    ensures { result ≡ deeper nesting }
{
    if nesting > MAX_NESTING {
        nesting
    } else {
        nesting + 1
    }
}

// The lesser of the line found so far and the first line on which a block passes a limit.
#[cycle(block)]
fn block_limit(found: Option<u32>, nesting: u32, body: &Stmts) -> Option<u32>
    ensures { result ≡ lesser found (least (block_lines nesting (block_of body.now))) }
{
    let mut found = found;
    for s in &body.items {
        found = action_limit(found, nesting, s.line, &s.act);
    }
    found
}

// The same of one statement.
#[cycle(block)]
#[tactic(auto, using(crate::proofs::Lines::no_lines))]
fn action_limit(found: Option<u32>, nesting: u32, line: u32, act: &Act) -> Option<u32>
    ensures { result ≡ lesser found (least (action_lines nesting line (action_of act.now))) }
{
    match act {
        Act::Assign(x, e) | Act::Augment(x, _, e) | Act::Append(x, e) => {
            with_line(found, x.is_long() || is_large(e), line)
        }
        Act::Put(x, i, e) | Act::AugmentAt(x, i, _, e) => {
            with_line(found, x.is_long() || is_large(i) || is_large(e), line)
        }
        Act::Print(e) => with_line(found, is_large(e), line),
        Act::Return(e) => with_line(found, end_is_large(e), line),
        Act::Pass | Act::Break | Act::Continue => found,
        Act::If(arms, last) => else_limit(arms_limit(found, nesting, arms), nesting, last),
        Act::While(e, body) => headed_limit(found, nesting, is_large(e), line, body),
        Act::For(x, e, body) => headed_limit(
            found,
            nesting,
            x.is_long() || is_large(e),
            line,
            body,
        ),
    }
}

// The same of the arms of an `if`.
#[cycle(block)]
fn arms_limit(found: Option<u32>, nesting: u32, arms: &Arms) -> Option<u32>
    ensures { result ≡ lesser found (least (arms_lines nesting (branches_of arms.now))) }
{
    let mut found = found;
    for arm in &arms.items {
        found = headed_limit(found, nesting, is_large(&arm.test), arm.line, &arm.body);
    }
    found
}

// The same of an `else`, which may be missing.
#[cycle(block)]
fn else_limit(found: Option<u32>, nesting: u32, last: &Option<Stmts>) -> Option<u32>
    ensures { result ≡ lesser found (least (last_lines nesting (block_or_none last.now))) }
{
    match last {
        None => found,
        Some(body) => inner_limit(found, deeper(nesting), body),
    }
}

// The same of a header and the block below it.
#[cycle(block)]
fn headed_limit(
    found: Option<u32>,
    nesting: u32,
    is_large: bool,
    line: u32,
    body: &Stmts,
) -> Option<u32>
    ensures { result
        ≡ lesser found
        (least (line_if is_large line ++ too_deep (deeper nesting) (block_of body.now)
        ++ block_lines (deeper nesting) (block_of body.now))) }
{
    let found = with_line(found, is_large, line);
    inner_limit(found, deeper(nesting), body)
}

// The same of an inner block, which may be nested too deep.
#[cycle(block)]
fn inner_limit(found: Option<u32>, nesting: u32, body: &Stmts) -> Option<u32>
    ensures { result
        ≡ lesser found
        (least (too_deep nesting (block_of body.now) ++ block_lines nesting (block_of body.now))) }
{
    let found = match body.items.first() {
        None => found,
        Some(s) => with_line(found, nesting > MAX_NESTING, s.line),
    };
    block_limit(found, nesting, body)
}

// The line of the n-th statement of a block, counted from 0 in the order of the text, or how far
// beyond the end it is.
#[cycle(statement)]
fn statement_at(body: &Stmts, n: usize) -> Result<u32, usize>
    ensures { result ≡ nth_or_left (statements (block_of body.now)) n }
{
    let mut left = n;
    for s in &body.items {
        if left == 0 {
            return Ok(s.line);
        }
        match statement_in(&s.act, left - 1) {
            Ok(line) => return Ok(line),
            Err(after) => left = after,
        }
    }
    Err(left)
}

// The same of the statements within a statement.
#[cycle(statement)]
fn statement_in(act: &Act, n: usize) -> Result<u32, usize>
    ensures { result ≡ nth_or_left (statements_in (action_of act.now)) n }
{
    match act {
        Act::If(arms, last) => match statement_in_arms(arms, n) {
            Ok(line) => Ok(line),
            Err(left) => statement_in_else(last, left),
        },
        Act::While(_, body) => statement_at(body, n),
        Act::For(_, _, body) => statement_at(body, n),
        _ => Err(n),
    }
}

// The same of the arms of an `if`.
#[cycle(statement)]
fn statement_in_arms(arms: &Arms, n: usize) -> Result<u32, usize>
    ensures { result ≡ nth_or_left (statements_of (branches_of arms.now)) n }
{
    let mut left = n;
    for arm in &arms.items {
        match statement_at(&arm.body, left) {
            Ok(line) => return Ok(line),
            Err(after) => left = after,
        }
    }
    Err(left)
}

// The same of an `else`, which may be missing.
#[cycle(statement)]
fn statement_in_else(last: &Option<Stmts>, n: usize) -> Result<u32, usize>
    ensures { result ≡ nth_or_left (statements_last (block_or_none last.now)) n }
{
    match last {
        None => Err(n),
        Some(body) => statement_at(body, n),
    }
}

// The line of the n-th statement of functions.
fn statement_of_functions(funcs: &[Func], n: usize) -> Result<u32, usize>
    ensures { result
        ≡ nth_or_left (flat_map (λ r. statements r.body) (map routine_of funcs.now)) n }
{
    let mut left = n;
    for f in funcs {
        match statement_at(&f.body, left) {
            Ok(line) => return Ok(line),
            Err(after) => left = after,
        }
    }
    Err(left)
}

// Whether the header of a function passes a limit.
fn is_large_header(f: &Func) -> bool
    ensures { result ≡ is_large_header (routine_of f.now) }
{
    f.params.items().len() > MAX_PARAMS || f.name.is_long() || some_is_long(f.params.items())
}

// The lesser of the line found so far and the first line on which a function passes a limit.
fn function_limit(found: Option<u32>, f: &Func) -> Option<u32>
    ensures { result ≡ lesser found (least (routine_lines (routine_of f.now))) }
{
    let found = with_line(found, is_large_header(f), f.line);
    block_limit(found, 1, &f.body)
}

// The line of the first function too many.
fn function_too_many(funcs: &[Func]) -> Option<u32>
    ensures { result ≡ least (map (λ r. r.line) (take 1 (drop 8 (map routine_of funcs.now)))) }
{
    match funcs.get(MAX_FUNCTIONS) {
        None => None,
        Some(f) => Some(f.line),
    }
}

// The lesser of the line found so far and that of the first statement too many.
fn statement_too_many(found: Option<u32>, funcs: &[Func]) -> Option<u32>
    ensures { result
        ≡ lesser found
        (least (take 1 (drop 200 (flat_map (λ r. statements r.body) (map routine_of funcs.now))))) }
{
    match statement_of_functions(funcs, MAX_STATEMENTS) {
        Ok(line) => with_line(found, true, line),
        Err(_) => found,
    }
}

// The lesser of the line found so far and the first line on which some function passes a limit.
fn functions_limit(found: Option<u32>, funcs: &[Func]) -> Option<u32>
    ensures { result ≡ lesser found (least (flat_map routine_lines (map routine_of funcs.now))) }
{
    let mut found = found;
    for f in funcs {
        found = function_limit(found, f);
    }
    found
}

/// How many statements a program has, an `if` with all its arms being one; none where there are
/// more than a program may have.
pub fn statements_count(program: &Prog) -> Option<u32>
    ensures found { IfSome result (λ n. n ≡ length (all_statements (routines_of program.now))) }
    ensures few { IfSome result (λ n. n ≤ 200) }
    ensures none { IfNone result (200 < length (all_statements (routines_of program.now))) }
{
    match statement_of_functions(program.funcs.items.as_slice(), MAX_STATEMENTS) {
        Ok(_) => None,
        Err(left) => Some((MAX_STATEMENTS - left) as u32),
    }
}

/// The first line on which a program passes a limit, if it does.
pub fn limit_line(program: &Prog) -> Option<u32>
    ensures { result ≡ least (limit_lines (routines_of program.now)) }
{
    let funcs = program.funcs.items.as_slice();
    let found = statement_too_many(function_too_many(funcs), funcs);
    functions_limit(found, funcs)
}
