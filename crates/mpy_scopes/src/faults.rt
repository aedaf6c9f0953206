//! Faults of names and of numbers of arguments.
ghost use Rattle.std.specs.Prelude.{◌≡◌, ◌<◌, ◌^◌, ◌++◌, ◌∷◌, [], length, map, is_some, IfOk};
ghost use Rattle.std.specs.List.{list_any};
ghost use Rattle.mpy_tree.specs.Builtins.{builtin_of};
ghost use Rattle.mpy_tree.specs.Running.{found};
ghost use Rattle.mpy_tree.specs.View.{term_of, terms_of, block_of, routine_of};
ghost use Rattle.mpy_tree.specs.Sites.{sites};
ghost use Rattle.mpy_tree.specs.Locals.{is_among, locals};
ghost use Rattle.mpy_tree.specs.Names.{is_builtin, takes_so_many, takes_params, count, has_twice};
ghost use Rattle.mpy_tree.specs.Names.{is_name_fault, is_arity_fault, has_name_fault, is_print};
ghost use Rattle.mpy_tree.specs.Names.{is_taken, site_prints};
ghost use Rattle.mpy_tree.specs.Names.{has_arity_fault, lines_of, header_lines, name_lines};
ghost use Rattle.mpy_tree.specs.Names.{name_lines_from, arity_lines};
ghost use Rattle.mpy_tree.specs.Leasts.{least};
ghost use Rattle.mpy_tree.specs.Faults.{earlier, names_fault, entry_fault};
ghost use Rattle.mpy_scopes.specs.Seen.{name_of, site_of, node_of};

use crate::callees::called;
use crate::index::Index;
use crate::lines::{sooner, sooner_if};
use crate::names::changed;
use crate::nodes::{Site, push_site_nodes, push_sites};
use crate::scope::{Scope, Scopes};
use mpy_tree::{Act, Builtin, Cause, Expr, Exprs, Func, Name, NoMemory, TypeError};
use std::alloc::Global;

/// The least line of a fault of names or of numbers of arguments; on one line that of names.
pub fn names_fault(alloc: Global, scopes: &Scopes<'_>) -> Result<Option<TypeError>, NoMemory>
    ensures { IfOk result (λ e. e ≡ names_fault (map routine_of scopes.now.funcs.now)) }
{
    let names = least_name_line(alloc, scopes)?;
    let arities = least_arity_line(alloc, scopes.funcs)?;
    Ok(earlier(names, arities))
}

// The sooner of the two faults.
fn earlier(names: Option<u32>, arities: Option<u32>) -> Option<TypeError>
    ensures { result ≡ earlier names arities }
{
    let (cause, line) = match (names, arities) {
        (None, None) => return None,
        (Some(n), None) => (Cause::Name, n),
        (None, Some(a)) => (Cause::Arity, a),
        (Some(n), Some(a)) => {
            if a < n {
                (Cause::Arity, a)
            } else {
                (Cause::Name, n)
            }
        }
    };
    Some(TypeError::Fault { cause, line })
}

/// The fault of a program without the entry, or with one of another number of parameters.
pub fn entry_fault(funcs: &[Func], entry: &Name, params: usize) -> Option<TypeError>
    ensures { result ≡ entry_fault (found (map routine_of funcs.now) entry.now) params }
{
    for func in funcs {
        if entry.is(&func.name) {
            if func.params.items().len() == params {
                return None;
            }
            return Some(TypeError::Fault {
                cause: Cause::Entry,
                line: func.line,
            });
        }
    }
    Some(TypeError::Fault {
        cause: Cause::Entry,
        line: 1,
    })
}

// The least line of a fault of names.
#[tactic(auto, unfolding(mpy_tree::specs::Leasts::least), using(crate::proofs::Soonest::lesser_of_none))]
fn least_name_line(alloc: Global, scopes: &Scopes<'_>) -> Result<Option<u32>, NoMemory>
    ensures { IfOk result (λ r. r ≡ least (name_lines (map routine_of scopes.now.funcs.now))) }
{
    let mut first = None;
    let mut before = Vec::new(alloc);
    for scope in &scopes.items {
        let header = header_line(&before, scope.func);
        let inside = name_line_in(alloc, scopes.funcs, scope)?;
        first = sooner(sooner(first, header), inside);
        before.push(&scope.func.name)?;
    }
    Ok(first)
}

// The line of a `def` whose name is an earlier one's, a builtin's or `print`, or that has a
// parameter twice.
#[tactic(auto, unfolding(mpy_tree::specs::Leasts::least))]
fn header_line(before: &[&Name], func: &Func) -> Option<u32>
    ensures { result ≡ least (header_lines (map name_of before.now) (routine_of func.now)) }
{
    let name = &func.name;
    if is_among(before, name) || is_taken(name) || has_twice(func.params.items()) {
        Some(func.line)
    } else {
        None
    }
}

// Whether a name is among others.
fn is_among(names: &[&Name], x: &Name) -> bool
    ensures { result ≡ is_among (map name_of names.now) x.now }
{
    for y in names {
        if x.is(y) {
            return true;
        }
    }
    false
}

// Whether a name is there twice.
fn has_twice(names: &[Name]) -> bool
    ensures { result ≡ has_twice names.now }
{
    for (k, x) in names.iter().enumerate() {
        for y in &names[k + 1..] {
            if x.is(y) {
                return true;
            }
        }
    }
    false
}

// Whether no function may have the name.
fn is_taken(f: &Name) -> bool
    ensures { result ≡ is_taken f.now }
{
    is_builtin(f) || f.is_print()
}

// Whether it is the name of a builtin.
fn is_builtin(f: &Name) -> bool
    ensures { result ≡ is_builtin f.now }
{
    Builtin::of(f.bytes()).is_some()
}

// The least line of a function with a fault of names.
#[tactic(auto, unfolding(mpy_tree::specs::Leasts::least), using(crate::proofs::Soonest::lesser_of_none))]
fn name_line_in(alloc: Global, funcs: &[Func], scope: &Scope<'_>) -> Result<Option<u32>, NoMemory>
    ensures { IfOk result (λ r. r ≡ least (lines_of
        (has_name_fault (map routine_of funcs.now) (locals (routine_of scope.now.func.now)))
        (sites (block_of scope.now.func.now.body)))) }
{
    let mut seen = Vec::new(alloc);
    push_sites(&scope.func.body, &mut seen)?;
    let mut first = None;
    for s in &seen {
        let fault = has_name_fault(alloc, funcs, &scope.names, *s)?;
        first = sooner_if(first, fault, s.line());
    }
    Ok(first)
}

// Whether a statement of a function with these locals has a fault of names.
fn has_name_fault(
    alloc: Global,
    funcs: &[Func],
    names: &Index<'_>,
    s: Site<'_>,
) -> Result<bool, NoMemory>
    ensures { IfOk result (λ b. b ≡ has_name_fault (map routine_of funcs.now)
        (map name_of names.now.names.items) (site_of s.entry)) }
{
    if let Some(x) = changed(s) {
        if !names.has(x) {
            return Ok(true);
        }
    }
    if prints(s) && has_print(&names.names) {
        return Ok(true);
    }
    let mut nodes = Vec::new(alloc);
    push_site_nodes(s, &mut nodes)?;
    for n in &nodes {
        if is_name_fault(funcs, names, n) {
            return Ok(true);
        }
    }
    Ok(false)
}

// Whether a statement itself prints.
fn prints(s: Site<'_>) -> bool
    ensures { result ≡ site_prints (site_of s.entry) }
{
    matches!(s, Site::Does(_, Act::Print(_)))
}

// Whether `print` is among names.
fn has_print(names: &[&Name]) -> bool
    ensures { result ≡ list_any is_print (map name_of names.now) }
{
    for x in names {
        if x.is_print() {
            return true;
        }
    }
    false
}

// Whether a node is a name that isn't there, or a call of one.
fn is_name_fault(funcs: &[Func], names: &Index<'_>, e: &Expr) -> bool
    ensures { result ≡ is_name_fault (map routine_of funcs.now) (map name_of names.now.names.items)
        (term_of e.now) }
{
    match e {
        Expr::Name(x) => !names.has(x),
        Expr::Call(f, _) => names.has(f) || !is_builtin(f) && !is_there(funcs, f),
        _ => false,
    }
}

// Whether there is a function of a name.
fn is_there(funcs: &[Func], f: &Name) -> bool
    ensures { result ≡ is_some (found (map routine_of funcs.now) f.now) }
{
    for func in funcs {
        if f.is(&func.name) {
            return true;
        }
    }
    false
}

// The least line of a fault of numbers of arguments.
#[tactic(auto, unfolding(mpy_tree::specs::Leasts::least), using(crate::proofs::Soonest::lesser_of_none))]
fn least_arity_line(alloc: Global, funcs: &[Func]) -> Result<Option<u32>, NoMemory>
    ensures { IfOk result (λ r. r ≡ least (arity_lines (map routine_of funcs.now))) }
{
    let mut first = None;
    for func in funcs {
        first = sooner(first, arity_line_in(alloc, funcs, func)?);
    }
    Ok(first)
}

// The least line of a function with a fault of numbers of arguments.
#[tactic(auto, unfolding(mpy_tree::specs::Leasts::least), using(crate::proofs::Soonest::lesser_of_none))]
fn arity_line_in(alloc: Global, funcs: &[Func], func: &Func) -> Result<Option<u32>, NoMemory>
    ensures { IfOk result (λ r. r ≡ least (lines_of (has_arity_fault (map routine_of funcs.now))
        (sites (block_of func.now.body)))) }
{
    let mut seen = Vec::new(alloc);
    push_sites(&func.body, &mut seen)?;
    let mut first = None;
    for s in &seen {
        let fault = has_arity_fault(alloc, funcs, *s)?;
        first = sooner_if(first, fault, s.line());
    }
    Ok(first)
}

// Whether a statement has a fault of numbers of arguments.
fn has_arity_fault(alloc: Global, funcs: &[Func], s: Site<'_>) -> Result<bool, NoMemory>
    ensures { IfOk result (λ b. b ≡ has_arity_fault (map routine_of funcs.now) (site_of s.entry)) }
{
    let mut nodes = Vec::new(alloc);
    push_site_nodes(s, &mut nodes)?;
    for n in &nodes {
        if is_arity_fault(funcs, n) {
            return Ok(true);
        }
    }
    Ok(false)
}

// Whether a node is a call with a wrong number of arguments.
fn is_arity_fault(funcs: &[Func], e: &Expr) -> bool
    ensures { result ≡ is_arity_fault (map routine_of funcs.now) (term_of e.now) }
{
    match e {
        Expr::Call(f, es) => !takes_all(funcs, f, es),
        _ => false,
    }
}

// Whether a builtin or a function takes as many arguments as there are; of a name that isn't there
// nothing is asked.
#[tactic(auto, using(crate::proofs::Counting::args_of))]
fn takes_all(funcs: &[Func], f: &Name, es: &Exprs) -> bool
    ensures { result ≡ takes_so_many (builtin_of f.now) (found (map routine_of funcs.now) f.now)
        (count (terms_of es.now)) }
{
    let count = es.items.len();
    match Builtin::of(f.bytes()) {
        Some(b) => b.takes(count),
        None => takes_params(funcs, f, count),
    }
}

// Whether a function of the program takes so many arguments.
fn takes_params(funcs: &[Func], f: &Name, count: usize) -> bool
    ensures { result ≡ takes_params (found (map routine_of funcs.now) f.now) count }
{
    for func in funcs {
        if f.is(&func.name) {
            return count == func.params.items().len();
        }
    }
    true
}
