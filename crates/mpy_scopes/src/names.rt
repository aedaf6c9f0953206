//! The locals of functions.
ghost use Rattle.std.specs.Prelude.{◌≡◌, ◌++◌, [], map, option_map, IfOk, OnOk};
ghost use Rattle.std.specs.Option.{option_to_list};
ghost use Rattle.std.specs.List.{flat_map, filter};
ghost use Rattle.mpy_tree.specs.View.{term_of, block_of, routine_of};
ghost use Rattle.mpy_tree.specs.Sites.{sites};
ghost use Rattle.mpy_tree.specs.Locals.{is_among, and_new, locals, site_assigned, site_changed};
ghost use Rattle.mpy_tree.specs.Locals.{site_names, node_names};
ghost use Rattle.mpy_scopes.specs.Seen.{name_of, site_of};

use crate::index::Index;
use crate::nodes::{Site, push_site_nodes};
use mpy_tree::{Act, Expr, Func, Name, NoMemory};
use std::alloc::Global;

/// The locals of a function whose statements these are, each once, in the order in which they first
/// appear.
pub fn locals<'a>(alloc: Global, func: &'a Func, seen: &[Site<'a>]) -> Result<Index<'a>, NoMemory>
    requires { map site_of seen.now ≡ sites (block_of func.now.body) }
    ensures { IfOk result (λ r. map name_of r.names.items ≡ locals (routine_of func.now)) }
{
    let assigned = all_assigned(alloc, seen)?;
    let names = all_names(alloc, seen)?;
    let index = with_local(params(alloc, func)?, &assigned, &names)?;
    Ok(index)
}

// The parameters, each once.
fn params<'a>(alloc: Global, func: &'a Func) -> Result<Index<'a>, NoMemory>
    ensures { IfOk result (λ r. map name_of r.names.items ≡ and_new [] func.now.params) }
{
    let mut index = Index::new(alloc);
    for x in func.params.items() {
        index = index.with(x)?;
    }
    Ok(index)
}

// The names to which statements assign, each once.
fn all_assigned<'a>(alloc: Global, seen: &[Site<'a>]) -> Result<Index<'a>, NoMemory>
    ensures { IfOk result (λ r. map name_of r.names.items ≡ and_new []
        (flat_map site_assigned (map site_of seen.now))) }
{
    let mut index = Index::new(alloc);
    for s in seen {
        if let Some(x) = assigned(*s) {
            index = index.with(x)?;
        }
    }
    Ok(index)
}

// The names of statements in the order in which they are written.
fn all_names<'a>(alloc: Global, seen: &[Site<'a>]) -> Result<Vec<&'a Name>, NoMemory>
    ensures { IfOk result (λ xs. map name_of xs.items
        ≡ flat_map site_names (map site_of seen.now)) }
{
    let mut names = Vec::new(alloc);
    for s in seen {
        push_names(alloc, *s, &mut names)?;
    }
    Ok(names)
}

// With those of some names that are assigned.
fn with_local<'a>(
    mut index: Index<'a>,
    assigned: &Index<'_>,
    names: &[&'a Name],
) -> Result<Index<'a>, NoMemory>
    ensures { IfOk result (λ r. map name_of r.names.items ≡ and_new
        (map name_of index.entry.names.items) (filter
        (is_among (map name_of assigned.now.names.items)) (map name_of names.now))) }
{
    for x in names {
        if assigned.has(x) {
            index = index.with(x)?;
        }
    }
    Ok(index)
}

/// The name to which a statement assigns.
pub fn assigned<'a>(s: Site<'a>) -> Option<&'a Name>
    ensures { option_to_list (option_map name_of result) ≡ site_assigned (site_of s.entry) }
{
    match s {
        Site::Does(_, Act::Assign(x, _))
        | Site::Does(_, Act::Augment(x, _, _))
        | Site::Does(_, Act::For(x, _, _)) => Some(x),
        _ => None,
    }
}

/// The name whose list a statement changes in place.
pub fn changed<'a>(s: Site<'a>) -> Option<&'a Name>
    ensures { option_to_list (option_map name_of result) ≡ site_changed (site_of s.entry) }
{
    match s {
        Site::Does(_, Act::Put(x, _, _))
        | Site::Does(_, Act::AugmentAt(x, _, _, _))
        | Site::Does(_, Act::Append(x, _)) => Some(x),
        _ => None,
    }
}

// Appends the names of a statement in the order in which they are written.
fn push_names<'a>(alloc: Global, s: Site<'a>, out: &mut Vec<&'a Name>) -> Result<(), NoMemory>
    ensures { OnOk result (map name_of out.new.items ≡ map name_of out.old.items ++ site_names
        (site_of s.entry)) }
{
    if let Some(x) = assigned(s) {
        out.push(x)?;
    }
    if let Some(x) = changed(s) {
        out.push(x)?;
    }
    let mut nodes = Vec::new(alloc);
    push_site_nodes(s, &mut nodes)?;
    for n in &nodes {
        push_name(n, out)?;
    }
    Ok(())
}

// Appends the name that a node is.
fn push_name<'a>(e: &'a Expr, out: &mut Vec<&'a Name>) -> Result<(), NoMemory>
    ensures { OnOk result (map name_of out.new.items ≡ map name_of out.old.items ++ node_names
        (term_of e.now)) }
{
    if let Expr::Name(x) = e {
        out.push(x)?;
    }
    Ok(())
}
