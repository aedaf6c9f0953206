//! Sharing of lists.
ghost use Rattle.std.specs.Prelude.{◌≡◌, [], map, option_map, if◌then◌else◌};
ghost use Rattle.std.specs.Option.{option_to_list};
ghost use Rattle.std.specs.List.{flat_map, list_any};
ghost use Rattle.mpy_tree.specs.View.{term_of, action_of, block_of, routine_of};
ghost use Rattle.mpy_tree.specs.Locals.{is_among};
ghost use Rattle.mpy_tree.specs.Leasts.{least};
ghost use Rattle.mpy_tree.specs.Rules.{single, type_in, is_type};
ghost use Rattle.mpy_tree.specs.Sites.{sites};
ghost use Rattle.mpy_scopes.specs.Seen.{site_of};
ghost use Rattle.mpy_tree.specs.Sharing.{opens, open_to, some_name, changes, changed_on, shared_by};
ghost use Rattle.mpy_tree.specs.Sharing.{shared_on, on_line_if};
ghost use Rattle.mpy_tree.specs.declared.typing.Ty.TheVariants.{List as listed};

use crate::walk::{Look, least_in};
use mpy_scopes::Site;
use mpy_tree::{Act, Expr, Func, Name, Names, Stmts, Ty};
use mpy_types::{Known, type_in};

/// Whether an expression is open to a name, if it is a list.
#[tactic(auto, using(crate::proofs::Leasts::in_either))]
pub fn opens(e: &Expr, x: &Name) -> bool
    ensures { result ≡ is_among (opens (term_of e.now)) x.now }
{
    match e {
        Expr::Name(y) => x.is(y),
        Expr::Cond { test: _, yes, no } => opens(yes, x) || opens(no, x),
        _ => false,
    }
}

/// Whether an expression is open to some name, if it is a list.
#[tactic(auto, using(crate::proofs::Leasts::some_of_either))]
pub fn opens_some(e: &Expr) -> bool
    ensures { result ≡ some_name (opens (term_of e.now)) }
{
    match e {
        Expr::Name(_) => true,
        Expr::Cond { test: _, yes, no } => opens_some(yes) || opens_some(no),
        _ => false,
    }
}

/// A function of a program whose types are known.
#[derive(Drop)]
pub struct Place<'a, K: Known> {
    pub known: &'a K,
    pub funcs: &'a [Func],
    pub func: usize,
}

impl<'a, K: Known> Place<'a, K> {
    /// Whether an expression is a list.
    pub fn is_list(&self, e: &Expr) -> bool
        ensures { result ≡ is_type listed (type_in (single (K.gives self.now.known.now))
            (map routine_of self.now.funcs.now) self.now.func (term_of e.now)) }
    {
        type_in(self.known, self.funcs, self.func, e) == Some(Ty::List)
    }

    /// The name whose list a statement changes in place.
    pub fn changed<'b>(&self, act: &'b Act) -> Option<&'b Name>
        ensures { option_to_list (option_map (λ x. x.now) result) ≡ changes
            (single (K.gives self.now.known.now)) (map routine_of self.now.funcs.now) self.now.func
            (action_of act.now) }
    {
        match act {
            Act::Put(x, _, _) | Act::AugmentAt(x, _, _, _) | Act::Append(x, _) => Some(x),
            Act::Augment(x, _, _) => {
                if self.known.local(self.func, x).only() == Some(Ty::List) {
                    Some(x)
                } else {
                    None
                }
            }
            _ => None,
        }
    }
}

/// In-place changes of what a list expression is open to.
#[derive(Drop)]
pub struct Changes<'a, K: Known> {
    pub place: &'a Place<'a, K>,
    pub list: &'a Expr,
}

impl<K: Known> Look for Changes<'_, K> {
    ghost lines = { λ s. changed_on (single (K.gives s.place.now.known.now))
        (map routine_of s.place.now.funcs.now) s.place.now.func (opens (term_of s.list.now)) };

    #[tactic(auto, unfolding(mpy_tree::specs::Leasts::least))]
    fn look(&self, s: Site<'_>) -> Option<u32> {
        match s {
            Site::Asks(_, _) => None,
            Site::Does(line, act) => {
                let x = self.place.changed(act)?;
                if opens(self.list, x) {
                    Some(line)
                } else {
                    None
                }
            }
        }
    }
}

/// The statements of a function that share a list.
#[derive(Drop)]
pub struct Shares<'a, K: Known> {
    pub place: Place<'a, K>,
    pub called: bool,
    pub params: &'a Names,
}

impl<K: Known> Look for Shares<'_, K> {
    ghost lines = { λ s. shared_on (single (K.gives s.place.known.now))
        (map routine_of s.place.funcs.now) s.place.func s.called s.params.now };

    #[tactic(auto, unfolding(mpy_tree::specs::Leasts::least))]
    fn look(&self, s: Site<'_>) -> Option<u32> {
        match s {
            Site::Asks(_, _) => None,
            Site::Does(line, act) => self.shared(line, act),
        }
    }
}

impl<K: Known> Shares<'_, K> {
    // The least line on which a statement shares.
    fn shared(&self, line: u32, act: &Act) -> Option<u32>
        ensures { result ≡ least (shared_by (single (K.gives self.now.place.known.now))
            (map routine_of self.now.place.funcs.now) self.now.place.func self.now.called
            self.now.params.now line (action_of act.now)) }
    {
        match act {
            Act::Assign(_, e) => on_line_if(opens_some(e) && self.place.is_list(e), line),
            Act::Return(Some(e)) => on_line_if(self.called && self.opens_param(e), line),
            Act::For(_, e, body) => self.changed_in(e, body),
            _ => on_line_if(self.called && self.changes_param(act), line),
        }
    }

    // Whether a list expression is open to a parameter.
    fn opens_param(&self, e: &Expr) -> bool
        ensures { result ≡ list_any (is_among self.now.params.now)
            (open_to (single (K.gives self.now.place.known.now))
            (map routine_of self.now.place.funcs.now) self.now.place.func (term_of e.now)) }
    {
        if !self.place.is_list(e) {
            return false;
        }
        opens_any(self.params.items(), e)
    }

    // Whether a statement changes a parameter in place.
    fn changes_param(&self, act: &Act) -> bool
        ensures { result ≡ list_any (is_among self.now.params.now)
            (changes (single (K.gives self.now.place.known.now))
            (map routine_of self.now.place.funcs.now) self.now.place.func (action_of act.now)) }
    {
        match self.place.changed(act) {
            None => false,
            Some(x) => is_among(self.params.items(), x),
        }
    }

    // The least line in a `for` on which what it goes over is changed in place.
    fn changed_in(&self, e: &Expr, body: &Stmts) -> Option<u32>
        ensures { result ≡ least (flat_map (changed_on (single (K.gives self.now.place.known.now))
            (map routine_of self.now.place.funcs.now) self.now.place.func
            (open_to (single (K.gives self.now.place.known.now))
            (map routine_of self.now.place.funcs.now) self.now.place.func (term_of e.now)))
            (sites (block_of body.now))) }
    {
        self.changed_if(self.place.is_list(e), e, body)
    }

    // The same of an expression that is a list or isn't.
    #[tactic(auto, using(crate::proofs::Leasts::nothing_changed))]
    fn changed_if(&self, is_open: bool, e: &Expr, body: &Stmts) -> Option<u32>
        ensures { result ≡ least (flat_map (changed_on (single (K.gives self.now.place.known.now))
            (map routine_of self.now.place.funcs.now) self.now.place.func
            (if is_open then opens (term_of e.now) else [])) (sites (block_of body.now))) }
    {
        if is_open {
            self.changed_inside(e, body)
        } else {
            None
        }
    }

    // The least line in a body on which a list is changed that an expression may be.
    fn changed_inside(&self, e: &Expr, body: &Stmts) -> Option<u32>
        ensures { result ≡ least (flat_map (changed_on (single (K.gives self.now.place.known.now))
            (map routine_of self.now.place.funcs.now) self.now.place.func (opens (term_of e.now)))
            (sites (block_of body.now))) }
    {
        let changes = Changes {
            place: &self.place,
            list: e,
        };
        least_in(&changes, body)
    }
}

/// The line, under a condition.
#[tactic(auto, unfolding(mpy_tree::specs::Leasts::least))]
pub fn on_line_if(holds: bool, line: u32) -> Option<u32>
    ensures { result ≡ least (on_line_if holds line) }
{
    if holds { Some(line) } else { None }
}

// Whether a name is among others.
fn is_among(names: &[Name], x: &Name) -> bool
    ensures { result ≡ is_among names.now x.now }
{
    for y in names {
        if x.is(y) {
            return true;
        }
    }
    false
}

// Whether a list expression is open to one of these names.
#[tactic(auto, using(crate::proofs::Leasts::any_of_either))]
fn opens_any(names: &[Name], e: &Expr) -> bool
    ensures { result ≡ list_any (is_among names.now) (opens (term_of e.now)) }
{
    match e {
        Expr::Name(y) => is_among(names, y),
        Expr::Cond { test: _, yes, no } => opens_any(names, yes) || opens_any(names, no),
        _ => false,
    }
}
