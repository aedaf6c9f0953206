//! A resolution by its number, one node at a time.
ghost use Rattle.std.specs.Prelude.{◌≡◌, ◌<◌, ℕ, IsSome, Some, length, slice_get};
ghost use Rattle.choice_tree.specs.Drafts.{bound_term};
ghost use Rattle.choice_tree.specs.Heads.{HasParts, head_kind};
ghost use Rattle.choice_tree.specs.RuleViews.{template_of};
ghost use Rattle.choice_tree.specs.Templates.{Template, exactly, hole, one_arith, one_comparison};
ghost use Rattle.choice_tree.specs.Templates.{some_local};
ghost use Rattle.choice_tree.specs.Matching.{Bindings};
ghost use Rattle.eml_match.specs.Parts.{template_parts};
ghost use Rattle.eml_match.specs.Resolutions.{Locals, count};
ghost use Rattle.eml_instances.specs.Resolving.{Gives, IsOperator, IsSet, kind_number};
ghost use Rattle.eml_instances.specs.Resolving.{node_kind, part_number, template_kinds};
ghost use Rattle.eml_instances.specs.Substitutions.{bindings_in, locals_in};

use crate::standings::Substitution;
use choice_tree::{ArithOps, CmpOps, Head, Meta, PArith, PCmp, PExpr};
use eml_match::Bound;
use eml_match::parts::element;
use eml_match::pattern_parts::{pattern_part, set_element};
use mpy_tree::{Expr, Name};

/// What stands at the root of a resolution.
#[derive(Clone, Copy, Drop)]
pub enum Resolved<'a> {
    /// a bound term that is to be rewritten again
    Again(&'a Expr),
    /// the target of a statement, which is to be rewritten again
    AgainName(&'a Name),
    /// a bound term as it was bound
    Term(&'a Expr),
    /// the target of a statement, or a local
    Name(&'a Name),
    /// a node over the parts of the side
    Node(Head<'a>),
    /// an element of a set, under its own number
    Element(&'a PExpr, u64),
}

impl<'a> Substitution<'a> {
    /// What stands at the root of the resolution with this number, counted from 0.
    pub fn resolved(&self, p: &'a PExpr, r: u64) -> Resolved<'a>
        requires within { r < count (template_of p.now) (locals_in self.now) (bindings_in
            self.now) }
        requires near { r < 64000064 }
        ensures { Gives result (template_of p.now) (locals_in self.now) (bindings_in self.now) r }
    {
        match p {
            PExpr::Meta(m) => self.bound_root(*m),
            PExpr::Local(m) => self.local_root(*m, r),
            PExpr::Set(_) => self.element_root(p, r),
            PExpr::Arith(PArith::Ops(ops), _, _) => self.arith_root(p, ops, r),
            PExpr::Cmp(PCmp::Ops(ops), _, _) => self.comparison_root(p, ops, r),
            PExpr::Arith(PArith::Meta(m), _, _) | PExpr::Cmp(PCmp::Meta(m), _, _) => {
                self.operator_root(p, *m, r)
            }
            PExpr::Int(n) => node(p, Head::Int(*n)),
            PExpr::Bool(b) => node(p, Head::Bool(*b)),
            PExpr::Text(t) => node(p, Head::Text(t)),
            PExpr::Name(x) => node(p, Head::Name(x)),
            PExpr::List(_) => node(p, Head::List),
            PExpr::Neg(_) => node(p, Head::Neg),
            PExpr::Not(_) => node(p, Head::Not),
            PExpr::And(_, _) => node(p, Head::And),
            PExpr::Or(_, _) => node(p, Head::Or),
            PExpr::Cond { .. } => node(p, Head::Cond),
            PExpr::Index(_, _) => node(p, Head::Index),
            PExpr::Slice(_, None, None) => node(p, Head::Slice(false, false)),
            PExpr::Slice(_, Some(_), None) => node(p, Head::Slice(true, false)),
            PExpr::Slice(_, None, Some(_)) => node(p, Head::Slice(false, true)),
            PExpr::Slice(_, Some(_), Some(_)) => node(p, Head::Slice(true, true)),
            PExpr::Call(f, _) => node(p, Head::Call(f)),
        }
    }

    /// The number of the part at a place, where the whole has this one.
    pub fn part_number(&self, p: &PExpr, i: usize, r: u64) -> u64
        requires within { r < count (template_of p.now) (locals_in self.now) (bindings_in
            self.now) }
        requires near { r < 64000064 }
        requires place { i < length (template_parts (template_of p.now)) }
        ensures number { result ≡ part_number (template_of p.now) (locals_in self.now) (bindings_in
            self.now) i r }
        ensures near { result < 64000064 }
        ensures below { (q : Template) → slice_get (template_parts (template_of p.now)) i ≡ Some q →
            result < count q (locals_in self.now) (bindings_in self.now) }
    {
        match pattern_part(p, i) {
            None => unreachable!(),
            Some(q) => {
                let behind = self.count_from(p, i + 1);
                let above = r / behind;
                if i == 0 {
                    let kinds = self.kinds_of(p);
                    above / kinds
                } else {
                    let own = self.count(q);
                    above % own
                }
            }
        }
    }

    // The number of the kind of a node.
    fn kind_number(&self, p: &PExpr, r: u64) -> u64
        requires within { r < count (template_of p.now) (locals_in self.now) (bindings_in
            self.now) }
        requires near { r < 64000064 }
        requires node { IsSome (node_kind (template_of p.now)) }
        ensures number { result ≡ kind_number (template_of p.now) (locals_in self.now) (bindings_in
            self.now) r }
        ensures below { result < template_kinds (template_of p.now) (bindings_in self.now) }
    {
        let behind = self.count_from(p, 1);
        let kinds = self.kinds_of(p);
        let above = r / behind;
        above % kinds
    }

    // What stands at the root where the kind is one of some operators.
    fn arith_root(&self, p: &PExpr, ops: &ArithOps, r: u64) -> Resolved<'a>
        requires within { r < count (template_of p.now) (locals_in self.now) (bindings_in
            self.now) }
        requires near { r < 64000064 }
        requires kind { node_kind (template_of p.now) ≡ Some (one_arith ops.now) }
        requires two { length (template_parts (template_of p.now)) ≡ 2 }
        ensures { Gives result (template_of p.now) (locals_in self.now) (bindings_in self.now) r }
    {
        let place = self.kind_number(p, r);
        Resolved::Node(Head::Arith(at(ops.items(), place)))
    }

    // Where it is one of some comparisons.
    fn comparison_root(&self, p: &PExpr, ops: &CmpOps, r: u64) -> Resolved<'a>
        requires within { r < count (template_of p.now) (locals_in self.now) (bindings_in
            self.now) }
        requires near { r < 64000064 }
        requires kind { node_kind (template_of p.now) ≡ Some (one_comparison ops.now) }
        requires two { length (template_parts (template_of p.now)) ≡ 2 }
        ensures { Gives result (template_of p.now) (locals_in self.now) (bindings_in self.now) r }
    {
        let place = self.kind_number(p, r);
        Resolved::Node(Head::Cmp(at(ops.items(), place)))
    }

    // Where it is what a metavariable stands for.
    fn operator_root(&self, p: &PExpr, m: Meta, r: u64) -> Resolved<'a>
        requires within { r < count (template_of p.now) (locals_in self.now) (bindings_in
            self.now) }
        requires near { r < 64000064 }
        requires kind { IsOperator m (node_kind (template_of p.now)) }
        requires two { length (template_parts (template_of p.now)) ≡ 2 }
        ensures { Gives result (template_of p.now) (locals_in self.now) (bindings_in self.now) r }
    {
        match self.find(m) {
            None => unreachable!(),
            Some(s) => match s.binding.bound {
                Bound::Arith(op) => Resolved::Node(Head::Arith(op)),
                Bound::Cmp(op) => Resolved::Node(Head::Cmp(op)),
                Bound::Term(_) | Bound::Name(_) => unreachable!(),
            },
        }
    }

    // Where it is a bound term.
    fn bound_root(&self, m: Meta) -> Resolved<'a>
        requires { 0 < length (bound_term (bindings_in self.now) m) }
        ensures { (r : ℕ) → Gives result (hole m) (locals_in self.now) (bindings_in self.now) r }
    {
        match self.find(m) {
            None => unreachable!(),
            Some(s) => match s.binding.bound {
                Bound::Term(e) => if m.primed {
                    Resolved::Again(e)
                } else {
                    Resolved::Term(e)
                },
                Bound::Name(x) => if m.primed {
                    Resolved::AgainName(x)
                } else {
                    Resolved::Name(x)
                },
                Bound::Arith(_) | Bound::Cmp(_) => unreachable!(),
            },
        }
    }

    // Where it is a local.
    fn local_root(&self, m: Meta, r: u64) -> Resolved<'a>
        requires { r < length (locals_in self.now m) }
        ensures { Gives result (some_local m) (locals_in self.now) (bindings_in self.now) r }
    {
        match self.find(m) {
            None => unreachable!(),
            Some(s) => Resolved::Name(at(s.locals.as_slice(), r)),
        }
    }

    // Where it is an element of a set.
    fn element_root(&self, p: &'a PExpr, r: u64) -> Resolved<'a>
        requires within { r < count (template_of p.now) (locals_in self.now) (bindings_in
            self.now) }
        requires near { r < 64000064 }
        requires set { IsSet (template_of p.now) }
        ensures { Gives result (template_of p.now) (locals_in self.now) (bindings_in self.now) r }
    {
        let mut i = 0usize;
        let mut n = r;
        'elements: loop {
            match set_element(p, i) {
                None => unreachable!(),
                Some(q) => {
                    let count = self.count(q);
                    if n < count {
                        return Resolved::Element(q, n);
                    }
                    n -= count;
                }
            }
            i += 1;
        }
    }
}

// The element with a number.
fn at<T: Copy>(xs: &[T], number: u64) -> T
    requires { number < length xs.now }
    ensures { slice_get xs.now number ≡ Some result }
{
    match element(xs, number as usize) {
        None => unreachable!(),
        Some(x) => *x,
    }
}

// A node of one kind.
fn node<'a>(p: &PExpr, head: Head<'a>) -> Resolved<'a>
    requires kind { node_kind (template_of p.now) ≡ Some (exactly (head_kind head)) }
    requires parts { HasParts (head_kind head) (length (template_parts (template_of p.now))) }
    ensures { (L : Locals) (β : Bindings) (r : ℕ) → Gives result (template_of p.now) L β r }
{
    Resolved::Node(head)
}
