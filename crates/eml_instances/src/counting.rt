//! How many resolutions a right side has.
ghost use Rattle.std.specs.Prelude.{◌≡◌, ◌+◌, ◌*◌, length, drop};
ghost use Rattle.choice_tree.specs.RuleViews.{template_of};
ghost use Rattle.choice_tree.specs.Drafts.{bound_operator, bound_term};
ghost use Rattle.eml_match.specs.Resolutions.{count};
ghost use Rattle.eml_match.specs.Parts.{set_elements, template_parts};
ghost use Rattle.eml_instances.specs.Resolving.{counts_product, counts_sum, root_count, stopped};
ghost use Rattle.eml_instances.specs.Resolving.{template_kinds};
ghost use Rattle.eml_instances.specs.Substitutions.{bindings_in, locals_in};

use crate::standings::Substitution;
use choice_tree::{Meta, PArith, PCmp, PExpr};
use eml_match::Bound;
use eml_match::pattern_parts::{pattern_part, set_element};

// The number at which counts stop.
pub const MOST: u64 = 64_000_064;

impl Substitution<'_> {
    /// How many resolutions a side has, or 64,000,064 where there are more.
    pub fn count(&self, p: &PExpr) -> u64
        ensures { result ≡ stopped (count (template_of p.now) (locals_in self.now) (bindings_in
            self.now)) }
    {
        self.root_count(p)
    }

    // The same, by the counts of its parts or elements.
    #[cycle(count)]
    fn root_count(&self, p: &PExpr) -> u64
        ensures { result ≡ stopped (root_count (template_of p.now) (locals_in self.now) (bindings_in
            self.now)) }
    {
        match p {
            PExpr::Meta(m) => self.term_count(*m),
            PExpr::Local(m) => self.local_count(*m),
            PExpr::Set(_) => self.count_each(p),
            PExpr::Int(_)
            | PExpr::Bool(_)
            | PExpr::Text(_)
            | PExpr::Name(_)
            | PExpr::List(_)
            | PExpr::Neg(_)
            | PExpr::Not(_)
            | PExpr::Arith(_, _, _)
            | PExpr::Cmp(_, _, _)
            | PExpr::And(_, _)
            | PExpr::Or(_, _)
            | PExpr::Cond { .. }
            | PExpr::Index(_, _)
            | PExpr::Slice(_, _, _)
            | PExpr::Call(_, _) => self.node_count(p),
        }
    }

    // That of a node.
    #[cycle(count)]
    fn node_count(&self, p: &PExpr) -> u64
        ensures { result ≡ stopped (template_kinds (template_of p.now) (bindings_in self.now) *
            counts_product (template_parts (template_of p.now)) (locals_in self.now) (bindings_in
            self.now)) }
    {
        times(self.kinds_of(p), self.count_from(p, 0))
    }

    /// The product of the counts of the parts from a place on.
    #[cycle(count)]
    pub fn count_from(&self, p: &PExpr, first: usize) -> u64
        ensures { result ≡ stopped (counts_product (drop first (template_parts (template_of
            p.now))) (locals_in self.now) (bindings_in self.now)) }
    {
        let mut total = 1u64;
        let mut i = first;
        'parts: loop {
            match pattern_part(p, i) {
                None => return total,
                Some(q) => total = times(total, self.root_count(q)),
            }
            i += 1;
        }
    }

    // The sum of the counts of the elements of a set.
    #[cycle(count)]
    fn count_each(&self, p: &PExpr) -> u64
        ensures { result ≡ stopped (counts_sum (set_elements (template_of p.now)) (locals_in
            self.now) (bindings_in self.now)) }
    {
        let mut total = 0u64;
        let mut i = 0usize;
        'elements: loop {
            match set_element(p, i) {
                None => return total,
                Some(q) => total = plus(total, self.root_count(q)),
            }
            i += 1;
        }
    }

    // How many terms a metavariable stands for, 0 or 1.
    fn term_count(&self, m: Meta) -> u64
        ensures { result ≡ stopped (length (bound_term (bindings_in self.now) m)) }
    {
        match self.find(m) {
            None => 0,
            Some(s) => match s.binding.bound {
                Bound::Term(_) | Bound::Name(_) => 1,
                Bound::Arith(_) | Bound::Cmp(_) => 0,
            },
        }
    }

    // How many operators it stands for.
    fn operator_count(&self, m: Meta) -> u64
        ensures { result ≡ stopped (length (bound_operator (bindings_in self.now) m)) }
    {
        match self.find(m) {
            None => 0,
            Some(s) => match s.binding.bound {
                Bound::Term(_) | Bound::Name(_) => 0,
                Bound::Arith(_) | Bound::Cmp(_) => 1,
            },
        }
    }

    // How many locals it may be.
    fn local_count(&self, m: Meta) -> u64
        ensures { result ≡ stopped (length (locals_in self.now m)) }
    {
        match self.find(m) {
            None => 0,
            Some(s) => at_most(s.locals.len()),
        }
    }

    /// How many kinds a node may have.
    pub fn kinds_of(&self, p: &PExpr) -> u64
        ensures { result ≡ stopped (template_kinds (template_of p.now) (bindings_in self.now)) }
    {
        match p {
            PExpr::Arith(PArith::Ops(ops), _, _) => at_most(ops.items().len()),
            PExpr::Cmp(PCmp::Ops(ops), _, _) => at_most(ops.items().len()),
            PExpr::Arith(PArith::Meta(m), _, _) | PExpr::Cmp(PCmp::Meta(m), _, _) => {
                self.operator_count(*m)
            }
            PExpr::Int(_)
            | PExpr::Bool(_)
            | PExpr::Text(_)
            | PExpr::Name(_)
            | PExpr::List(_)
            | PExpr::Neg(_)
            | PExpr::Not(_)
            | PExpr::And(_, _)
            | PExpr::Or(_, _)
            | PExpr::Cond { .. }
            | PExpr::Index(_, _)
            | PExpr::Slice(_, _, _)
            | PExpr::Call(_, _)
            | PExpr::Meta(_)
            | PExpr::Set(_)
            | PExpr::Local(_) => 1,
        }
    }
}

// A count, a product and a sum of counts, each stopped.
fn at_most(n: usize) -> u64
    ensures { result ≡ stopped n }
{
    (n as u64).min(MOST)
}

fn times(a: u64, b: u64) -> u64
    ensures { result ≡ stopped (a * b) }
{
    a.saturating_mul(b).min(MOST)
}

fn plus(a: u64, b: u64) -> u64
    ensures { result ≡ stopped (a + b) }
{
    a.saturating_add(b).min(MOST)
}
