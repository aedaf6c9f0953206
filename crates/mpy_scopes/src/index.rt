//! Names with their numbers.
ghost use Rattle.std.specs.Prelude.{◌≡◌, ◌++◌, ◌∷◌, [], ℕ, List, IfOk, IfSome, ◌<◌, length, map};
ghost use Rattle.std.specs.Prelude.{nat_eq};
ghost use Rattle.std.specs.Prelude.{if◌then◌else◌};
ghost use Rattle.std.specs.HashMap.{get};
ghost use Rattle.std.specs.Cmp.Lexicographic.{pointwise};
ghost use Rattle.mpy_tree.specs.Locals.{is_among};
ghost use Rattle.mpy_scopes.specs.Numbers.{position};
ghost use Rattle.mpy_scopes.specs.Seen.{name_of};
ghost use denote.Ref.{Bor};

use mpy_tree::{Name, NoMemory};
use std::alloc::Global;
use std::collections::HashMap;

/// Names, each once, in the order in which they came.
#[derive(Drop)]
pub struct Index<'a> {
    pub names: Vec<&'a Name>,
    numbers: HashMap<&'a [u8], usize>,
    ghost linked: { (q : Bor (List ℕ)) → get (λ a b. pointwise nat_eq a.now b.now) numbers q ≡
        position q.now (map name_of names.items) },
}

impl<'a> Index<'a> {
    /// No names.
    pub fn new(alloc: Global) -> Index<'a>
        ensures { map name_of result.names.items ≡ [] }
    {
        Index {
            names: Vec::new(alloc),
            numbers: HashMap::new(alloc),
        }
    }

    /// The place of a name, counted from 0.
    pub fn find(&self, x: &Name) -> Option<usize>
        ensures place { result ≡ position x.now (map name_of self.now.names.items) }
        ensures within { IfSome result (λ k. k < length self.now.names.items) }
    {
        self.numbers.get(x.bytes()).copied()
    }

    /// Whether a name is there.
    #[tactic(auto, using(crate::proofs::Positions::among_at))]
    pub fn has(&self, x: &Name) -> bool
        ensures { result ≡ is_among (map name_of self.now.names.items) x.now }
    {
        self.find(x).is_some()
    }

    /// With a name that may be there already.
    pub fn with(self, x: &'a Name) -> Result<Index<'a>, NoMemory>
        ensures { IfOk result (λ r. map name_of r.names.items ≡
            (if is_among (map name_of self.entry.names.items) x.now
            then map name_of self.entry.names.items
            else map name_of self.entry.names.items ++ x.now ∷ [])) }
    {
        if self.has(x) {
            return Ok(self);
        }
        self.and(x)
    }

    // With a name that isn't there.
    fn and(self, x: &'a Name) -> Result<Index<'a>, NoMemory>
        requires { position x.now (map name_of self.names.items) ≡ None }
        ensures { IfOk result (λ r. map name_of r.names.items ≡
            map name_of self.entry.names.items ++ x.now ∷ []) }
    {
        let Index {
            mut names,
            mut numbers,
        } = self;
        numbers.insert(x.bytes(), names.len())?;
        names.push(x)?;
        Ok(Index { names, numbers })
    }
}
