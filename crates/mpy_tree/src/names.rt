//! Names, and lists of them.
ghost use Rattle.std.specs.Prelude.{◌≡◌, ◌↔◌, ◌++◌, ◌∷◌, [], ℕ, List, IsTrue, IfOk, OnOk, nat_eq};
ghost use Rattle.std.specs.Cmp.Lexicographic.{pointwise};
ghost use Rattle.mpy_tree.specs.Locals.{place_of};
ghost use Rattle.mpy_tree.specs.NameLengths.{is_long};
ghost use Rattle.mpy_tree.specs.Names.{is_print};

use crate::NoMemory;
use std::alloc::Global;
use std::marker::Model;

/// A name of a source has at most this many bytes.
const MAX_BYTES: usize = 40;

/// The bytes of a name.
#[derive(Drop)]
pub struct Name {
    bytes: Vec<u8>,
}

impl Model for Name {
    ghost Value = { List ℕ };

    ghost view = { λ a. a.bytes.items };
}

impl Name {
    /// The name that has these bytes.
    pub fn from_vec(bytes: Vec<u8>) -> Name
        ensures { result ≡ bytes.items }
    {
        Name { bytes }
    }

    /// The bytes.
    pub fn bytes(&self) -> &[u8]
        ensures { result.now ≡ self.now }
    {
        self.bytes.as_slice()
    }

    /// The bytes, given back.
    pub fn into_vec(self) -> Vec<u8>
        ensures { result.items ≡ self }
    {
        self.bytes
    }

    /// Whether the name has more bytes than a name of a source may have.
    pub fn is_long(&self) -> bool
        ensures { result ≡ is_long self.now }
    {
        self.bytes.len() > MAX_BYTES
    }

    /// Whether it is the name of the statement `print(e)`.
    pub fn is_print(&self) -> bool
        ensures { result ≡ is_print self.now }
    {
        self.bytes() == b"print".as_slice()
    }

    /// Whether two names have the same bytes.
    #[inline]
    pub fn is(&self, other: &Name) -> bool
        ensures value { result ≡ pointwise nat_eq self.now other.now }
        ensures same { IsTrue result ↔ (self.now ≡ other.now) }
    {
        is_same(self.bytes(), other.bytes())
    }

    /// An equal name.
    pub fn copy(&self) -> Result<Name, NoMemory>
        ensures { IfOk result (λ n. n ≡ self.now) }
    {
        let bytes = self.bytes.clone()?;
        Ok(Name { bytes })
    }
}

// Whether these are the same bytes. Names are short, so one byte is compared after another here.
#[inline]
fn is_same(xs: &[u8], ys: &[u8]) -> bool
    ensures { result ≡ pointwise nat_eq xs.now ys.now }
{
    for (i, x) in xs.iter().enumerate() {
        match ys.get(i) {
            None => return false,
            Some(y) => {
                if *x != *y {
                    return false;
                }
            }
        }
    }
    xs.len() == ys.len()
}

/// A list of names.
#[derive(Drop)]
pub struct Names {
    items: Vec<Name>,
}

impl Model for Names {
    ghost Value = { List (List ℕ) };

    ghost view = { λ a. a.items.items };
}

impl Names {
    /// The list that has these names.
    pub fn from_vec(items: Vec<Name>) -> Names
        ensures { result ≡ items.items }
    {
        Names { items }
    }

    /// The names.
    pub fn items(&self) -> &[Name]
        ensures { result.now ≡ self.now }
    {
        self.items.as_slice()
    }

    /// Where a name stands first, if it does.
    pub fn place(&self, x: &Name) -> Option<usize>
        ensures { result ≡ place_of self.now x.now }
    {
        self.items.iter().position(|name| x.is(name))
    }

    /// The names, given back.
    pub fn into_vec(self) -> Vec<Name>
        ensures { result.items ≡ self }
    {
        self.items
    }

    /// An equal list.
    pub fn copy(&self) -> Result<Names, NoMemory>
        ensures { IfOk result (λ n. n ≡ self.now) }
    {
        let mut copies = Vec::new(*self.items.allocator());
        for x in &self.items {
            copies.push(x.copy()?)?;
        }
        Ok(Names { items: copies })
    }
}
