//! What fits the limits of a run.
ghost use Rattle.std.specs.Prelude.{◌≡◌, nat_le};
ghost use Rattle.std.specs.List.{list_all};
ghost use Rattle.mpy_tree.specs.Fitting.{value_fits};
ghost use Rattle.mpy_tree.specs.Operations.{fits};

use crate::limits::Limits;
use crate::value::Value;

impl Limits {
    /// Whether a number is one of the width.
    pub fn fits(&self, number: i32) -> bool
        ensures { result ≡ fits self.now number }
    {
        let half = 1i32 << (self.width - 1);
        -half <= number && number < half
    }

    // Whether each number is one of the width.
    fn fit(&self, numbers: &[i32]) -> bool
        ensures { result ≡ list_all (fits self.now) numbers.now }
    {
        numbers.iter().all(|n| self.fits(*n))
    }

    /// Whether a list may have so many elements, and a text so many characters.
    pub fn has_room(&self, length: usize) -> bool
        ensures { result ≡ nat_le length self.now.cap }
    {
        length <= self.cap as usize
    }
}

impl Value {
    /// Whether numbers are within the width, and a list or a text is no longer than the cap.
    pub fn fits(&self, limits: &Limits) -> bool
        ensures { result ≡ value_fits limits.now self.now }
    {
        match self {
            Value::Int(n) => limits.fits(*n),
            Value::Bool(_) => true,
            Value::List(l) => limits.has_room(l.len()) && limits.fit(l.items()),
            Value::Text(t) => limits.has_room(t.len()),
        }
    }
}
