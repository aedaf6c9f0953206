//! Whether values are the same bits, as far as a logic can tell.

ghost use Rattle.std.specs.Prelude.{IsTrue};
ghost use Rattle.bit_words.specs.Logic.{OwnsAll};
ghost use Rattle.sym_values.specs.Forms.{bits_of, joined, values_bits};
ghost use Rattle.sym_calls.specs.Alike.{AreAlike, BitsAlike, IsAlike, WordsAlike};

use bit_words::bits::Bits;
use bit_words::logic::Logic;
use bit_words::words::Words;
use sym_values::{SymValue, SymValues};

/// Whether two lists of bits are the same.
fn same_bits<L: Logic>(g: &L, v: &[L::Bit], w: &[L::Bit]) -> bool
    requires left { OwnsAll L.owns g.now v.now }
    requires right { OwnsAll L.owns g.now w.now }
    ensures { IsTrue result → BitsAlike L.reads g.now v.now w.now }
{
    if v.len() != w.len() {
        return false;
    }
    for i in 0..v.len() {
        if !g.same(v[i], w[i]) {
            return false;
        }
    }
    true
}

/// Whether two lists of words are.
fn same_words<L: Logic>(g: &L, v: &Words<L::Bit>, w: &Words<L::Bit>) -> bool
    requires left { OwnsAll L.owns g.now (joined v.now) }
    requires right { OwnsAll L.owns g.now (joined w.now) }
    ensures { IsTrue result → WordsAlike L.reads g.now v.now w.now }
{
    if v.len() != w.len() {
        return false;
    }
    for i in 0..v.len() {
        let one = v.at(i);
        let other = w.at(i);
        if !same_bits(g, one.as_slice(), other.as_slice()) {
            return false;
        }
    }
    true
}

/// Whether two lengths and two lists of words are.
fn same_parts<L: Logic>(
    g: &L,
    m: &Bits<L::Bit>,
    v: &Words<L::Bit>,
    n: &Bits<L::Bit>,
    w: &Words<L::Bit>,
) -> bool
    requires left_len { OwnsAll L.owns g.now m.now }
    requires left { OwnsAll L.owns g.now (joined v.now) }
    requires right_len { OwnsAll L.owns g.now n.now }
    requires right { OwnsAll L.owns g.now (joined w.now) }
    ensures lengths { IsTrue result → BitsAlike L.reads g.now m.now n.now }
    ensures items { IsTrue result → WordsAlike L.reads g.now v.now w.now }
{
    same_bits(g, m.as_slice(), n.as_slice()) && same_words(g, v, w)
}

/// Whether two values are.
fn same_value<L: Logic>(g: &L, x: &SymValue<L::Bit>, y: &SymValue<L::Bit>) -> bool
    requires left { OwnsAll L.owns g.now (bits_of x.now) }
    requires right { OwnsAll L.owns g.now (bits_of y.now) }
    ensures { IsTrue result → IsAlike L.reads g.now x.now y.now }
{
    match (x, y) {
        (SymValue::Int(v), SymValue::Int(w)) => same_bits(g, v.as_slice(), w.as_slice()),
        (SymValue::Bool(a), SymValue::Bool(b)) => g.same(*a, *b),
        (SymValue::List { len: m, items: v }, SymValue::List { len: n, items: w }) => {
            same_parts(g, m, v, n, w)
        }
        (SymValue::Text { len: m, items: v }, SymValue::Text { len: n, items: w }) => {
            same_parts(g, m, v, n, w)
        }
        _ => false,
    }
}

/// Whether the values of two lists are.
pub(crate) fn same_values<L: Logic>(g: &L, xs: &SymValues<L::Bit>, ys: &SymValues<L::Bit>) -> bool
    requires left { OwnsAll L.owns g.now (values_bits xs.now) }
    requires right { OwnsAll L.owns g.now (values_bits ys.now) }
    ensures { IsTrue result → AreAlike L.reads g.now xs.now ys.now }
{
    if xs.len() != ys.len() {
        return false;
    }
    for i in 0..xs.len() {
        let x = xs.at(i);
        let y = ys.at(i);
        if !same_value(g, x, y) {
            return false;
        }
    }
    true
}
