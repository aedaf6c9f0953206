//! Lists and texts by their parts.

ghost use Rattle.std.specs.Prelude.{◌≡◌};
ghost use Rattle.sym_values.specs.Forms.{HasLength};
ghost use Rattle.list_values.specs.Sequences.{items_of, len_of, of_kind};

use bit_lists::lists::ListParts;
use bit_words::bits::Bits;
use bit_words::words::Words;
use sym_values::SymValue;

/// The length and the items of a list or a text.
pub fn parts_of<B: Copy>(a: &SymValue<B>) -> ListParts<'_, B>
    requires { HasLength a.now }
    ensures len { result.len.now ≡ len_of a.now }
    ensures items { result.items.now ≡ items_of a.now }
{
    match a {
        SymValue::List { len, items } => ListParts { len, items },
        SymValue::Text { len, items } => ListParts { len, items },
        _ => unreachable!(),
    }
}

/// A value of the kind of another, with this length and these items.
pub fn like<B: Copy>(a: &SymValue<B>, len: Bits<B>, items: Words<B>) -> SymValue<B>
    ensures { result ≡ of_kind a.now len items }
{
    match a {
        SymValue::Text { .. } => SymValue::Text { len, items },
        _ => SymValue::List { len, items },
    }
}
