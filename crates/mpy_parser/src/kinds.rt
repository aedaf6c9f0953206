//! Kinds of items.
ghost use Rattle.std.specs.Prelude.{◌≡◌};
ghost use Rattle.mpy_tree.specs.View.{action_of};
ghost use Rattle.mpy_parser.specs.Faults.{is_open, is_arm, goes_on_arm, is_function, is_loop};
ghost use Rattle.mpy_parser.specs.Faults.{leaves_turn, leaves};
ghost use Rattle.mpy_parser.specs.Views.{item_of};

use crate::items::{Header, Item};
use mpy_tree::Act;

/// A header with nothing behind its colon.
pub(crate) fn is_open(item: &Item) -> bool
    ensures { result ≡ is_open (item_of item.now) }
{
    matches!(item, Item::Headed(_, None))
}

/// An `if` or an `elif`.
pub(crate) fn is_arm(item: &Item) -> bool
    ensures { result ≡ is_arm (item_of item.now) }
{
    matches!(item, Item::Headed(Header::If(_) | Header::Elif(_), _))
}

/// An `elif` or an `else`.
pub(crate) fn goes_on_arm(item: &Item) -> bool
    ensures { result ≡ goes_on_arm (item_of item.now) }
{
    matches!(item, Item::Headed(Header::Elif(_) | Header::Else, _))
}

pub(crate) fn is_function(item: &Item) -> bool
    ensures { result ≡ is_function (item_of item.now) }
{
    matches!(item, Item::Headed(Header::Def(_, _), _))
}

pub(crate) fn is_loop(item: &Item) -> bool
    ensures { result ≡ is_loop (item_of item.now) }
{
    matches!(item, Item::Headed(Header::While(_) | Header::For(_, _), _))
}

fn leaves_turn(act: &Act) -> bool
    ensures { result ≡ leaves_turn (action_of act.now) }
{
    matches!(act, Act::Break | Act::Continue)
}

/// Whether the item is or has a `break` or a `continue`.
pub(crate) fn leaves(item: &Item) -> bool
    ensures { result ≡ leaves (item_of item.now) }
{
    match item {
        Item::Simple(act) => leaves_turn(act),
        Item::Headed(_, None) => false,
        Item::Headed(_, Some(act)) => leaves_turn(act),
    }
}
