//! Functions that are called, and what builtins give.
ghost use Rattle.std.specs.Prelude.{◌≡◌, map, option_map};
ghost use Rattle.mpy_tree.specs.View.{routine_of};
ghost use Rattle.mpy_tree.specs.SetTypes.{builtin_gives, called};
ghost use Rattle.mpy_scopes.specs.Views.{callee_of};

use mpy_tree::{Builtin, Func, Name, Ty};

/// The type that a builtin gives.
pub fn builtin_gives(b: Builtin) -> Ty
    ensures { result ≡ builtin_gives b }
{
    match b {
        Builtin::Len | Builtin::Abs | Builtin::Min | Builtin::Max => Ty::Int,
        Builtin::Range => Ty::List,
    }
}

/// A function of a program with its number.
#[derive(Clone, Copy, Drop)]
pub struct Numbered<'a> {
    pub number: usize,
    pub func: &'a Func,
}

/// The first function of a name.
pub fn called<'a>(funcs: &'a [Func], f: &Name) -> Option<Numbered<'a>>
    ensures { option_map callee_of result ≡ called (map routine_of funcs.now) f.now }
{
    for (i, func) in funcs.iter().enumerate() {
        if f.is(&func.name) {
            return Some(Numbered { number: i, func });
        }
    }
    None
}
