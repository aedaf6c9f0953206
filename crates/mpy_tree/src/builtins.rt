//! The builtin functions.
ghost use Rattle.std.specs.Prelude.{◌≡◌};
ghost use Rattle.mpy_tree.specs.Builtins.{builtin_name, builtin_of, takes};

/// A builtin function.
#[derive(Clone, Copy, PartialEq, Eq, Debug, Drop)]
pub enum Builtin {
    /// `len(v)`
    Len,
    /// `abs(a)`
    Abs,
    /// `min(a, b)`
    Min,
    /// `max(a, b)`
    Max,
    /// `range(b)`, `range(a, b)` and `range(a, b, c)`
    Range,
}

impl Builtin {
    /// The builtin of a name, if it is one's.
    pub fn of(name: &[u8]) -> Option<Builtin>
        ensures { result ≡ builtin_of name.now }
    {
        match name {
            b"len" => Some(Builtin::Len),
            b"abs" => Some(Builtin::Abs),
            b"min" => Some(Builtin::Min),
            b"max" => Some(Builtin::Max),
            b"range" => Some(Builtin::Range),
            _ => None,
        }
    }

    /// The name of the builtin.
    pub fn name(self) -> &'static [u8]
        ensures { result.now ≡ builtin_name self }
    {
        match self {
            Builtin::Len => b"len",
            Builtin::Abs => b"abs",
            Builtin::Min => b"min",
            Builtin::Max => b"max",
            Builtin::Range => b"range",
        }
    }

    /// Whether the builtin takes so many arguments.
    pub fn takes(self, arguments: usize) -> bool
        ensures { result ≡ takes self arguments }
    {
        match self {
            Builtin::Len | Builtin::Abs => arguments == 1,
            Builtin::Min | Builtin::Max => arguments == 2,
            Builtin::Range => 1 <= arguments && arguments <= 3,
        }
    }
}
