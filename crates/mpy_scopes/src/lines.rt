//! The sooner of lines.
ghost use Rattle.std.specs.Prelude.{◌≡◌, if◌then◌else◌};
ghost use Rattle.mpy_tree.specs.Leasts.{lesser};

/// The sooner of two lines.
pub fn sooner(one: Option<u32>, other: Option<u32>) -> Option<u32>
    ensures { result ≡ lesser one other }
{
    match (one, other) {
        (None, _) => other,
        (_, None) => one,
        (Some(m), Some(n)) => Some(m.min(n)),
    }
}

/// The sooner of two lines, under a condition.
pub fn sooner_if(first: Option<u32>, fault: bool, line: u32) -> Option<u32>
    ensures { result ≡ (if fault then lesser first (Some line) else first) }
{
    if fault {
        sooner(first, Some(line))
    } else {
        first
    }
}
