//! How many inputs there are.
ghost use Rattle.std.specs.Prelude.{◌≡◌, ◌≤◌, ◌*◌, ◌^◌, ◌-◌, suc, min, length};
ghost use Rattle.input_space.specs.Counts.{lists_count};
ghost use Rattle.input_space.specs.Inputs.{inputs, span, values_of};

use bounds_reader::{Bounds, Param};

/// No more inputs than this are counted.
pub const MOST_COUNTED: u64 = 1_000_000_000_000;

/// How many whole numbers there are from `low` to `high`.
pub(crate) fn span(low: i32, high: i32) -> u64
    ensures same { result ≡ span low high }
    ensures small { result ≤ 2 ^ 32 }
{
    if low <= high {
        (i64::from(high) - i64::from(low)) as u64 + 1
    } else {
        0
    }
}

fn product(a: u64, b: u64) -> u64
    ensures { result ≡ min (a * b) MOST_COUNTED }
{
    a.saturating_mul(b).min(MOST_COUNTED)
}

#[tactic(auto, using(crate::proofs::Totals::power_more))]
pub(crate) fn power(base: u64, exponent: u64) -> u64
    ensures { result ≡ min (base ^ exponent) MOST_COUNTED }
{
    let mut power = 1;
    for _turn in 0..exponent {
        power = product(power, base);
    }
    power
}

/// How many lengths there are from `least` to `most`.
pub(crate) fn lengths(least: u32, most: u32) -> u64
    ensures { result ≡ suc most - least }
{
    (u64::from(most) + 1).saturating_sub(u64::from(least))
}

// How many lists over so many elements have a length from `least` to `most`.
#[tactic(auto, using(crate::proofs::Totals::lists_more))]
fn lists_count(base: u64, least: u32, most: u32) -> u64
    ensures { result ≡ min (lists_count base least (suc most - least)) MOST_COUNTED }
{
    let mut count = 0;
    for k in 0..lengths(least, most) {
        count = (count + power(base, u64::from(least) + k)).min(MOST_COUNTED);
    }
    count
}

fn values_count(p: &Param) -> u64
    ensures { result ≡ min (length (values_of p.now)) MOST_COUNTED }
{
    match p {
        Param::Int { low, high } => span(*low, *high),
        Param::Bool => 2,
        Param::List {
            least,
            most,
            low,
            high,
        } => lists_count(span(*low, *high), *least, *most),
        Param::Text {
            least,
            most,
            alphabet,
        } => lists_count(alphabet.len() as u64, *least, *most),
    }
}

/// How many inputs these parameters have, or `MOST_COUNTED` where there are more.
pub(crate) fn count_of(params: &[Param]) -> u64
    ensures { result ≡ min (length (inputs params.now)) MOST_COUNTED }
{
    let mut count = 1;
    for p in params {
        count = product(count, values_count(p));
    }
    count
}

/// How many inputs there are within the bounds, or `MOST_COUNTED` where there are more.
pub fn inputs_count(b: &Bounds) -> u64
    ensures { result ≡ min (length (inputs b.now.params)) MOST_COUNTED }
{
    count_of(b.params.items())
}
