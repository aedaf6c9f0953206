//! How many members picks have, and how many bits number them.

ghost use Rattle.std.specs.Prelude.{◌≡◌, ◌<◌, ◌≤◌, ◌^◌, ℕ, IfOk, Some, length, slice_get};
ghost use Rattle.input_space.specs.SelectionBits.{member_bits};

use bit_words::NoMemory;
use selection_numbers::MemberCounts;
use std::alloc::AllocError;

/// The most members of a pick whose numbers 31 bits hold.
const MOST: usize = 2147483648;

/// As few bits as number so many members.
pub fn member_bits(members: usize) -> usize
    ensures value { result ≡ member_bits members }
    ensures least { (b : ℕ) → b < result → 2 ^ b < members }
{
    let mut count = 0;
    let mut reach = 1u128;
    while reach < members as u128 {
        reach += reach;
        count += 1;
    }
    count
}

/// How many members a pick has, its base among them. Where 31 bits don't number them, memory is
/// wanting too.
pub fn members_of(counts: &MemberCounts, pick: usize) -> Result<u32, NoMemory>
    requires { pick < length counts.now }
    ensures many { IfOk result (λ n. slice_get counts.now pick ≡ Some n) }
    ensures few { IfOk result (λ n. n ≤ MOST) }
{
    let others = counts.others(pick);
    if others >= MOST {
        return Err(AllocError);
    }
    Ok(others as u32 + 1)
}
