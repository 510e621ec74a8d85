//! Numbers classes in order of first occurrence.

ghost use Rattle.std.specs.Prelude.{◌≡◌, ℕ, ◌<◌, ◌^◌, length, slice_index, nat_lt, if◌then◌else◌, IfOk};
ghost use Rattle.cfi_types.specs.inner.Splitting.{IsLow};
ghost use Rattle.cfi_types.specs.Numbering.{AreNumbers};

use std::alloc::{AllocError, Global};

// The number of this leader, or the next one where it has none yet.
fn number_of(numbers: &[u32], leader: u32, next: u32) -> u32
    ensures { result ≡
        (if nat_lt leader (length numbers.now) then slice_index numbers.now leader else next) }
{
    if (leader as usize) < numbers.len() {
        return numbers[leader as usize];
    }
    next
}

// A number for each leader, in order of first occurrence; a leader is the least of its nodes.
pub(crate) fn number(alloc: Global, leaders: &[u32]) -> Result<Vec<u32>, AllocError>
    requires fits { length leaders.now < 2 ^ 32 }
    requires low { IsLow leaders.now }
    requires leader { (a : ℕ) → a < length leaders.now →
        slice_index leaders.now (slice_index leaders.now a) ≡ slice_index leaders.now a }
    ensures { IfOk result (λ numbers. AreNumbers leaders.now numbers.items) }
{
    let mut numbers = Vec::with_capacity(alloc, leaders.len())?;
    let mut count = 0u32;
    for leader in leaders {
        let number = number_of(numbers.as_slice(), *leader, count);
        numbers.push(number)?;
        count = count.max(number + 1);
    }
    Ok(numbers)
}
