// How many bytes a memory may have.
ghost use Rattle.std.specs.Prelude.{◌≡◌, ◌+◌, nat_le};
ghost use Rattle.memory.specs.Pages.{well_sized, sized};

use super::{MOST_PAGES, PAGE_BYTES};
use refusal::Refusal;

// Whether so many from `start` on lie within `size`; the sum is not made, so it cannot wrap.
pub(crate) fn within(size: u64, start: u64, count: u64) -> bool
    ensures { result ≡ nat_le (start + count) size }
{
    start <= size && count <= size - start
}

// Whole pages, at least one and at most 256.
pub(crate) fn fit(length: u64) -> bool
    ensures { result ≡ well_sized length }
{
    length != 0 && length % PAGE_BYTES == 0 && length <= MOST_PAGES * PAGE_BYTES
}

// The answer alone is like that of the other checks.
pub fn check(length: u64) -> Result<(), Refusal>
    ensures { result ≡ sized length }
{
    fit(length).then_some(()).ok_or(Refusal::BadSize)
}
