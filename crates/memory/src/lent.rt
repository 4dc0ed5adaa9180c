// The caller's bytes as a memory: all of them, or none where no memory has so many.
ghost use Rattle.std.specs.Prelude.{◌≡◌, ◌/◌, ◌^◌, ◌<◌, IfOk, length};
ghost use Rattle.memory.specs.Pages.{whole};
ghost use Rattle.memory.specs.Access.{reading};

use super::PAGE_BYTES;
use super::bytes::{fits, load};
use super::memory::MemoryFault;
use super::size::fit;

fn usable(bytes: &[u8]) -> &[u8]
    ensures { result.now ≡ whole bytes.now }
{
    if fit(bytes.len() as u64) { bytes } else { &[] }
}

pub(crate) fn pages(bytes: &[u8]) -> u64
    ensures { result ≡ length (whole bytes.now) / 16384 }
{
    usable(bytes).len() as u64 / PAGE_BYTES
}

pub(crate) fn read(bytes: &[u8], address: u64, width: u32) -> Result<u32, MemoryFault>
    ensures value { result ≡ reading (whole bytes.now) width address }
    ensures small { IfOk result (λ v. v < 256 ^ width) }
{
    let bytes = usable(bytes);
    if fits(bytes.len() as u64, address, width) {
        Ok(load(bytes, address as usize, width))
    } else {
        Err(MemoryFault::Outside)
    }
}
