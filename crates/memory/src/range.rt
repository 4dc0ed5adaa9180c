// A whole range of bytes at once.
ghost use Rattle.std.specs.Prelude.{◌≡◌, ◌+◌, ◌-◌, length, nat_le, slice_index};
ghost use Rattle.memory.specs.Access.{range_answer, range_reading, range_read, some_marked};

use super::PAGE_BYTES;
use super::memory::{Memory, MemoryFault};
use super::size::within;

// Whether so many bytes from `address` on end within memory.
fn ends_within<M: Memory>(memory: &M, address: u64, count: u64) -> bool
    ensures { result ≡ nat_le (address + count) (length (M.Memory.bytes memory.now)) }
{
    within(memory.pages() * PAGE_BYTES, address, count)
}

// May so many bytes be put from `address` on?
pub fn check_range<M: Memory>(memory: &M, address: u64, length: u64) -> Result<(), MemoryFault>
    ensures { result ≡ range_answer (M.Memory.bytes memory.now) (M.Memory.marks memory.now) address length }
{
    if !ends_within(memory, address, length) {
        return Err(MemoryFault::Outside);
    }
    if length == 0 {
        return Ok(());
    }
    let first = address / PAGE_BYTES;
    let end = (address + length - 1) / PAGE_BYTES + 1;
    if any_marked(memory, first, end) {
        return Err(MemoryFault::ReadOnly);
    }
    Ok(())
}

// Whether one of the pages from `first` up to `end` is marked.
fn any_marked<M: Memory>(memory: &M, first: u64, end: u64) -> bool
    ensures { result ≡ some_marked (M.Memory.marks memory.now) first (end - first) }
{
    (first..end).any(|page| memory.marked(page))
}

// The byte at an address, or 0 past the end.
fn byte_at<M: Memory>(memory: &M, address: u64) -> u8
    ensures { result ≡ slice_index (M.Memory.bytes memory.now) address }
{
    memory.read(address, 1).unwrap_or(0) as u8
}

// Fills the buffer with the bytes from `address` on; a refusal leaves it.
pub fn read_range<M: Memory>(memory: &M, address: u64, buffer: &mut [u8]) -> Result<(), MemoryFault>
    ensures answer { result ≡ range_reading (M.Memory.bytes memory.now) address (length buffer.old) }
    ensures buffer { buffer.new ≡ range_read (M.Memory.bytes memory.now) address buffer.old }
{
    if !ends_within(memory, address, buffer.len() as u64) {
        return Err(MemoryFault::Outside);
    }
    // By number: a proof does not learn what a loop over `iter_mut` and the addresses leaves.
    for i in 0..buffer.len() {
        buffer[i] = byte_at(memory, address + i as u64);
    }
    Ok(())
}
