// Numbers in bytes, the highest byte first.
ghost use Rattle.std.specs.Prelude.{◌≡◌, ◌+◌, ◌^◌, ◌<◌, ◌≤◌, true, length};
ghost use Rattle.memory.specs.Bytes.{known_width, inside, number_at, stored_at};

use super::size::within;

// Whether an access lies within `size` bytes, at a multiple of its width.
pub(crate) fn fits(size: u64, address: u64, width: u32) -> bool
    ensures { result ≡ inside width size address }
{
    let bytes = u64::from(width);
    matches!(width, 1 | 2 | 4) && address % bytes == 0 && within(size, address, bytes)
}

// Byte by byte: a pattern over the bytes cut out would need an arm that no width reaches.
pub(crate) fn load(bytes: &[u8], at: usize, width: u32) -> u32
    requires { (at + width ≤ length bytes.now) × (known_width width ≡ true) }
    ensures value { result ≡ number_at bytes.now at width }
    ensures small { result < 256 ^ width }
{
    match width {
        1 => u32::from(bytes[at]),
        2 => u32::from(u16::from_be_bytes([bytes[at], bytes[at + 1]])),
        _ => u32::from_be_bytes([bytes[at], bytes[at + 1], bytes[at + 2], bytes[at + 3]]),
    }
}

pub(crate) fn store(bytes: &mut [u8], at: usize, width: u32, value: u32)
    requires { (at + width ≤ length bytes.old) × (known_width width ≡ true) }
    ensures { bytes.new ≡ stored_at bytes.old at width value }
{
    let [_, _, high, low] = value.to_be_bytes();
    match width {
        1 => bytes[at] = low,
        2 => bytes[at..at + 2].copy_from_slice(&[high, low]),
        _ => bytes[at..at + 4].copy_from_slice(&value.to_be_bytes()),
    }
}
