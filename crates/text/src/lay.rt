// Bytes and numbers, written into a buffer at a place; each call answers the place behind them.
ghost use Rattle.std.specs.Prelude.{◌≡◌, ◌+◌, ◌≤◌, length, decimal};
ghost use Rattle.text.specs.Lay.{laid};

// Bytes as they are.
pub(crate) fn put(buffer: &mut [u8], at: usize, bytes: &[u8]) -> usize
    requires { at + length bytes.now ≤ length buffer.old }
    ensures place { result ≡ at + length bytes.now }
    ensures after { buffer.new ≡ laid at bytes.now buffer.old }
{
    let next = at + bytes.len();
    buffer[at..next].copy_from_slice(bytes);
    next
}

// A number in decimal, without leading zeros: the front of it first, then the last digit.
pub(crate) fn put_decimal(buffer: &mut [u8], at: usize, number: u64) -> usize
    requires { at + length (decimal number) ≤ length buffer.old }
    ensures place { result ≡ at + length (decimal number) }
    ensures after { buffer.new ≡ laid at (decimal number) buffer.old }
{
    let last = [b'0' + (number % 10) as u8];
    if number < 10 {
        put(buffer, at, &last)
    } else {
        let front = put_decimal(buffer, at, number / 10);
        put(buffer, front, &last)
    }
}
