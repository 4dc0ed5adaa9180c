// The fields of an instruction word.
ghost use Rattle.std.specs.Prelude.{◌≡◌, ◌+◌, ◌-◌, ◌<◌, ◌≤◌};
ghost use Rattle.isa.specs.Fields.{bits as bits_of, bit as bit_of, signed_bits, condition as condition_of};

use super::instruction::Condition;

// The field from bit `first` to bit `last`, both included; bit 0 is the leftmost.
pub(crate) fn bits(word: u32, first: u32, last: u32) -> u32
    requires { (first ≤ last) × ((last ≤ 31) × (last - first < 31)) }
    ensures { result ≡ bits_of first last word }
{
    (word >> (31 - last)) % (1 << (last + 1 - first))
}

// One bit, counted from the left; `tlb` and `registers` count theirs from the right.
pub(crate) fn bit(word: u32, n: u32) -> bool
    requires { n ≤ 31 }
    ensures { result ≡ bit_of n word }
{
    bits(word, n, n) == 1
}

// The same field as a number in two's complement, filled to 32 bits.
pub(crate) fn signed_bits(word: u32, first: u32, last: u32) -> u32
    requires { (first ≤ last) × ((last ≤ 31) × (last - first < 31)) }
    ensures { result ≡ signed_bits first last word }
{
    let value = bits(word, first, last);
    let half = 1 << (last - first);
    if value < half {
        value
    } else {
        value.wrapping_sub(half).wrapping_sub(half)
    }
}

// Where the fields of four bits begin that name a register.
pub(crate) const R: u32 = 6;

pub(crate) const A: u32 = 24;

pub(crate) const B: u32 = 28;

pub(crate) fn register(word: u32, first: u32) -> u8
    requires { first ≤ 28 }
    ensures { result ≡ bits_of first (first + 3) word }
{
    bits(word, first, first + 3) as u8
}

// Two bits name a condition; a From would claim that every number names one.
pub(crate) fn condition(number: u32) -> Condition
    ensures { result ≡ condition_of number }
{
    match number {
        0 => Condition::Equal,
        1 => Condition::Less,
        2 => Condition::NotEqual,
        _ => Condition::LessOrEqual,
    }
}
