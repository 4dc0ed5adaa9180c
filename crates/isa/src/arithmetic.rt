// Sums and differences of 32-bit numbers with their carry and overflow, and the conditions on two numbers.
ghost use Rattle.std.specs.Prelude.{◌≡◌};
ghost use Rattle.isa.specs.Arithmetic.{held as held_in, biased, sum_of, difference_of, inverted_if, meets as meets_it, meets_signed};

use super::instruction::Condition;

// What an addition or a subtraction comes to; the carry of a subtraction is its borrow.
#[derive(Clone, Copy, PartialEq, Eq, Debug, Drop)]
pub struct Sum {
    pub carry: bool,
    pub overflow: bool,
    pub value: u32,
}

// Signed numbers in the order of unsigned ones.
fn bias(x: u32) -> u32
    ensures { result ≡ biased x }
{
    x.wrapping_add(0x8000_0000)
}

// Whether 32 bits hold the signed number that two biased ones sum up to.
fn fits(sum: u64) -> bool
    ensures { result ≡ held_in sum }
{
    (0x8000_0000..0x1_8000_0000).contains(&sum)
}

pub fn add(x: u32, y: u32, carry: bool) -> Sum
    ensures { result ≡ sum_of x y carry }
{
    let sum = u64::from(x) + u64::from(y) + u64::from(carry);
    let signed = u64::from(bias(x)) + u64::from(bias(y)) + u64::from(carry);
    Sum {
        carry: sum >= 0x1_0000_0000,
        overflow: !fits(signed),
        value: (sum % 0x1_0000_0000) as u32,
    }
}

pub fn sub(x: u32, y: u32, borrow: bool) -> Sum
    ensures { result ≡ difference_of x y borrow }
{
    let difference = u64::from(x) + 0x1_0000_0000 - u64::from(y) - u64::from(borrow);
    let signed = u64::from(bias(x)) + 0x1_0000_0000 - u64::from(bias(y)) - u64::from(borrow);
    Sum {
        carry: u64::from(x) < u64::from(y) + u64::from(borrow),
        overflow: !fits(signed),
        value: (difference % 0x1_0000_0000) as u32,
    }
}

// The same by its whole name.
pub fn subtract(x: u32, y: u32, borrow: bool) -> Sum
    ensures { result ≡ difference_of x y borrow }
{
    sub(x, y, borrow)
}

pub fn invert(on: bool, x: u32) -> u32
    ensures { result ≡ inverted_if on x }
{
    if on { !x } else { x }
}

impl Condition {
    pub fn holds(self, x: u32, y: u32) -> bool
        ensures { result ≡ meets_it self x y }
    {
        match self {
            Condition::Equal => x == y,
            Condition::Less => x < y,
            Condition::NotEqual => x != y,
            Condition::LessOrEqual => x <= y,
        }
    }

    // The same of the biased numbers, since definitions are over natural ones.
    pub fn holds_signed(self, x: u32, y: u32) -> bool
        ensures { result ≡ meets_signed self x y }
    {
        self.holds(bias(x), bias(y))
    }
}
