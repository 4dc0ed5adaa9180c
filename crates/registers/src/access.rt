// Registers read and written: a number past the last register wraps round, so that every number names one.
ghost use Rattle.std.specs.Prelude.{◌≡◌, true};
ghost use Rattle.registers.specs.Ranges.{cr_fitted};
ghost use Rattle.registers.specs.Access.{fresh, general as general_of, put_general, control as control_of, put_control, put_space, next, at_level, carrying, with_segment, with_offset, with_status, with_pending, with_halted, with_steps};

use super::registers::Registers;
use super::status::Status;

// The lowest bits that fit the control register `n`.
fn cr_fitted(n: u8, value: u32) -> u32
    ensures { result ≡ cr_fitted n value }
{
    if n == 2 { value % 32 } else { value }
}

impl Registers {
    // The registers of a fresh machine.
    pub fn fresh() -> Registers
        ensures { result ≡ fresh }
    {
        Registers {
            gr: [0; 16],
            sr: [0; 8],
            cr: [0; 32],
            segment: 0,
            offset: 0,
            status: Status::CLEAR,
            pending: 0,
            halted: false,
            steps: 0,
        }
    }

    pub fn general(&self, n: u8) -> u32
        ensures { result ≡ general_of self.now n }
    {
        self.gr[usize::from(n % 16)]
    }

    pub fn put_general(&mut self, n: u8, value: u32)
        ensures { self.new ≡ put_general self.old n value }
    {
        let n = n % 16;
        if n != 0 {
            self.gr[usize::from(n)] = value;
        }
    }

    // All general registers, for a report.
    pub fn generals(&self) -> &[u32; 16]
        ensures { result.now ≡ self.now.gr }
    {
        &self.gr
    }

    pub fn control(&self, n: u8) -> u32
        ensures { result ≡ control_of self.now n }
    {
        self.cr[usize::from(n % 32)]
    }

    pub(crate) fn put_control(&mut self, n: u8, value: u32)
        ensures { self.new ≡ put_control self.old n value }
    {
        let n = n % 32;
        let fitted = cr_fitted(n, value);
        self.cr[usize::from(n)] = fitted;
    }

    pub(crate) fn put_space(&mut self, n: u8, value: u32)
        ensures { self.new ≡ put_space self.old n value }
    {
        self.sr[usize::from(n % 8)] = (value % 0x1_0000) as u16;
    }

    // Goes on to another offset, at a multiple of four.
    pub(crate) fn jump(&mut self, offset: u32)
        ensures { self.new ≡ with_offset self.old offset }
    {
        self.offset = offset / 4 * 4;
    }

    pub(crate) fn advance(&mut self)
        ensures { self.new ≡ next self.old }
    {
        self.jump(self.offset.wrapping_add(4));
    }

    // Where the current instruction stands.
    pub fn segment(&self) -> u16
        ensures { result ≡ self.now.segment }
    {
        self.segment
    }

    pub fn offset(&self) -> u32
        ensures { result ≡ self.now.offset }
    {
        self.offset
    }

    pub fn status(&self) -> Status
        ensures { result ≡ self.now.status }
    {
        self.status
    }

    pub fn user(&self) -> bool
        ensures { result ≡ self.now.status.user }
    {
        self.status.user
    }

    pub fn halted(&self) -> bool
        ensures { result ≡ self.now.halted }
    {
        self.halted
    }

    pub fn steps(&self) -> u32
        ensures { result ≡ self.now.steps }
    {
        self.steps
    }

    pub fn set_level(&mut self, user: bool)
        ensures { self.new ≡ at_level self.old user }
    {
        self.status.user = user;
    }

    pub(crate) fn set_carry(&mut self, carry: bool)
        ensures { self.new ≡ carrying self.old carry }
    {
        self.status.carry = carry;
    }

    pub fn set_steps(&mut self, steps: u32)
        ensures { self.new ≡ with_steps self.old steps }
    {
        self.steps = steps;
    }

    pub(crate) fn halt(&mut self)
        ensures { self.new ≡ with_halted self.old true }
    {
        self.halted = true;
    }
}
