// Registers by class and number, as they are named from outside.
ghost use Rattle.std.specs.Prelude.{◌≡◌};
ghost use Rattle.registers.specs.Raised.{raised};
ghost use Rattle.registers.specs.Tried.{ends, says};
ghost use Rattle.registers.specs.Give.{register_of, special as special_of, fits as fits_it, put as put_it, given};
ghost use Rattle.registers.specs.Access.{with_segment, with_status, with_pending};

use super::registers::Registers;
use super::status::Status;
use refusal::{Layer, Refusal, Refused};

#[derive(Clone, Copy, PartialEq, Eq, Debug, Drop)]
pub enum Register {
    General(u8),
    Space(u8),
    Control(u8),
    Segment,
    Offset,
    StatusWord,
    Pending,
}

#[derive(Clone, Copy, PartialEq, Eq, Debug, Drop)]
pub enum RegisterFault {
    NoSuchRegister,
    BadValue,
}

// The layer is told here, where the fault arises.
impl From<RegisterFault> for Refused {
    ghost from_gives = { λ f r. r ≡ raised f };

    fn from(fault: RegisterFault) -> Refused {
        let refusal = match fault {
            RegisterFault::NoSuchRegister => Refusal::NoSuchRegister,
            RegisterFault::BadValue => Refusal::BadValue,
        };
        Refused {
            refusal,
            layer: Layer::Machine,
        }
    }
}

impl Register {
    // By plain numbers, as calls have them; None says all that can be wrong, so no TryFrom.
    pub fn named(class: u32, number: u32) -> Option<Register>
        ensures { result ≡ register_of class number }
    {
        match class {
            0 if number < 16 => Some(Register::General(number as u8)),
            1 if number < 8 => Some(Register::Space(number as u8)),
            2 if number < 32 => Some(Register::Control(number as u8)),
            3 => special(number),
            _ => None,
        }
    }

    // Whether the register can have the value.
    pub fn fits(self, value: u32) -> bool
        ensures { result ≡ fits_it self value }
    {
        match self {
            Register::Space(_) | Register::Segment => value < 0x1_0000,
            Register::Control(2) => value < 32,
            Register::StatusWord => u32::from(Status::from(value)) == value,
            _ => true,
        }
    }
}

fn special(number: u32) -> Option<Register>
    ensures { result ≡ special_of number }
{
    match number {
        0 => Some(Register::Segment),
        1 => Some(Register::Offset),
        2 => Some(Register::StatusWord),
        3 => Some(Register::Pending),
        _ => None,
    }
}

impl Registers {
    // Sets a register, or tells why not and changes nothing.
    pub fn give(&mut self, class: u32, number: u32, value: u32) -> Result<(), RegisterFault>
        ensures after { self.new ≡ ends self.old (given class number value self.old) }
        ensures value { result ≡ says (given class number value self.old) }
    {
        let register = Register::named(class, number).ok_or(RegisterFault::NoSuchRegister)?;
        if !register.fits(value) {
            return Err(RegisterFault::BadValue);
        }
        self.put(register, value);
        Ok(())
    }

    fn put(&mut self, register: Register, value: u32)
        ensures { self.new ≡ put_it self.old register value }
    {
        match register {
            Register::General(n) => self.put_general(n, value),
            Register::Space(n) => self.put_space(n, value),
            Register::Control(n) => self.put_control(n, value),
            Register::Segment => self.set_segment((value % 0x1_0000) as u16),
            Register::Offset => self.jump(value),
            Register::StatusWord => self.set_status(Status::from(value)),
            Register::Pending => self.set_pending(value),
        }
    }

    fn set_segment(&mut self, segment: u16)
        ensures { self.new ≡ with_segment self.old segment }
    {
        self.segment = segment;
    }

    fn set_status(&mut self, status: Status)
        ensures { self.new ≡ with_status self.old status }
    {
        self.status = status;
    }

    fn set_pending(&mut self, pending: u32)
        ensures { self.new ≡ with_pending self.old pending }
    {
        self.pending = pending;
    }
}
