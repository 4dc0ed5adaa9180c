// What each instruction does to the registers.
ghost use Rattle.std.specs.Prelude.{◌≡◌, ℕ, true};
ghost use Rattle.isa.specs.Arithmetic.{inverted_if};
ghost use Rattle.registers.specs.Access.{next, with_halted};
ghost use Rattle.registers.specs.Tried.{ends, says};
ghost use Rattle.registers.specs.Finish.{first as first_of, second as second_of, put_next, summed, linked, branched, broken, finished, privileged as is_privileged};

use super::registers::Registers;
use super::trap::Trap;
use isa::arithmetic::{Sum, add, invert, sub};
use isa::instruction::{Instruction, Operand};

// Whether only the privileged level may use an instruction.
pub fn privileged(instruction: &Instruction) -> bool
    ensures { result ≡ is_privileged instruction.now }
{
    matches!(instruction, Instruction::Diag)
}

impl Registers {
    // Does the instruction's work, or tells why it traps and changes nothing: one arm for each instruction.
    pub fn finish(&mut self, instruction: Instruction) -> Result<(), Trap>
        ensures after { self.new ≡ ends self.old (finished self.old instruction) }
        ensures value { result ≡ says (finished self.old instruction) }
    {
        let k = self.status.carry;
        match instruction {
            Instruction::Brk { code } => return self.brk(code),
            Instruction::Ldil { r, v } => self.put_next(r, v),
            Instruction::Addil { r, v } => self.put_next(1, self.general(r).wrapping_add(v)),
            Instruction::Ldo { r, b, o } => self.put_next(r, self.general(b).wrapping_add(o)),
            Instruction::Add { r, l, o, x } => return self.sum(r, l, o, self.by(add, r, x, false)),
            Instruction::Adc { r, l, o, x } => return self.sum(r, l, o, self.by(add, r, x, k)),
            Instruction::Sub { r, l, o, x } => return self.sum(r, l, o, self.by(sub, r, x, false)),
            Instruction::Sbc { r, l, o, x } => return self.sum(r, l, o, self.by(sub, r, x, k)),
            Instruction::And { r, n, c, x } => self.logic(r, n, c, x, |p, q| p & q),
            Instruction::Or { r, n, c, x } => self.logic(r, n, c, x, |p, q| p | q),
            Instruction::Xor { r, n, c, x } => self.logic(r, n, c, x, |p, q| p ^ q),
            Instruction::Cmp { r, when, x } => {
                let (p, q) = self.numbers(r, x);
                self.put_next(r, u32::from(when.holds_signed(p, q)));
            }
            Instruction::Cmpu { r, when, x } => {
                let (p, q) = self.numbers(r, x);
                self.put_next(r, u32::from(when.holds(p, q)));
            }
            Instruction::B { r, o } => self.branch_and_link(r, o),
            Instruction::Cbr { when, a, b, o } => {
                self.branch(when.holds_signed(self.general(a), self.general(b)), o);
            }
            Instruction::Cbru { when, a, b, o } => {
                self.branch(when.holds(self.general(a), self.general(b)), o);
            }
            Instruction::Diag => self.diag(),
        }
        Ok(())
    }

    // The two numbers that an instruction with an operand works on.
    fn numbers(&self, r: u8, x: Operand) -> (u32, u32)
        ensures first { result.0 ≡ first_of self.now r x }
        ensures second { result.1 ≡ second_of self.now x }
    {
        match x {
            Operand::Immediate(value) => (self.general(r), value),
            Operand::Registers { a, b } => (self.general(a), self.general(b)),
        }
    }

    // What an addition or a subtraction makes of the two.
    fn by<F: FnOnce(u32, u32, bool) -> Sum>(&self, op: F, r: u8, x: Operand, carry: bool) -> Sum
        requires { F.IsAlwaysCallable op }
        ensures { F.post op (first_of self.now r x) (second_of self.now x) carry result }
    {
        let (p, q) = self.numbers(r, x);
        op(p, q, carry)
    }

    // A logic operation on the two: C inverts the second, and N what comes out.
    fn logic<F: FnOnce(u32, u32) -> u32>(&mut self, r: u8, n: bool, c: bool, x: Operand, op: F)
        requires { F.IsAlwaysCallable op }
        ensures { (out : ℕ) × F.post op (first_of self.old r x) (inverted_if c (second_of self.old x)) out × (self.new ≡ put_next self.old r (inverted_if n out)) }
    {
        let (p, q) = self.numbers(r, x);
        self.put_next(r, invert(n, op(p, invert(c, q))));
    }

    fn diag(&mut self)
        ensures { self.new ≡ next (with_halted self.old true) }
    {
        self.halt();
        self.advance();
    }

    // The word 0 passes; every other break traps.
    fn brk(&mut self, code: u32) -> Result<(), Trap>
        ensures after { self.new ≡ ends self.old (broken self.old code) }
        ensures value { result ≡ says (broken self.old code) }
    {
        if code != 0 {
            return Err(Trap::Break);
        }
        self.advance();
        Ok(())
    }

    fn put_next(&mut self, r: u8, value: u32)
        ensures { self.new ≡ put_next self.old r value }
    {
        self.put_general(r, value);
        self.advance();
    }

    fn sum(&mut self, r: u8, logical: bool, trapping: bool, sum: Sum) -> Result<(), Trap>
        ensures after { self.new ≡ ends self.old (summed self.old r logical trapping sum) }
        ensures value { result ≡ says (summed self.old r logical trapping sum) }
    {
        let overflow = if logical { sum.carry } else { sum.overflow };
        if trapping && overflow {
            return Err(Trap::Overflow);
        }
        self.put_general(r, sum.value);
        if !logical {
            self.set_carry(sum.carry);
        }
        self.advance();
        Ok(())
    }

    fn branch_and_link(&mut self, r: u8, distance: u32)
        ensures { self.new ≡ linked self.old r distance }
    {
        let here = self.offset;
        self.put_general(r, here.wrapping_add(4));
        self.jump(here.wrapping_add(distance));
    }

    fn branch(&mut self, taken: bool, distance: u32)
        ensures { self.new ≡ branched self.old taken distance }
    {
        if taken {
            self.jump(self.offset.wrapping_add(distance));
        } else {
            self.advance();
        }
    }
}
