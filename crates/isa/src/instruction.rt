// The instructions, with their fields taken out of the word. Signed fields are filled to 32 bits, and what an
// instruction multiplies by a constant is multiplied already.

#[derive(Clone, Copy, PartialEq, Eq, Debug, Drop)]
pub enum Condition {
    Equal,
    Less,
    NotEqual,
    LessOrEqual,
}

// The two numbers that the operand form works on: GR[r] and the immediate value, or GR[a] and GR[b].
#[derive(Clone, Copy, PartialEq, Eq, Debug, Drop)]
pub enum Operand {
    Immediate(u32),
    Registers { a: u8, b: u8 },
}

// One variant for each instruction, also where the fields are the same: each has an arm and a clause of its own.
// The fields have their names in the instruction set: `r`, `a` and `b` are registers, `v` and `o` numbers; `l`, `o`, `n` and
// `c` of an operand instruction are its options L, O, N and C, and `x` is its operand.
#[derive(Clone, Copy, PartialEq, Eq, Debug, Drop)]
pub enum Instruction {
    Brk {
        code: u32,
    },
    Ldil {
        r: u8,
        v: u32,
    },
    Addil {
        r: u8,
        v: u32,
    },
    Ldo {
        r: u8,
        b: u8,
        o: u32,
    },
    Add {
        r: u8,
        l: bool,
        o: bool,
        x: Operand,
    },
    Adc {
        r: u8,
        l: bool,
        o: bool,
        x: Operand,
    },
    Sub {
        r: u8,
        l: bool,
        o: bool,
        x: Operand,
    },
    Sbc {
        r: u8,
        l: bool,
        o: bool,
        x: Operand,
    },
    And {
        r: u8,
        n: bool,
        c: bool,
        x: Operand,
    },
    Or {
        r: u8,
        n: bool,
        c: bool,
        x: Operand,
    },
    Xor {
        r: u8,
        n: bool,
        c: bool,
        x: Operand,
    },
    Cmp {
        r: u8,
        when: Condition,
        x: Operand,
    },
    Cmpu {
        r: u8,
        when: Condition,
        x: Operand,
    },
    B {
        r: u8,
        o: u32,
    },
    Cbr {
        when: Condition,
        a: u8,
        b: u8,
        o: u32,
    },
    Cbru {
        when: Condition,
        a: u8,
        b: u8,
        o: u32,
    },
    Diag,
}
