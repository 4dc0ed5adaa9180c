// From an instruction word to its instruction.
ghost use Rattle.std.specs.Prelude.{◌≡◌};
ghost use Rattle.isa.specs.Decode.{decoded, computing as computing_word, branching as branching_word, on_operand, operand as operand_of, words as words_of};

use super::fields::{A, B, R, bit, bits, condition, register, signed_bits};
use super::instruction::{Instruction, Operand};

// The instruction of a word, or none where its number is not listed, a field is forbidden, or a bit without a name is set.
// The numbers of instructions and of forms stand in this file alone, as docs/machine.md lists them.
pub fn decode(word: u32) -> Option<Instruction>
    ensures { result ≡ decoded word }
{
    if bit(word, 0) {
        branching(word)
    } else {
        computing(word)
    }
}

fn computing(word: u32) -> Option<Instruction>
    ensures { result ≡ computing_word word }
{
    let v = bits(word, 10, 31) * 1024;
    match bits(word, 0, 5) {
        0 => Some(Instruction::Brk {
            code: bits(word, 6, 31),
        }),
        1 => Some(Instruction::Ldil {
            r: register(word, R),
            v,
        }),
        2 => Some(Instruction::Addil {
            r: register(word, R),
            v,
        }),
        3 => {
            let o = signed_bits(word, 10, 27);
            Some(Instruction::Ldo {
                r: register(word, R),
                b: register(word, B),
                o,
            })
        }
        _ => on_operand(word),
    }
}

// The instructions that work on an operand; the two bits behind `r` are their options or their condition.
fn on_operand(word: u32) -> Option<Instruction>
    ensures { result ≡ on_operand word (operand_of word) }
{
    let x = operand(word)?;
    let r = register(word, R);
    let l = bit(word, 10);
    let o = bit(word, 11);
    let when = condition(bits(word, 10, 11));
    match bits(word, 0, 5) {
        16 => Some(Instruction::Add { r, l, o, x }),
        17 => Some(Instruction::Adc { r, l, o, x }),
        18 => Some(Instruction::Sub { r, l, o, x }),
        19 => Some(Instruction::Sbc { r, l, o, x }),
        20 if !(l && o) => Some(Instruction::And { r, n: l, c: o, x }),
        21 if !(l && o) => Some(Instruction::Or { r, n: l, c: o, x }),
        22 if !(l && o) => Some(Instruction::Xor { r, n: l, c: o, x }),
        23 => Some(Instruction::Cmp { r, when, x }),
        24 => Some(Instruction::Cmpu { r, when, x }),
        _ => None,
    }
}

fn branching(word: u32) -> Option<Instruction>
    ensures { result ≡ branching_word word }
{
    let when = condition(bits(word, 6, 7));
    let a = register(word, A);
    let b = register(word, B);
    let near = words(signed_bits(word, 8, 23));
    match bits(word, 0, 5) {
        32 => {
            let o = words(signed_bits(word, 10, 31));
            Some(Instruction::B {
                r: register(word, R),
                o,
            })
        }
        37 => Some(Instruction::Cbr {
            when,
            a,
            b,
            o: near,
        }),
        38 => Some(Instruction::Cbru {
            when,
            a,
            b,
            o: near,
        }),
        63 if bits(word, 6, 31) == 0 => Some(Instruction::Diag),
        _ => None,
    }
}

// Four times a distance.
fn words(distance: u32) -> u32
    ensures { result ≡ words_of distance }
{
    distance.wrapping_mul(4)
}

fn operand(word: u32) -> Option<Operand>
    ensures { result ≡ operand_of word }
{
    match bits(word, 12, 13) {
        0 => Some(Operand::Immediate(signed_bits(word, 14, 31))),
        1 if bits(word, 14, 23) == 0 => Some(Operand::Registers {
            a: register(word, A),
            b: register(word, B),
        }),
        _ => None,
    }
}
