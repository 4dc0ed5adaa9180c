// The text of a report and of a notice, written into a buffer of the caller.
#![tactic(auto)]

ghost use Rattle.std.specs.Prelude.{◌≡◌, ◌<◌, ◌≤◌, length, IfOk};
ghost use Rattle.text.specs.Report.{head_text, report_text, notice_text, over, written_length, written};

mod lay;
mod row;

use lay::{put, put_decimal};
use refusal::Refusal;
use row::register_row;

// A buffer below this length is refused.
pub const LEAST: usize = 256;

// How many steps were made, whether a halt ended them, and what the general registers hold.
#[derive(Clone, Copy, PartialEq, Eq, Debug)]
pub struct Report<'a> {
    pub steps: u32,
    pub halted: bool,
    pub general: &'a [u32; 16],
}

impl Report<'_> {
    // Writes how many steps were made, how they ended, and every general register that is not zero.
    pub fn write(&self, buffer: &mut [u8]) -> Result<u64, Refusal>
        ensures answer { result ≡ written_length (report_text self.now.steps self.now.halted self.now.general.now) buffer.old }
        ensures buffer { buffer.new ≡ written (report_text self.now.steps self.now.halted self.now.general.now) buffer.old }
        ensures short { IfOk result (λ n. n < 256) }
    {
        write_report(self.steps, self.halted, self.general, buffer)
    }
}

// The same, for whoever has no `Report`. The text is put into the caller's buffer piece by piece: a text made aside and copied
// would be copied by a function of C's library, which a program in C need not have.
pub fn write_report(
    steps: u32,
    halted: bool,
    general: &[u32; 16],
    buffer: &mut [u8],
) -> Result<u64, Refusal>
    ensures answer { result ≡ written_length (report_text steps halted general.now) buffer.old }
    ensures buffer { buffer.new ≡ written (report_text steps halted general.now) buffer.old }
    ensures short { IfOk result (λ n. n < 256) }
{
    if buffer.len() < LEAST {
        return Err(Refusal::SmallBuffer);
    }
    let mut at = put_head(buffer, steps, halted);
    for number in 1..16 {
        if general[number] != 0 {
            at = put(buffer, at, &register_row(number as u8, general[number]));
        }
    }
    Ok(at as u64)
}

// The first line of a report, at the buffer's start; answers the place behind it.
fn put_head(buffer: &mut [u8], steps: u32, halted: bool) -> usize
    requires { 256 ≤ length buffer.old }
    ensures place { result ≡ length (head_text steps halted) }
    ensures short { result ≤ 24 }
    ensures after { buffer.new ≡ over (head_text steps halted) buffer.old }
{
    let named = put(buffer, 0, b"STEPS ");
    let counted = put_decimal(buffer, named, steps as u64);
    if halted {
        put(buffer, counted, b" HALTED\n")
    } else {
        put(buffer, counted, b" SPENT\n")
    }
}

// Writes the line that tells of a refusal, with any number.
pub fn notice(number: u64, buffer: &mut [u8]) -> Result<u64, Refusal>
    ensures answer { result ≡ written_length (notice_text number) buffer.old }
    ensures buffer { buffer.new ≡ written (notice_text number) buffer.old }
    ensures short { IfOk result (λ n. n < 256) }
{
    if buffer.len() < LEAST {
        return Err(Refusal::SmallBuffer);
    }
    let named = put(buffer, 0, b"REFUSED ");
    let counted = put_decimal(buffer, named, number);
    Ok(put(buffer, counted, b"\n") as u64)
}
