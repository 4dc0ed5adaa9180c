// A machine's report.
ghost use Rattle.std.specs.Prelude.{◌≡◌, ◌<◌, length, IfOk};
ghost use Rattle.machine.specs.Machine.{view};
ghost use Rattle.page.specs.Report.{report_answer, report_buffer};

use decode_cache::cache::DecodeCache;
use machine::machine::Machine;
use memory::memory::Memory;
use refusal::{Layer, Refused};
use text::Report;
use tlb::table::Tlb;

// Writes how many steps were made, how they ended, and every general register that is not zero; answers the text's length.
pub fn report<M: Memory, T: Tlb, C: DecodeCache>(
    machine: &Machine<'_, M, T, C>,
    buffer: &mut [u8],
) -> Result<u64, Refused>
    ensures answer { result ≡ report_answer (view M.Memory T.Tlb C.DecodeCache machine.now).registers (length buffer.old) }
    ensures buffer { buffer.new ≡ report_buffer (view M.Memory T.Tlb C.DecodeCache machine.now).registers buffer.old }
    ensures short { IfOk result (λ n. n < 256) }
{
    let registers = machine.registers();
    let report = Report {
        steps: registers.steps(),
        halted: registers.halted(),
        general: registers.generals(),
    };
    // The text's crate knows no machine, so the layer is told here.
    report.write(buffer).map_err(|refusal| Refused {
        refusal,
        layer: Layer::Machine,
    })
}
