// The build: an image, over the caller's memory, to a report.
ghost use Rattle.std.specs.Prelude.{◌≡◌};
ghost use Rattle.page.specs.Build.{ran_and_reported, driven, built};
ghost use Rattle.page.specs.Printed.{Printed, Drove, DroveBytes, Built, Builds, Short};

use super::mode::Mode;
use super::refused::BuildRefused;
use super::report::report as report_into;
use decode_cache::cache::DecodeCache;
use decode_cache::empty::EmptyCache;
use decode_cache::lines::LineCache;
use loader::load;
use machine::machine::Machine;
use machine::machine::run::MOST_STEPS;
use memory::memory::Memory;
use memory::ram::Ram;
use memory::size::check;
use quick_list::QuickList;
use refusal::Refusal;
use text::LEAST;
use tlb::slot_list::SlotList;
use tlb::table::Tlb;

const SLOTS: usize = 16;

// What a machine is to run: so many steps of an image.
#[derive(Clone, Copy)]
struct Job<'a> {
    steps: u32,
    image: &'a [u8],
}

// A loaded machine runs and reports.
fn finish<M: Memory, T: Tlb, C: DecodeCache>(
    machine: &mut Machine<'_, M, T, C>,
    steps: u32,
    report: &mut [u8],
) -> Result<u64, BuildRefused>
    ensures { Printed M.Memory T.Tlb C.DecodeCache (ran_and_reported steps) machine.old report.old result machine.new report.new }
{
    // It cannot be refused: the steps were tested, and a machine that was only loaded is not halted.
    let _ = machine.run(steps);
    Ok(report_into(machine, report)?)
}

// A machine is loaded, and then runs and reports.
fn load_and_run<M: Memory, T: Tlb, C: DecodeCache>(
    machine: &mut Machine<'_, M, T, C>,
    job: Job,
    report: &mut [u8],
) -> Result<u64, BuildRefused>
    ensures { Printed M.Memory T.Tlb C.DecodeCache (driven job.entry.steps job.entry.image.now) machine.old report.old result machine.new report.new }
{
    load(machine, job.image)?;
    finish(machine, job.steps, report)
}

// A fresh machine over the parts prints a page.
fn drive<M: Memory, T: Tlb, C: DecodeCache>(
    memory: &mut M,
    tlb: &mut T,
    cache: &mut C,
    job: Job,
    report: &mut [u8],
) -> Result<u64, BuildRefused>
    ensures { Drove M.Memory T.Tlb job.entry.steps job.entry.image.now memory.old tlb.old report.old result memory.new report.new }
{
    let mut machine = Machine::new(memory, tlb, cache);
    load_and_run(&mut machine, job, report)
}

// A machine with this table and this cache prints a page over the caller's memory.
fn drive_bytes<T: Tlb + Drop, C: DecodeCache + Drop>(
    mut tlb: T,
    mut cache: C,
    job: Job,
    memory: &mut [u8],
    report: &mut [u8],
) -> Result<u64, BuildRefused>
    ensures { DroveBytes (T.Tlb.slots tlb) job.entry.steps job.entry.image.now memory.old report.old result memory.new report.new }
{
    let mut ram = Ram::new(memory);
    drive(&mut ram, &mut tlb, &mut cache, job, report)
}

// Builds a page from an image over the caller's memory; answers the length of the report, or why there is none. The mode is a
// plain number, so that a wrong one is refused here, and the five parameters stay apart, as C has them.
pub fn build(
    mode: u32,
    steps: u32,
    image: &[u8],
    memory: &mut [u8],
    report: &mut [u8],
) -> Result<u64, BuildRefused>
    ensures { Built mode steps image.now memory.old report.old result memory.new report.new }
{
    let mode = Mode::try_from(mode)?;
    check(memory.len() as u64)?;
    if report.len() < LEAST {
        return Err(Refusal::SmallBuffer.into());
    }
    if steps > MOST_STEPS {
        return Err(Refusal::TooManySteps.into());
    }
    let mut records = [None; SLOTS];
    let slots = SlotList::new(&mut records);
    let job = Job { steps, image };
    // A match: the arms have parts of two types, and `dyn` would put a call through a table into every step.
    match mode {
        Mode::Full => drive_bytes(slots, EmptyCache, job, memory, report),
        Mode::Fast => drive_bytes(QuickList::new(slots), LineCache::new(), job, memory, report),
    }
}

// The same as a program outside calls it: a refusal is a number too.
pub fn vcpu32_build(
    mode: u32,
    steps: u32,
    image: &[u8],
    memory: &mut [u8],
    report: &mut [u8],
) -> u64
    ensures answer { result ≡ (built mode steps image.now memory.old report.old).answer }
    ensures memory { memory.new ≡ (built mode steps image.now memory.old report.old).memory }
    ensures report { report.new ≡ (built mode steps image.now memory.old report.old).report }
    ensures short { Short result }
    ensures builds { Builds mode steps image.now memory.old report.old result memory.new report.new }
{
    build(mode, steps, image, memory, report).unwrap_or_else(|refused| refused.number())
}
