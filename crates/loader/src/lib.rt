// Loading an image into a machine.
#![tactic(auto)]

ghost use Rattle.std.specs.Prelude.{◌≡◌};
ghost use Rattle.image.specs.Records.{asked};
ghost use Rattle.machine.specs.Machine.{Did};
ghost use Rattle.loader.specs.Load.{applied, load as load_of};

use decode_cache::cache::DecodeCache;
use image::{LoadRefused, Record, Records, scan};
use machine::machine::Machine;
use memory::memory::Memory;
use refusal::Refused;
use tlb::table::Tlb;

// Applies the records of an image in order, up to the first that is refused; nothing is applied of an image with a fault.
#[tactic(auto, using(crate::proofs::Loading::load_steps))]
pub fn load<M: Memory, T: Tlb, C: DecodeCache>(
    machine: &mut Machine<'_, M, T, C>,
    image: &[u8],
) -> Result<(), LoadRefused>
    ensures { Did M.Memory T.Tlb C.DecodeCache (load_of image.now) machine.old result machine.new }
{
    scan(image)?;
    for placed in Records::new(image)? {
        let (spot, record) = placed?;
        apply(machine, record).map_err(|refused| LoadRefused { refused, spot })?;
    }
    Ok(())
}

// Does what one record asks for.
fn apply<M: Memory, T: Tlb, C: DecodeCache>(
    machine: &mut Machine<'_, M, T, C>,
    record: Record<'_>,
) -> Result<(), Refused>
    ensures { Did M.Memory T.Tlb C.DecodeCache (applied (asked «record».entry)) machine.old result machine.new }
{
    match record {
        Record::Place { address, bytes } => machine.place(address, bytes),
        Record::Map {
            segment,
            page,
            info,
        } => machine.map(segment, page, info),
        Record::Give {
            class,
            number,
            value,
        } => machine.give(class, number, value),
        Record::End => Ok(()),
    }
}
