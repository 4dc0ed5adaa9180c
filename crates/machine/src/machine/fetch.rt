// How the current instruction is reached and fetched.
ghost use Rattle.std.specs.Prelude.{◌≡◌};
ghost use Rattle.machine.specs.Machine.{Learned, Retained};
ghost use Rattle.machine.specs.Reach.{failed as failed_by, failed_at as failed_there, may_fetch as may_fetch_it, locked as locked_there, through as through_it, straight as straight_on, way_of, code_of, fetched as fetched_by};
ghost use Rattle.machine.specs.Step.{StandsAt, Reaches};

use crate::machine::Machine;
use crate::way::{Fetched, Way};
use decode_cache::cache::{DecodeCache, Decoded};
use isa::decode::decode;
use memory::memory::Memory;
use registers::registers::Registers;
use registers::trap::{Cause, Trap};
use tlb::info::Info;
use tlb::page::Page;
use tlb::page_type::PageType;
use tlb::table::Tlb;

// An instruction failed by itself.
pub(crate) fn failed(trap: Trap, word: u32) -> Cause
    ensures { result ≡ failed_by trap word }
{
    Cause {
        trap,
        segment: 0,
        offset: 0,
        word,
    }
}

// An access failed at a segment and an offset, before any word was fetched. Beside `failed`: each has its own half of a cause.
fn failed_at(trap: Trap, segment: u16, offset: u32) -> Cause
    ensures { result ≡ failed_there trap segment offset }
{
    Cause {
        trap,
        segment,
        offset,
        word: 0,
    }
}

// Whether code may be fetched through a translation at a level.
fn may_fetch(user: bool, info: Info) -> bool
    ensures { result ≡ may_fetch_it user info }
{
    let runs = matches!(info.kind(), PageType::Execute | PageType::Gateway);
    runs && (!(user || info.pl2()) || info.pl1())
}

// Whether the protection ids keep a page from being reached.
fn locked(registers: &Registers, segment: u16, info: Info) -> bool
    ensures { result ≡ locked_there registers.now segment info }
{
    registers.status().protect && info.checked() && !registers.lists(segment)
}

// The current instruction's place through the translation that was found.
fn through(registers: &Registers, found: Option<Info>) -> Result<Way, Cause>
    ensures { result ≡ through_it registers.now found }
{
    let segment = registers.segment();
    let offset = registers.offset();
    let info = found.ok_or(failed_at(Trap::CodeMiss, segment, offset))?;
    let user = registers.user();
    if !may_fetch(user, info) {
        return Err(failed_at(Trap::CodeRights, segment, offset));
    }
    if locked(registers, segment, info) {
        return Err(failed_at(Trap::CodeProtection, segment, offset));
    }
    let address = u64::from(info.physical()) * 16_384 + u64::from(offset % 16_384);
    Ok(Way {
        user: user || info.pl2(),
        segment,
        address,
    })
}

// The current instruction's place without a translation: the privileged level takes the offset as it is.
fn straight(registers: &Registers) -> Result<Way, Cause>
    ensures { result ≡ straight_on registers.now }
{
    if registers.user() {
        return Err(failed_at(Trap::CodeRights, registers.segment(), registers.offset()));
    }
    Ok(Way {
        user: false,
        segment: 0,
        address: u64::from(registers.offset()),
    })
}

impl<'m, M: Memory, T: Tlb, C: DecodeCache> Machine<'m, M, T, C> {
    // Where the current instruction stands, or why it may not be reached.
    fn code_way(&mut self) -> Result<Way, Cause>
        ensures { Learned M.Memory T.Tlb C.DecodeCache way_of self.old result self.new }
    {
        let segment = self.registers.segment();
        if segment != 0 && self.registers.status().code {
            let found = self.tlb.find(Page {
                segment,
                number: self.registers.offset() / 16_384,
            });
            through(&self.registers, found)
        } else {
            straight(&self.registers)
        }
    }

    // The instruction at a place: what the cache has is not read and decoded again.
    fn code_at(&mut self, way: Way) -> Result<Decoded, Cause>
        ensures retained { Retained M.Memory T.Tlb C.DecodeCache (StandsAt way) self.old self.new.cache.now }
        ensures learned { Learned M.Memory T.Tlb C.DecodeCache (code_of way) self.old result self.new }
    {
        // No `or_else`: what follows changes the cache, and has a `?`.
        if let Some(decoded) = self.cache.recall(way.address) {
            return Ok(decoded);
        }
        let unread = failed_at(Trap::Memory, way.segment, self.registers.offset());
        // Which fault it was is not shown: a `map_err` with an argument unused would say the same.
        let word = self.memory.read(way.address, 4).ok().ok_or(unread)?;
        let instruction = decode(word).ok_or(failed(Trap::Illegal, word))?;
        let decoded = Decoded { word, instruction };
        self.cache.keep(way.address, decoded);
        Ok(decoded)
    }

    pub(crate) fn fetch(&mut self) -> Result<Fetched, Cause>
        ensures learned { Learned M.Memory T.Tlb C.DecodeCache fetched_by self.old result self.new }
        ensures retained { Retained M.Memory T.Tlb C.DecodeCache Reaches self.old self.new.cache.now }
    {
        let way = self.code_way()?;
        let decoded = self.code_at(way)?;
        Ok(Fetched {
            user: way.user,
            decoded,
        })
    }
}
