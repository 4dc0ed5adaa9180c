// Reads an image from standard input, builds its page, and prints the page or the refusal.
#![tactic(auto)]

use page::mode::Mode;
use page::print::print;
use std::io::{Read, Write};

// A longer input is cut: its first bytes are the image.
const MOST_BYTES: u64 = 65_536;

const MEMORY_BYTES: usize = 32_768;

const STEPS: u32 = 1_000;

fn main(rt: HostRuntime) -> anyhow::Result<()> {
    let mut image = Vec::new(rt.alloc());
    rt.stdin().take(MOST_BYTES).read_to_end(&mut image)?;
    let mut memory = vec![in rt.alloc(); 0u8; MEMORY_BYTES]?;
    let mut text = [0u8; 256];
    let length = print(
        Mode::Fast as u32,
        STEPS,
        image.as_slice(),
        memory.as_mut_slice(),
        &mut text,
    );
    rt.stdout().write_all(&text[0..length])?;
    Ok(())
}
