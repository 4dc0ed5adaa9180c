// What a program prints of an image.
ghost use Rattle.std.specs.Prelude.{◌≡◌, ◌<◌};
ghost use Rattle.page.specs.Build.{built};
ghost use Rattle.page.specs.Print.{printed_length, printed_text};

use super::build::build;
use text::notice;

// The page of an image, or the notice of its refusal, at the start of the text; answers its length. Its parameters are
// those of the build. A refusal writes the text anew, so no closure turns it.
pub fn print(mode: u32, steps: u32, image: &[u8], memory: &mut [u8], text: &mut [u8; 256]) -> usize
    ensures answer { result ≡ printed_length (built mode steps image.now memory.old text.old) }
    ensures memory { memory.new ≡ (built mode steps image.now memory.old text.old).memory }
    ensures text { text.new ≡ printed_text (built mode steps image.now memory.old text.old) }
    ensures short { result < 256 }
{
    match build(mode, steps, image, memory, text) {
        Ok(length) => length as usize,
        Err(refused) => notice(refused.number(), text).unwrap_or(0) as usize,
    }
}
