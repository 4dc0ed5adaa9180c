// How a page is built. What it holds does not depend on that.
ghost use Rattle.std.specs.Prelude.{◌≡◌};
ghost use Rattle.page.specs.Mode.{mode_of};

use refusal::Refusal;

// A full build looks every translation up in the records, and reads and decodes every instruction; a fast one finds those that
// it used before in lines.
#[derive(Clone, Copy, PartialEq, Eq, Debug, Drop)]
pub enum Mode {
    Full = 0,
    Fast = 1,
}

impl TryFrom<u32> for Mode {
    type Error = Refusal;

    ghost try_from_gives = { λ number mode. mode ≡ mode_of number };

    fn try_from(number: u32) -> Result<Mode, Refusal> {
        match number {
            0 => Ok(Mode::Full),
            1 => Ok(Mode::Fast),
            _ => Err(Refusal::UnknownMode),
        }
    }
}
