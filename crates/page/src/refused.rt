// Why a build is refused.
ghost use Rattle.std.specs.Prelude.{◌≡◌};
ghost use Rattle.page.specs.Refused.{refusal_number, by_itself, by_record};

use image::LoadRefused;
use refusal::{Refusal, Refused};

// A refusal, with the place of the record that it is of; 0 where it is of none, as the answer has it.
#[derive(Clone, Copy, PartialEq, Eq, Debug, Drop)]
pub struct BuildRefused {
    pub refusal: Refusal,
    pub place: u32,
}

impl BuildRefused {
    // The number by which a program outside knows it, by name; no length of a report is so large.
    pub fn number(self) -> u64
        ensures { result ≡ refusal_number self }
    {
        1_000 + u64::from(self.refusal.number()) + 65_536 * u64::from(self.place)
    }
}

impl From<Refusal> for BuildRefused {
    ghost from_gives = { λ r b. b ≡ by_itself r };

    fn from(refusal: Refusal) -> BuildRefused {
        BuildRefused { refusal, place: 0 }
    }
}

// Its layer is not told outside.
impl From<Refused> for BuildRefused {
    ghost from_gives = { λ r b. b ≡ by_itself r.refusal };

    fn from(refused: Refused) -> BuildRefused {
        refused.refusal.into()
    }
}

// Nor is the number of its record.
impl From<LoadRefused> for BuildRefused {
    ghost from_gives = { λ r b. b ≡ by_record r };

    fn from(fault: LoadRefused) -> BuildRefused {
        BuildRefused {
            refusal: fault.refused.refusal,
            place: fault.spot.place,
        }
    }
}
