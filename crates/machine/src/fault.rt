// Why a machine itself says no.
ghost use Rattle.std.specs.Prelude.{◌≡◌};
ghost use Rattle.machine.specs.Raised.{raised};

use refusal::{Layer, Refusal, Refused};

#[derive(Clone, Copy, PartialEq, Eq, Debug, Drop)]
pub enum MachineFault {
    Halted,
    TooManySteps,
    BadTranslation,
}

// The layer is told here, where the fault arises.
impl From<MachineFault> for Refused {
    ghost from_gives = { λ f r. r ≡ raised f };

    fn from(fault: MachineFault) -> Refused {
        let refusal = match fault {
            MachineFault::Halted => Refusal::Halted,
            MachineFault::TooManySteps => Refusal::TooManySteps,
            MachineFault::BadTranslation => Refusal::BadTranslation,
        };
        Refused {
            refusal,
            layer: Layer::Machine,
        }
    }
}
