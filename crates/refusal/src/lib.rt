// Why a call says no, and which layer of the emulator said it.
#![tactic(auto)]

ghost use Rattle.std.specs.Prelude.{◌≡◌};
ghost use Rattle.refusal.specs.Numbers.{number_of};

// Every refusal there is; `number` is how the outside knows it.
#[derive(Clone, Copy, PartialEq, Eq, Debug, Drop)]
pub enum Refusal {
    UnknownMode = 1,
    BadSize = 2,
    SmallBuffer = 3,
    Halted = 4,
    TooManySteps = 5,
    NoSuchRegister = 6,
    BadValue = 7,
    NoSuchLine = 8,
    OutsideMemory = 9,
    ReadOnlyPage = 10,
    BadTranslation = 11,
    NoFreeSlot = 12,
    BadImage = 13,
    CutRecord = 14,
    UnknownRecord = 15,
    BadEnd = 16,
}

// The layer in which a refusal arose.
#[derive(Clone, Copy, PartialEq, Eq, Debug, Drop)]
pub enum Layer {
    Machine,
    Memory,
    Table,
    Image,
}

// A refusal with the layer that it comes from.
#[derive(Clone, Copy, PartialEq, Eq, Debug, Drop)]
pub struct Refused {
    pub refusal: Refusal,
    pub layer: Layer,
}

impl Refusal {
    // By name, so that a reader sees which number it is.
    pub fn number(self) -> u32
        ensures { result ≡ number_of self }
    {
        self as u32
    }
}
