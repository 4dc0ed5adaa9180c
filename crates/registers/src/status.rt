// The status register.
ghost use Rattle.std.specs.Prelude.{◌≡◌};
ghost use Rattle.registers.specs.Status.{status_word, status_of, clear_status};

// The bits of the status that have a name: X, C, K, D, P and E.
#[derive(Clone, Copy, PartialEq, Eq, Debug, Drop)]
pub struct Status {
    pub user: bool,
    pub code: bool,
    pub carry: bool,
    pub data: bool,
    pub protect: bool,
    pub interrupts: bool,
}

impl Status {
    pub const CLEAR: Status = Status {
        user: false,
        code: false,
        carry: false,
        data: false,
        protect: false,
        interrupts: false,
    };

    // Both conversions by name.
    pub fn word(&self) -> u32
        ensures { result ≡ status_word self.now }
    {
        u32::from(*self)
    }

    pub fn of(word: u32) -> Status
        ensures { result ≡ status_of word }
    {
        Status::from(word)
    }
}

impl From<Status> for u32 {
    ghost from_gives = { λ status word. word ≡ status_word status };

    fn from(status: Status) -> u32 {
        (u32::from(status.user) << 14)
            + (u32::from(status.code) << 13)
            + (u32::from(status.carry) << 11)
            + (u32::from(status.data) << 2)
            + (u32::from(status.protect) << 1)
            + u32::from(status.interrupts)
    }
}

// The other bits of a number count for nothing.
impl From<u32> for Status {
    ghost from_gives = { λ word status. status ≡ status_of word };

    fn from(word: u32) -> Status {
        // Counted from the right; `isa` counts from the left.
        let bit = |place: u32| (word >> place) % 2 == 1;
        Status {
            user: bit(14),
            code: bit(13),
            carry: bit(11),
            data: bit(2),
            protect: bit(1),
            interrupts: bit(0),
        }
    }
}
