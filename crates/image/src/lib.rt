// The image format: a version byte, then records, each with its length, its kind and a body.
#![tactic(auto)]

ghost use Rattle.std.specs.Prelude.{◌≡◌};
ghost use Rattle.image.specs.Faults.{raised};

pub mod read;
mod records;
mod whole;

pub use records::Records;
use refusal::{Layer, Refusal, Refused};
pub use whole::scan;

// What a record asks of the machine, in plain numbers, as images and calls have them; the bytes of a place record are lent from
// the image.
#[derive(Clone, Copy, PartialEq, Eq, Debug, Drop)]
pub enum Record<'a> {
    Place { address: u32, bytes: &'a [u8] },
    Map { segment: u16, page: u32, info: u32 },
    Give { class: u32, number: u32, value: u32 },
    // Never given by a walk, but a record of the format.
    End,
}

// The number of a record, and the place where it begins or would begin.
#[derive(Clone, Copy, PartialEq, Eq, Debug, Drop)]
pub struct Spot {
    pub record: u32,
    pub place: u32,
}

// A refusal, with the number and the place of the record that it is of.
#[derive(Clone, Copy, PartialEq, Eq, Debug, Drop)]
pub struct LoadRefused {
    pub refused: Refused,
    pub spot: Spot,
}

// What is wrong with an image.
#[derive(Clone, Copy, PartialEq, Eq, Debug, Drop)]
pub enum ImageFault {
    NoImage,
    Cut,
    Unknown,
    NoEnd,
}

// The layer is told here, where the fault arises.
impl From<ImageFault> for Refused {
    ghost from_gives = { λ f r. r ≡ raised f };

    fn from(fault: ImageFault) -> Refused {
        let refusal = match fault {
            ImageFault::NoImage => Refusal::BadImage,
            ImageFault::Cut => Refusal::CutRecord,
            ImageFault::Unknown => Refusal::UnknownRecord,
            ImageFault::NoEnd => Refusal::BadEnd,
        };
        Refused {
            refusal,
            layer: Layer::Image,
        }
    }
}
