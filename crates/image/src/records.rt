// The records of an image, one after another.
ghost use Rattle.std.specs.Prelude.{◌≡◌, ◌+◌, ◌<◌, ◌≤◌};
ghost use Rattle.std.specs.Result.{result_map_both};
ghost use Rattle.image.specs.Records.{left};

use crate::read::read;
use crate::{ImageFault, LoadRefused, Record, Spot};
use refusal::Refused;

// The most bytes that an image has.
const MOST: usize = 1_048_576;

// The only version that there is.
const VERSION: u8 = 1;

// What is left to read of an image, and where it stands; nothing is left behind the end or a fault.
#[derive(Drop)]
pub struct Records<'a> {
    rest: Option<&'a [u8]>,
    spot: Spot,
    ghost counted: { spot.«record» < spot.place },
    ghost short: { spot.place + left rest ≤ 1048576 },
}

impl<'a> Records<'a> {
    ghost use Rattle.std.specs.Prelude.{[], ◌∷◌, length, None, MatchOption};
    ghost use Rattle.image.specs.Parsed.{begun, gave, given, read_all};

    // An image has a byte, not too many of them, and begins with its version.
    pub fn new(image: &'a [u8]) -> Result<Records<'a>, LoadRefused>
        ensures { result_map_both given (λ fault. fault) result ≡ begun image.now }
    {
        match image {
            [VERSION, rest @ ..] if image.len() <= MOST => Ok(Records {
                rest: Some(rest),
                spot: Spot {
                    record: 0,
                    place: 1,
                },
            }),
            _ => Err(LoadRefused {
                refused: ImageFault::NoImage.into(),
                spot: Spot {
                    record: 0,
                    place: 0,
                },
            }),
        }
    }

    // The record that some bytes begin with, or none at the end. `rest` comes back with a record alone; a fault is at `spot`.
    #[inline(always)]
    #[tactic(auto, using(crate::proofs::Reading::read_all_fault, crate::proofs::Reading::read_all_over))]
    fn advance(&mut self, bytes: &'a [u8]) -> Result<Option<(Spot, Record<'a>)>, Refused>
        requires none { self.old.rest ≡ None }
        requires short { self.old.spot.place + length bytes.now ≤ 1048576 }
        ensures { MatchOption (gave self.new.spot result)
            ((read_all self.old.spot bytes.now ≡ []) × (given self.new ≡ []))
            (λ x. read_all self.old.spot bytes.now ≡ x ∷ given self.new) }
    {
        let spot = self.spot;
        let (record, rest) = read(bytes)?;
        // Field by field, so that the two numbers need not be packed into one.
        self.spot.place += (bytes.len() - rest.len()) as u32;
        self.spot.record += 1;
        match record {
            Record::End => if rest.is_empty() {
                Ok(None)
            } else {
                Err(ImageFault::NoEnd.into())
            },
            record => {
                self.rest = Some(rest);
                Ok(Some((spot, record)))
            }
        }
    }
}

// Each record with its number and place. The end record is not given, and nothing may follow it.
impl<'a> Iterator for Records<'a> {
    ghost use Rattle.std.specs.Iterator.{YieldsFirstBy, item_count};
    ghost use Rattle.image.specs.Parsed.{given, seen};

    type Item = Result<(Spot, Record<'a>), LoadRefused>;

    ghost next_gives = { YieldsFirstBy seen given };

    ghost remaining = { item_count given };

    // Inlined, with what it calls, so that a walk keeps its spot in registers: called, it takes three times as long.
    #[inline(always)]
    fn next(&mut self) -> Option<Self::Item> {
        let bytes = self.rest.take()?;
        self.advance(bytes)
            .map_err(|refused| LoadRefused {
                refused,
                spot: self.spot,
            })
            .transpose()
    }
}
