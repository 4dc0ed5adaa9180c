// A whole image, read through from its version byte to its end.
ghost use Rattle.std.specs.Prelude.{◌≡◌, is_ok, Decides};
ghost use Rattle.image.specs.Format.{WellFormed};
ghost use Rattle.image.specs.Parsed.{parsed, says};

use crate::{LoadRefused, Records};

// The first fault of an image, with its place, if it has one.
#[tactic(auto, using(crate::proofs::Reading::says_cons), unfolding(crate::specs::Parsed::parsed))]
pub fn scan(image: &[u8]) -> Result<(), LoadRefused>
    ensures answer { result ≡ says (parsed image.now) }
    ensures accepts { Decides (is_ok result) (WellFormed image.now) }
{
    for record in Records::new(image)? {
        record?;
    }
    Ok(())
}
