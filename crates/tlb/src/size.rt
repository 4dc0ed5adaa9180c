// How many slots a table may have.
ghost use Rattle.std.specs.Prelude.{◌≡◌};
ghost use Rattle.tlb.specs.Sizes.{fitting, sized};

use super::MOST_SLOTS;
use refusal::Refusal;

pub(crate) fn fit(records: u64) -> bool
    ensures { result ≡ fitting records }
{
    (1..=MOST_SLOTS).contains(&records)
}

// The answer alone is like that of the other checks.
pub fn check(records: u64) -> Result<(), Refusal>
    ensures { result ≡ sized records }
{
    fit(records).then_some(()).ok_or(Refusal::BadSize)
}
