// The record that some bytes begin with.
ghost use Rattle.std.specs.Prelude.{◌≡◌, ◌+◌, ◌≤◌, length, IfOk};
ghost use Rattle.std.specs.Result.{result_map_both};
ghost use Rattle.image.specs.Records.{asked, item, of_content, read};

use crate::{ImageFault, Record};

// A record, and the bytes behind it. Its length comes first, and has to be there whole, with as many bytes behind it.
#[inline(always)]
#[tactic(auto, using(crate::proofs::Reading::read_long))]
pub fn read(bytes: &[u8]) -> Result<(Record<'_>, &[u8]), ImageFault>
    ensures answer { result_map_both item (λ fault. fault) result ≡ read bytes.now }
    ensures shorter { IfOk result (λ item. length item.1.now + 3 ≤ length bytes.now) }
{
    let (size, rest) = match bytes {
        [] => return Err(ImageFault::NoEnd),
        [_] => return Err(ImageFault::Cut),
        [high, low, rest @ ..] => (u16::from_be_bytes([*high, *low]), rest),
    };
    let (content, rest) = rest
        .split_at_checked(usize::from(size))
        .ok_or(ImageFault::Cut)?;
    Ok((record(content)?, rest))
}

// The kind says how long a record is, and what its body holds. The kinds stand here alone, with the numbers of the format.
#[inline(always)]
fn record(content: &[u8]) -> Result<Record<'_>, ImageFault>
    ensures { result_map_both asked (λ fault. fault) result ≡ of_content content.now }
{
    match content {
        [] => Err(ImageFault::Cut),
        [kind, body @ ..] => match (*kind, body) {
            (1, [a, b, c, d, bytes @ ..]) => Ok(Record::Place {
                address: u32::from_be_bytes([*a, *b, *c, *d]),
                bytes,
            }),
            (2, [s, t, a, b, c, d, i, j, k, l]) => Ok(Record::Map {
                segment: u16::from_be_bytes([*s, *t]),
                page: u32::from_be_bytes([*a, *b, *c, *d]),
                info: u32::from_be_bytes([*i, *j, *k, *l]),
            }),
            (3, [class, number, a, b, c, d]) => Ok(Record::Give {
                class: u32::from(*class),
                number: u32::from(*number),
                value: u32::from_be_bytes([*a, *b, *c, *d]),
            }),
            (4, []) => Ok(Record::End),
            _ => Err(ImageFault::Unknown),
        },
    }
}
