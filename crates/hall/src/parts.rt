// The parts of the ends, from the keys of the first line.
ghost use Rattle.std.specs.Prelude.{◌≡◌};
ghost use Rattle.forms.specs.Said.{bytes_of, ends_of};
ghost use Rattle.from_key.specs.Taken.{held, taken};
ghost use Rattle.hall.specs.Keys.{up_to, keys_by, held_by};

use ciphers::Ddd;
use forms::{Hex, Opening, TooShort};
use from_key::FromKey;
use refusals::KeyLength;

// Writes a key into an area. No part takes a longer key.
fn read_key<'a>(hex: &Hex<'_>, area: &'a mut [u8; 32]) -> Result<&'a [u8], KeyLength>
    ensures { held (λ key. key.now) result ≡ up_to 32 (bytes_of hex.now) }
{
    match hex.decode(area) {
        Ok(length) => Ok(&area[..length]),
        Err(TooShort { needed }) => Err(KeyLength(needed)),
    }
}

fn part<P: FromKey>(hex: &Hex<'_>) -> Result<P, KeyLength>
    ensures { held P.FromKey.key result ≡ taken P.FromKey.takes (bytes_of hex.now) }
{
    let mut area = [0; 32];
    P::new(read_key(hex, &mut area)?)
}

// The parts of an end: the keys are judged in the order hash, expander, header hash.
pub(crate) fn parts<H: FromKey + Drop, E: FromKey + Drop>(
    opening: &Opening<'_>,
) -> Result<(Ddd<H, E>, H), KeyLength>
    ensures { held_by H.FromKey.key E.FromKey.key result ≡ keys_by H.FromKey.takes E.FromKey.takes (ends_of opening.now) }
{
    let hash = part(&opening.keys.hash)?;
    let expander = part(&opening.keys.expander)?;
    let header = part(&opening.keys.header)?;
    Ok((Ddd { hash, expander }, header))
}
