// A key of 16 bytes.
ghost use Rattle.std.specs.Prelude.{◌≡◌, length, ◌==◌};
ghost use Rattle.octets.specs.Strings.{Bytes};
ghost use Rattle.std.proofs.Common.{rules};

use from_key::{FromKey, exactly};
use refusals::KeyLength;

#[derive(Clone, Copy)]
pub(crate) struct Key {
    pub(crate) bytes: [u8; 16],
    ghost long: { length bytes ≡ 16 },
    ghost small: { Bytes bytes },
}

impl FromKey for Key {
    ghost takes = { λ n. (n == 16) };

    ghost key = { λ k. k.bytes };

    ghost most = { Prim.search rules };

    fn new(key: &[u8]) -> Result<Key, KeyLength> {
        Ok(Key {
            bytes: exactly(key)?,
        })
    }
}
