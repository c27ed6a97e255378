// POLYVAL of RFC 8452 as a keyed hash, with the product bit by bit.
ghost use Rattle.std.specs.Prelude.{◌==◌};
ghost use Rattle.hashes.specs.Keys.{polyval_key};
ghost use Rattle.hashes.specs.Polyval.{dot_block, polyval as polyval_of};
ghost use Rattle.hashes.specs.ValuesLemmas.{length-polyval, bytes-polyval};
ghost use Rattle.std.proofs.Common.{rules};

use crate::chain::BlockFunction;
use crate::field::dot;
use crate::key::Key;
use crate::keyed::KeyedHash;
use crate::state::Chain;
use from_key::FromKey;
use octets::{add_into, le_bytes};
use refusals::KeyLength;

#[derive(Clone, Copy)]
pub struct Polyval {
    key: Key,
}

// The hash under a key of 16 bytes.
impl FromKey for Polyval {
    ghost takes = { λ n. (n == 16) };

    ghost key = { λ h. polyval_key h };

    ghost most = { Prim.search rules };

    fn new(key: &[u8]) -> Result<Polyval, KeyLength> {
        Ok(Polyval {
            key: Key::new(key)?,
        })
    }
}

impl BlockFunction for Polyval {
    ghost image = { λ h. dot_block (polyval_key h) };

    fn apply(&self, block: &[u8; 16]) -> [u8; 16] {
        dot(
            u128::from_le_bytes(*block),
            u128::from_le_bytes(self.key.bytes),
        )
        .to_le_bytes()
    }
}

impl KeyedHash for Polyval {
    ghost value = { λ h s. polyval_of (polyval_key h) s };

    ghost size = { λ h s b. length-polyval h.key.bytes s };

    ghost bytes = { λ h s b. bytes-polyval h.key.bytes s };

    fn hash(&self, first: &[u8], second: &[u8]) -> [u8; 16] {
        let chain = Chain::new().absorb(self, first).absorb(self, second);
        let mut sum = chain.sum;
        if chain.fill > 0 {
            sum = self.apply(&sum);
        }
        let bits = first.len().wrapping_add(second.len()).wrapping_mul(8);
        add_into(&mut sum, &le_bytes(bits as u64));
        self.apply(&sum)
    }
}
