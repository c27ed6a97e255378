// AES-CMAC of RFC 4493, with a key of 16 bytes.
ghost use Rattle.std.specs.Prelude.{◌≡◌, ◌==◌};
ghost use Rattle.aes.specs.Cipher.{aes as aes_of};
ghost use Rattle.aes.specs.Key.{key_of};
ghost use Rattle.hashes.specs.Cmac.{subkey as subkey_of, cmac as cmac_of};
ghost use Rattle.hashes.specs.Keys.{cmac_key};
ghost use Rattle.hashes.specs.Macs.{length-cmac, bytes-cmac};
ghost use Rattle.std.proofs.Common.{rules};

use crate::chain::BlockFunction;
use crate::field::masked;
use crate::key::Key;
use crate::keyed::KeyedHash;
use crate::state::Chain;
use crate::subkeys::Subkeys;
use aes::AesKey;
use from_key::FromKey;
use octets::{add_at, add_into};
use refusals::KeyLength;

const RB: u128 = 0x87;

#[derive(Clone, Copy)]
pub struct Cmac {
    keys: Subkeys,
}

// The subkey that a block gives.
fn subkey(block: &[u8; 16]) -> [u8; 16]
    ensures { result ≡ subkey_of block.now }
{
    let v = u128::from_be_bytes(*block);
    ((v << 1) ^ masked(v >> 127, RB)).to_be_bytes()
}

// The hash under a key of 16 bytes.
impl FromKey for Cmac {
    ghost takes = { λ n. (n == 16) };

    ghost key = { λ h. cmac_key h };

    ghost most = { Prim.search rules };

    fn new(key: &[u8]) -> Result<Cmac, KeyLength> {
        let key = Key::new(key)?;
        let cipher = AesKey::new(&key.bytes)?;
        let k1 = subkey(&cipher.encipher(&[0; 16]));
        let k2 = subkey(&k1);
        Ok(Cmac {
            keys: Subkeys { cipher, k1, k2 },
        })
    }
}

impl BlockFunction for AesKey {
    ghost image = { λ k. aes_of (key_of k) };

    fn apply(&self, block: &[u8; 16]) -> [u8; 16] {
        self.encipher(block)
    }
}

impl KeyedHash for Cmac {
    ghost value = { λ h s. cmac_of (cmac_key h) s };

    ghost size = { λ h s b. length-cmac (key_of h.keys.cipher) s };

    ghost bytes = { λ h s b. bytes-cmac (key_of h.keys.cipher) s };

    fn hash(&self, first: &[u8], second: &[u8]) -> [u8; 16] {
        let keys = &self.keys;
        let chain = Chain::new()
            .absorb(&keys.cipher, first)
            .absorb(&keys.cipher, second);
        let mut last = chain.sum;
        if chain.fill == 16 {
            add_into(&mut last, &keys.k1);
        } else {
            add_at(&mut last, chain.fill, &[0x80]);
            add_into(&mut last, &keys.k2);
        }
        keys.cipher.encipher(&last)
    }
}
