// The two ciphers that are shipped, and how a cipher is made from the keys of its parts.
ghost use Rattle.std.specs.Prelude.{◌≡◌};
ghost use Rattle.from_key.specs.Taken.{taken};
ghost use Rattle.ciphers.specs.Piles.{both, held_by};

use crate::ddd::Ddd;
use expanders::{AesExpander, ChaChaExpander};
use from_key::FromKey;
use hashes::{Cmac, Polyval};
use refusals::KeyLength;

// POLYVAL with the AES expander.
pub type PileA = Ddd<Polyval, AesExpander>;

// CMAC with the ChaCha expander.
pub type PileB = Ddd<Cmac, ChaChaExpander>;

impl<H: FromKey + Drop, E: FromKey + Drop> Ddd<H, E> {
    // The cipher under a key of the hash and a key of the expander, judged in this order.
    pub fn from_keys(hash_key: &[u8], expander_key: &[u8]) -> Result<Ddd<H, E>, KeyLength>
        ensures { held_by H.FromKey.key E.FromKey.key result ≡ both (taken H.FromKey.takes hash_key.now) (taken E.FromKey.takes expander_key.now) }
    {
        let hash = H::new(hash_key)?;
        let expander = E::new(expander_key)?;
        Ok(Ddd { hash, expander })
    }
}
