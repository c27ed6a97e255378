// Docked-double-decker: a wide cipher from a keyed hash and an expander.
ghost use Rattle.std.specs.Prelude.{◌≡◌, ℕ, ◌+◌, ◌≤◌, List, length, Some};
ghost use Rattle.octets.specs.Strings.{xor};
ghost use Rattle.expanders.specs.Domains.{number_of};
ghost use Rattle.ciphers.specs.Ddd.{enc as forwards, dec as backwards};
ghost use Rattle.ciphers.specs.Refusals.{past_reach};
ghost use Rattle.ciphers.specs.Construction.{length-enc, length-dec, bytes-enc, bytes-dec, dec-enc, enc-dec};
ghost use Rattle.std.proofs.Common.{rules};

use crate::fault::CipherFault;
use crate::wide::WideCipher;
use expanders::{Domain, Expander};
use hashes::KeyedHash;
use octets::{add_at, add_into, block};

#[derive(Clone, Copy, Drop)]
pub struct Ddd<H, E> {
    pub hash: H,
    pub expander: E,
}

impl<H: KeyedHash, E: Expander> Ddd<H, E> {
    // Adds the sequence of a domain to a stretch that ends within the reach.
    fn mask(&self, domain: Domain, tweak: &[u8; 8], input: &[u8; 16], stretch: &mut [u8])
        requires { length stretch.old ≤ E.Expander.reach self.now.expander }
        ensures { stretch.new ≡ xor stretch.old (E.Expander.sequence self.now.expander (number_of domain) tweak.now input.now) }
    {
        if let Err(_) = self.expander.add(domain.into(), tweak, input, 0, stretch) {
            unreachable()
        }
    }
}

impl<H: KeyedHash, E: Expander> WideCipher for Ddd<H, E> {
    ghost lowest = { λ c. 32 };

    ghost highest = { λ c. E.Expander.reach c.expander + 16 };

    ghost carried = { λ c. Some (past_reach (E.Expander.reach c.expander)) };

    ghost enc = { λ c w s. forwards (H.KeyedHash.value c.hash) (λ d i. E.Expander.sequence c.expander d w i) s };

    ghost dec = { λ c w s. backwards (H.KeyedHash.value c.hash) (λ d i. E.Expander.sequence c.expander d w i) s };

    ghost least = { Prim.search rules };

    ghost ordered = { Prim.search rules };

    ghost most = { Prim.search rules };

    ghost encsize = { λ c w s a. length-enc _ _ s a.low };

    ghost decsize = { λ c w s a. length-dec _ _ s a.low };

    ghost encbytes = { λ c w s a.
        bytes-enc _ _ (H.KeyedHash.bytes c.hash)
        (λ d i k n b. E.Expander.bytes c.expander d w i (record { known = k; tweak_long = a.tweak_long; tweak_bytes = a.tweak_bytes; input_long = n; input_bytes = b }))
        s a.low a.bytes };

    ghost decbytes = { λ c w s a.
        bytes-dec _ _ (H.KeyedHash.bytes c.hash)
        (λ d i k n b. E.Expander.bytes c.expander d w i (record { known = k; tweak_long = a.tweak_long; tweak_bytes = a.tweak_bytes; input_long = n; input_bytes = b }))
        s a.low a.bytes };

    ghost undone = { λ c w s a. dec-enc _ _ s a.low };

    ghost redone = { λ c w s a. enc-dec _ _ s a.low };

    fn admits(&self, len: usize) -> Result<(), CipherFault> {
        if len < 32 {
            return Err(CipherFault::Short(32));
        }
        self.expander.reaches(len - 16)?;
        Ok(())
    }

    fn encipher(&self, tweak: &[u8; 8], s: &mut [u8]) -> Result<(), CipherFault> {
        self.admits(s.len())?;
        let end = s.len() - 16;
        let h = self.hash.hash(&s[16..], &[]);
        add_into(s, &h);
        self.mask(Domain::Right, tweak, &block(s), &mut s[end..]);
        self.mask(Domain::Left, tweak, &block(&s[end..]), &mut s[0..end]);
        let k = self.hash.hash(&s[0..end], &[]);
        add_at(s, end, &k);
        Ok(())
    }

    fn decipher(&self, tweak: &[u8; 8], s: &mut [u8]) -> Result<(), CipherFault> {
        self.admits(s.len())?;
        let end = s.len() - 16;
        let hashed = self.hash.hash(&s[0..end], &[]);
        add_at(s, end, &hashed);
        self.mask(Domain::Left, tweak, &block(&s[end..]), &mut s[0..end]);
        self.mask(Domain::Right, tweak, &block(s), &mut s[end..]);
        let h = self.hash.hash(&s[16..], &[]);
        add_into(s, &h);
        Ok(())
    }
}
