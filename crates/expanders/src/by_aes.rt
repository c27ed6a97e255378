// The expander by AES: a counter added to a masked input.
ghost use Rattle.std.specs.Prelude.{◌≡◌};
ghost use Rattle.aes.specs.Key.{key_of, admitted};
ghost use Rattle.expanders.specs.Sequences.{mask as mask_of, counter_block, aes_sequence};
ghost use Rattle.expanders.specs.Counters.{length-counted, bytes_counted};
ghost use Rattle.expanders.specs.Pieces.{length-blocks, bytes-blocks};
ghost use Rattle.std.proofs.Common.{rules};

use crate::blocks::{Blocks, REACH, add_blocks, admit};
use crate::expander::Expander;
use crate::fault::ExpanderFault;
use crate::keys::AesExpander;
use aes::AesKey;
use from_key::FromKey;
use octets::{add_at, add_into};
use refusals::KeyLength;

// What is enciphered, block by block: a base with a counter added at its end.
#[derive(Drop)]
struct Counters<'a> {
    key: &'a AesKey,
    base: [u8; 16],
}

impl Blocks<16> for Counters<'_> {
    ghost block = { λ c j. counter_block (key_of c.key.now) c.base j };

    ghost long = { λ c j. length-counted _ _ j };

    fn block(&self, j: u32) -> [u8; 16] {
        let mut counter = self.base;
        add_at(&mut counter, 12, &j.to_be_bytes());
        self.key.encipher(&counter)
    }
}

// The expander under a key of 16 or 32 bytes.
impl FromKey for AesExpander {
    ghost takes = { λ n. admitted n };

    ghost key = { λ e. key_of e.key };

    ghost most = { Prim.search rules };

    fn new(key: &[u8]) -> Result<AesExpander, KeyLength> {
        let key = AesKey::new(key)?;
        Ok(AesExpander { key })
    }
}

impl AesExpander {
    // AES of the domain, the tweak and seven zero bytes.
    // Kept: the domain as a byte, since it stands in the block so; a `Domain` would be turned back at once.
    fn mask(&self, domain: u8, tweak: &[u8; 8]) -> [u8; 16]
        ensures { result ≡ mask_of (key_of self.now.key) domain tweak.now }
    {
        let mut block = [0; 16];
        block[0] = domain;
        block[1..9].copy_from_slice(tweak);
        self.key.encipher(&block)
    }
}

// Kept: an impl for each expander: a trait between would say `sequence`, its laws and the parameters of `add` once more.
impl Expander for AesExpander {
    ghost reach = { λ _. 4096 };

    ghost sequence = { λ e domain tweak input. aes_sequence (key_of e.key) domain tweak input };

    ghost least = { Prim.search rules };

    ghost most = { Prim.search rules };

    ghost size = { unfold aes_sequence in λ e domain tweak input asked. length-blocks 16 _ 0 256 (λ j. length-counted _ _ j) };

    ghost bytes = { unfold aes_sequence in λ e domain tweak input asked. bytes-blocks _ 0 256 (λ j. bytes_counted _ _ j) };

    fn reach(&self) -> u16 {
        REACH
    }

    fn add(
        &self,
        domain: u8,
        tweak: &[u8; 8],
        input: &[u8; 16],
        from: usize,
        stretch: &mut [u8],
    ) -> Result<(), ExpanderFault> {
        admit(domain, from, stretch.len())?;
        let mut base = *input;
        add_into(&mut base, &self.mask(domain, tweak));
        let counters = Counters {
            key: &self.key,
            base,
        };
        add_blocks(&counters, from, stretch);
        Ok(())
    }
}
