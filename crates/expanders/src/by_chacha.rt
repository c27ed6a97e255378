// The expander by ChaCha20: a subkey by HChaCha20, and blocks under it.
ghost use Rattle.std.specs.Prelude.{◌≡◌, ◌==◌};
ghost use Rattle.chacha.specs.ChaCha20.{block as block_of};
ghost use Rattle.expanders.specs.Sequences.{nonce as nonce_of, chacha_sequence};
ghost use Rattle.chacha.proofs.Derived.{length-block, bytes-block};
ghost use Rattle.expanders.specs.Pieces.{length-blocks, bytes-blocks};
ghost use Rattle.std.proofs.Common.{rules, arith};

use crate::blocks::{Blocks, REACH, add_blocks, admit};
use crate::expander::Expander;
use crate::fault::ExpanderFault;
use crate::keys::ChaChaExpander;
use chacha::{block, subkey};
use from_key::{FromKey, exactly};
use refusals::KeyLength;

// A key of ChaCha20 with a nonce.
#[derive(Drop)]
struct Stream {
    key: [u8; 32],
    nonce: [u8; 12],
}

impl Blocks<64> for Stream {
    ghost block = { λ s j. block_of s.key j s.nonce };

    ghost long = { λ s j. length-block s.key j s.nonce };

    fn block(&self, j: u32) -> [u8; 64] {
        block(&self.key, j, &self.nonce)
    }
}

// The nonce of a domain and a tweak: the domain, three zero bytes and the tweak.
// Kept: the domain as a byte, since it stands in the nonce so; a `Domain` would be turned back at once.
fn nonce(domain: u8, tweak: &[u8; 8]) -> [u8; 12]
    ensures { result ≡ nonce_of domain tweak.now }
{
    let mut nonce = [0; 12];
    nonce[0] = domain;
    nonce[4..].copy_from_slice(tweak);
    nonce
}

// The expander under a key of 32 bytes.
impl FromKey for ChaChaExpander {
    ghost takes = { λ n. (n == 32) };

    ghost key = { λ e. e.key };

    ghost most = { Prim.search rules };

    fn new(key: &[u8]) -> Result<ChaChaExpander, KeyLength> {
        Ok(ChaChaExpander { key: exactly(key)? })
    }
}

// Kept: an impl for each expander: a trait between would say `sequence`, its laws and the parameters of `add` once more.
impl Expander for ChaChaExpander {
    ghost reach = { λ _. 4096 };

    ghost sequence = { λ e domain tweak input. chacha_sequence e.key domain tweak input };

    ghost least = { first_of (Prim.search rules, Prim.grind (arith, Self.row.coded.inj)) };

    ghost most = { first_of (Prim.search rules, Prim.grind (arith, Self.row.coded.inj)) };

    ghost size = { unfold chacha_sequence in λ e domain tweak input asked. length-blocks 64 _ 0 64 (λ j. length-block _ j _) };

    ghost bytes = { unfold chacha_sequence in λ e domain tweak input asked. bytes-blocks _ 0 64 (λ j. bytes-block _ j _) };

    fn reach(&self) -> u16 {
        REACH
    }

    fn add(
        &self,
        domain: u8,
        tweak: &[u8; 8],
        input: &[u8; 16],
        from: usize,
        stretch: &mut [u8],
    ) -> Result<(), ExpanderFault> {
        admit(domain, from, stretch.len())?;
        let stream = Stream {
            key: subkey(&self.key, input),
            nonce: nonce(domain, tweak),
        };
        add_blocks(&stream, from, stretch);
        Ok(())
    }
}
