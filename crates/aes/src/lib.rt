// AES enciphering, FIPS 197, with keys of 16 and 32 bytes.
#![tactic(auto)]

ghost use Rattle.std.specs.Prelude.{◌≡◌};
ghost use Rattle.aes.specs.Cipher.{aes as aes_of};
ghost use Rattle.aes.specs.Examples.{key128, key256, plaintext};
ghost use Rattle.aes.specs.Key.{key_of, admitted};
ghost use Rattle.aes.specs.Laws.{Laws};
ghost use Rattle.std.proofs.Common.{rules};

mod key;
mod schedule;
mod state;

pub use from_key::FromKey;
pub use key::AesKey;
use refusals::KeyLength;
use schedule::key_expansion;
use state::{last_round, load, round, store};

// An expanded key, of a key of 16 or 32 bytes.
impl FromKey for AesKey {
    ghost takes = { λ n. admitted n };

    ghost key = { λ k. key_of k };

    ghost most = { Prim.search rules };

    fn new(key: &[u8]) -> Result<AesKey, KeyLength> {
        let nk = match key.len() {
            16 => 4,
            32 => 8,
            n => return Err(KeyLength(n)),
        };
        Ok(AesKey {
            nk,
            words: key_expansion(key, nk),
        })
    }
}

impl AesKey {
    // The block enciphered under the key.
    pub fn encipher(&self, block: &[u8; 16]) -> [u8; 16]
        ensures { result ≡ aes_of (key_of self.now) block.now }
    {
        let (keys, _) = self.words.as_chunks::<4>();
        let rounds = self.nk + 6;
        let mut s = load(block, &keys[0]);
        for key in &keys[1..rounds] {
            s = round(&s, key);
        }
        store(&last_round(&s, &keys[rounds]))
    }
}

// The ciphertext of the example with a key of 16 bytes.
// Kept: a function for each example, since each is a theorem about another key.
pub fn example_128() -> [u8; 16]
    ensures { result ≡ aes_of key128 plaintext }
{
    [
        0x69, 0xc4, 0xe0, 0xd8, 0x6a, 0x7b, 0x04, 0x30, 0xd8, 0xcd, 0xb7, 0x80, 0x70, 0xb4, 0xc5,
        0x5a,
    ]
}

// The ciphertext of the example with a key of 32 bytes.
pub fn example_256() -> [u8; 16]
    ensures { result ≡ aes_of key256 plaintext }
{
    [
        0x8e, 0xa2, 0xb7, 0xca, 0x51, 0x67, 0x45, 0xbf, 0xea, 0xfc, 0x49, 0x90, 0x4b, 0x49, 0x60,
        0x89,
    ]
}

// Does nothing: its contract is the laws of AES.
pub fn laws()
    ensures { Laws }
{}
