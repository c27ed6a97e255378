// A key of AES-CMAC with its subkeys.
ghost use Rattle.std.specs.Prelude.{◌≡◌};
ghost use Rattle.aes.specs.Key.{key_of};
ghost use Rattle.hashes.specs.Cmac.{K1, K2};

use aes::AesKey;

#[derive(Clone, Copy)]
pub(crate) struct Subkeys {
    pub(crate) cipher: AesKey,
    pub(crate) k1: [u8; 16],
    pub(crate) k2: [u8; 16],
    ghost first: { k1 ≡ K1 (key_of cipher) },
    ghost second: { k2 ≡ K2 (key_of cipher) },
}
