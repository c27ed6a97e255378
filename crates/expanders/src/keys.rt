// What the expanders hold.
ghost use Rattle.std.specs.Prelude.{◌≡◌, length};
ghost use Rattle.octets.specs.Strings.{Bytes};

use aes::AesKey;

// The expander by AES, under a key of 16 or 32 bytes.
#[derive(Clone, Copy)]
pub struct AesExpander {
    pub(crate) key: AesKey,
}

// The expander by ChaCha20, under a key of 32 bytes.
#[derive(Clone, Copy)]
pub struct ChaChaExpander {
    pub(crate) key: [u8; 32],
    ghost long: { length key ≡ 32 },
    ghost bytes: { Bytes key },
}
