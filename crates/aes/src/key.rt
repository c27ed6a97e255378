// An expanded key.
ghost use Rattle.std.specs.Prelude.{◌≡◌, ◌+◌, ◌*◌, ◌%◌, ◌≤◌, take};
ghost use Rattle.aes.specs.Cipher.{key_expansion};
ghost use Rattle.aes.specs.KeyBytes.{key_bytes};

use super::schedule::Schedule;

// A key of `nk` words, 4 or 8, expanded: four words for each of its nk + 7 round keys. Its first words are the key.
// Kept: nk as a number, since an enum would be turned into 4 or 8 at each use; 60 words for the shorter key too, since there is no heap.
#[derive(Clone, Copy)]
pub struct AesKey {
    pub(crate) nk: usize,
    pub(crate) words: Schedule,
    ghost sized: { (4 ≤ nk) × (nk ≤ 8) × (nk % 4 ≡ 0) },
    ghost scheduled: { take (4 * (nk + 7)) words ≡ key_expansion (key_bytes nk words) nk },
}
