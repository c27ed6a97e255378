// Byte strings as words, the least significant byte first.
ghost use Rattle.std.specs.Prelude.{◌≡◌, ◌+◌, ◌*◌, ◌≤◌, length};
ghost use Rattle.chacha.specs.Words.{word as word_of, words as words_of, serialized, sums};

use super::rounds::State;
use std::array;

// Word i of a byte string.
pub(crate) fn word(s: &[u8], i: usize) -> u32
    requires { 4 * i + 4 ≤ length s.now }
    ensures { result ≡ word_of s.now i }
{
    u32::from_le_bytes([s[4 * i], s[4 * i + 1], s[4 * i + 2], s[4 * i + 3]])
}

// The first N words of a byte string.
pub(crate) fn words<const N: usize>(s: &[u8]) -> [u32; N]
    requires { 4 * N ≤ length s.now }
    ensures { result ≡ words_of N s.now }
{
    array::from_fn(|i| word(s, i))
}

// Writes the bytes of the words.
pub(crate) fn serialize(words: &[u32], bytes: &mut [u8])
    requires { length bytes.old ≡ 4 * length words.now }
    ensures { bytes.new ≡ serialized words.now }
{
    // Kept: four bytes by their place, for of bytes written through chunks_exact_mut a proof knows only how many there are.
    for (i, w) in words.iter().enumerate() {
        bytes[4 * i..4 * i + 4].copy_from_slice(&w.to_le_bytes());
    }
}

// The words of `s` and `t` added word by word.
pub(crate) fn sum(s: &State, t: &State) -> State
    ensures { result ≡ sums s.now t.now }
{
    array::from_fn(|i| s[i].wrapping_add(t[i]))
}
