// KeyExpansion: the words of the round keys.
ghost use Rattle.std.specs.Prelude.{◌≡◌, ◌+◌, ◌*◌, ◌/◌, ◌<◌, ◌≤◌, ◌⊎◌, length, take};
ghost use Rattle.aes.specs.Cipher.{sub_word, rot_word, rcon as rcon_of, temp as temp_of, key_words, key_expansion};

use super::state::sub_column;

// The words of the round keys stand at the front; the longest key has 60 of them.
pub(crate) type Schedule = [u32; 60];

const RCON: [u32; 10] = [
    0x01000000, 0x02000000, 0x04000000, 0x08000000, 0x10000000, 0x20000000, 0x40000000, 0x80000000,
    0x1b000000, 0x36000000,
];

// The round constant j.
fn rcon(j: usize) -> u32
    requires above { 0 < j }
    requires below { j ≤ 10 }
    ensures { result ≡ rcon_of j }
{
    RCON[j - 1]
}

// The S-box at each byte.
fn sub_word(w: u32) -> u32
    ensures { result ≡ sub_word w }
{
    sub_column([w; 4])
}

// The bytes turned by one place, the highest to the end.
fn rot_word(w: u32) -> u32
    ensures { result ≡ rot_word w }
{
    w.rotate_left(8)
}

// What word i of a key schedule adds to word i - nk, from w, the word i - 1.
fn temp(nk: usize, i: usize, w: u32) -> u32
    requires size { (nk ≡ 4) ⊎ (nk ≡ 8) }
    requires low { nk ≤ i }
    requires high { i < 4 * (nk + 7) }
    ensures { result ≡ temp_of nk i w }
{
    if i % nk == 0 {
        sub_word(rot_word(w)) ^ rcon(i / nk)
    } else if nk > 6 && i % nk == 4 {
        sub_word(w)
    } else {
        w
    }
}

// The key itself, as the first words.
fn key_words(key: &[u8]) -> Schedule
    requires { length key.now ≤ 240 }
    ensures { take (length key.now / 4) result ≡ key_words key.now (length key.now / 4) }
{
    let (words, _) = key.as_chunks::<4>();
    let mut w = [0; 60];
    // Kept: w[i], for of words written through a zip of iter_mut a proof knows only how many there are.
    for (i, word) in words.iter().enumerate() {
        w[i] = u32::from_be_bytes(*word);
    }
    w
}

// The key schedule of a key of nk words.
pub(crate) fn key_expansion(key: &[u8], nk: usize) -> Schedule
    requires size { (nk ≡ 4) ⊎ (nk ≡ 8) }
    requires long { length key.now ≡ 4 * nk }
    ensures { take (4 * (nk + 7)) result ≡ key_expansion key.now nk }
{
    let mut w = key_words(key);
    // Kept: a word is made of two words before it in the same array, by a rule that reads i.
    for i in nk..4 * (nk + 7) {
        w[i] = w[i - nk] ^ temp(nk, i, w[i - 1]);
    }
    w
}
