// The state as four words, one to a column, and the rounds on it.
ghost use Rattle.std.specs.Prelude.{◌≡◌, ◌+◌, ◌%◌, ◌<◌, map, slice_index};
ghost use Rattle.std.specs.List.{range_with_len};
ghost use Rattle.aes.specs.Cipher.{byte, sub_bytes, shift_rows, mix_columns, add_round_key};
ghost use Rattle.aes.specs.Columns.{bytes_of, sub_column, mix_column, t as t_of};

use aes_tables::{sub_byte, t0};
use std::array;

// The columns, each with row 0 as its highest byte.
pub(crate) type State = [u32; 4];

// Byte r of a word, the highest first.
fn byte_of(w: u32, r: u32) -> u8
    requires { r < 4 }
    ensures { result ≡ byte r w }
{
    ((w >> (24 - 8 * r)) & 0xff) as u8
}

// What the byte b in row r of a column gives to the column by SubBytes and MixColumns.
fn t(r: u32, b: u8) -> u32
    requires { r < 4 }
    ensures { result ≡ t_of r b }
{
    t0(b).rotate_right(8 * r)
}

// SubBytes of the byte in row r of the column r of four.
pub(crate) fn sub_column(columns: [u32; 4]) -> u32
    ensures { result ≡ sub_column (slice_index columns 0) (slice_index columns 1) (slice_index columns 2) (slice_index columns 3) }
{
    let [a, b, c, d] = columns;
    u32::from_be_bytes([
        sub_byte(byte_of(a, 0)),
        sub_byte(byte_of(b, 1)),
        sub_byte(byte_of(c, 2)),
        sub_byte(byte_of(d, 3)),
    ])
}

// The same, and then MixColumns of the column.
fn mix_column(columns: [u32; 4]) -> u32
    ensures { result ≡ mix_column (slice_index columns 0) (slice_index columns 1) (slice_index columns 2) (slice_index columns 3) }
{
    let [a, b, c, d] = columns;
    t(0, byte_of(a, 0)) ^ t(1, byte_of(b, 1)) ^ t(2, byte_of(c, 2)) ^ t(3, byte_of(d, 3))
}

// The columns from which ShiftRows brings the bytes of rows 0 to 3 into column c.
fn shifted(s: &State, c: usize) -> [u32; 4]
    requires { c < 4 }
    ensures { result ≡ map (λ r. slice_index s.now ((c + r) % 4)) (range_with_len 0 4) }
{
    array::from_fn(|r| s[(c + r) % 4])
}

// AddRoundKey of a block.
pub(crate) fn load(block: &[u8; 16], key: &[u32; 4]) -> State
    ensures { bytes_of result ≡ add_round_key block.now key.now 0 }
{
    let (columns, _) = block.as_chunks::<4>();
    array::from_fn(|c| u32::from_be_bytes(columns[c]) ^ key[c])
}

// A round but for the last.
pub(crate) fn round(s: &State, key: &[u32; 4]) -> State
    ensures { bytes_of result ≡ add_round_key (mix_columns (shift_rows (sub_bytes (bytes_of s.now)))) key.now 0 }
{
    array::from_fn(|c| mix_column(shifted(s, c)) ^ key[c])
}

// The last round, which does not mix columns.
// Kept: beside `round`, since a parameter for what is done with a column needs a contract longer than both.
pub(crate) fn last_round(s: &State, key: &[u32; 4]) -> State
    ensures { bytes_of result ≡ add_round_key (shift_rows (sub_bytes (bytes_of s.now))) key.now 0 }
{
    array::from_fn(|c| sub_column(shifted(s, c)) ^ key[c])
}

// The bytes of the state.
pub(crate) fn store(s: &State) -> [u8; 16]
    ensures { result ≡ bytes_of s.now }
{
    let [a, b, c, d] = s[0].to_be_bytes();
    let [e, f, g, h] = s[1].to_be_bytes();
    let [i, j, k, l] = s[2].to_be_bytes();
    let [m, n, o, p] = s[3].to_be_bytes();
    [a, b, c, d, e, f, g, h, i, j, k, l, m, n, o, p]
}
