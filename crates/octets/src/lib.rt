// Byte strings: routines over lent slices, and the laws of byte strings.
#![tactic(auto)]

ghost use Rattle.std.specs.Prelude.{◌≡◌, length};
ghost use Rattle.octets.specs.Strings.{Bytes, xor, xor_at, le, be, be_value, zeros, filled, same};
ghost use Rattle.octets.specs.Laws.{Laws};

// Adds `src` to `dst` bit by bit, from the start, as far as both go.
pub fn add_into(dst: &mut [u8], src: &[u8])
    ensures { dst.new ≡ xor dst.old src.now }
{
    let n = dst.len().min(src.len());
    // Kept: dst[i]; tried through a zip of iter_mut, of which a proof knows only how many bytes were written.
    for (i, s) in src[..n].iter().enumerate() {
        dst[i] ^= s;
    }
}

// Adds `src` to the part of `dst` that begins at `at`; past the end there is none.
pub fn add_at(dst: &mut [u8], at: usize, src: &[u8])
    ensures { dst.new ≡ xor_at at dst.old src.now }
{
    if at < dst.len() {
        add_into(&mut dst[at..], src);
    }
}

// Makes every byte zero.
pub fn clear(area: &mut [u8])
    ensures { area.new ≡ zeros (length area.old) }
{
    area.fill(0);
}

// Whether two strings are the same. Where their lengths agree, every byte of both is read whatever they hold.
pub fn equal(a: &[u8], b: &[u8]) -> bool
    ensures { result ≡ same a.now b.now }
{
    if a.len() != b.len() {
        return false;
    }
    let mut differ = 0;
    for (x, y) in a.iter().zip(b) {
        differ |= x ^ y;
    }
    differ == 0
}

// Eight bytes, the most significant first.
pub fn be_bytes(n: u64) -> [u8; 8]
    ensures { result ≡ be 8 n }
{
    n.to_be_bytes()
}

// Eight bytes, the least significant first.
pub fn le_bytes(n: u64) -> [u8; 8]
    ensures { result ≡ le 8 n }
{
    n.to_le_bytes()
}

// The number that eight bytes stand for, the most significant first.
pub fn be_value(bytes: &[u8; 8]) -> u64
    ensures { result ≡ be_value bytes.now }
{
    u64::from_be_bytes(*bytes)
}

// The first N bytes, with zero bytes after them where there are fewer.
pub fn block<const N: usize>(s: &[u8]) -> [u8; N]
    ensures { result ≡ filled N s.now }
{
    let mut b = [0; N];
    let n = s.len().min(N);
    b[..n].copy_from_slice(&s[..n]);
    b
}

fn look(_s: &[u8]) {}

// Does nothing: its caller learns that a slice of bytes holds bytes.
pub fn known(s: &[u8])
    ensures { Bytes s.now }
{
    look(s);
}

// Does nothing: its contract is the laws of byte strings.
pub fn laws()
    ensures { Laws }
{}
