// A byte string as it stands in a line: how it is read, and how it is written.
ghost use Rattle.std.specs.Prelude.{◌≡◌, ◌+◌, ◌*◌, length, Some};
ghost use Rattle.forms.specs.Decoding.{decoded, placed};
ghost use Rattle.forms.specs.Hex.{nibbled, worth, digits, paired, hexed};
ghost use Rattle.forms.specs.Said.{bytes_of};
ghost use Rattle.forms.specs.Words.{Spells};

use std::fmt;

// A byte string in hexadecimal, or `-` for none: what was read of a line, which it borrows.
#[derive(Clone, Copy)]
pub struct Hex<'a> {
    pub(crate) digits: &'a [u8],
}

// A byte string that is written in lower-case hexadecimal, or `-` for none.
#[derive(Clone, Copy)]
pub struct Hexadecimal<'a>(pub &'a [u8]);

// A word spells no byte string.
#[derive(Clone, Copy, PartialEq, Eq, Debug)]
pub struct NotHex;

// An area is too short for a byte string, which needs this length.
#[derive(Clone, Copy, PartialEq, Eq, Debug)]
pub struct TooShort {
    pub needed: usize,
}

// The number that a hexadecimal digit stands for.
// Kept: char::to_digit takes upper case too, which no line may have, so a test beside it is no plainer.
pub(crate) fn nibble(c: u8) -> Option<u8>
    ensures { result ≡ nibbled c }
{
    match c {
        b'0'..=b'9' => Some(c - b'0'),
        b'a'..=b'f' => Some(c - b'a' + 10),
        _ => None,
    }
}

// The byte that two digits stand for.
fn pair(high: u8, low: u8) -> u8
    ensures { result ≡ worth high * 16 + worth low }
{
    nibble(high).unwrap_or(0) * 16 + nibble(low).unwrap_or(0)
}

// Whether each byte of a word is a digit.
fn is_digits(word: &[u8]) -> bool
    ensures { result ≡ digits word.now }
{
    word.iter().all(|c| nibble(*c).is_some())
}

// Whether a word is two digits for each of one byte or more.
fn is_pairs(word: &[u8]) -> bool
    ensures { result ≡ paired word.now }
{
    !word.is_empty() && word.len() % 2 == 0 && is_digits(word)
}

// The byte string that a whole word spells, if it spells one.
impl<'a> TryFrom<&'a [u8]> for Hex<'a> {
    type Error = NotHex;

    ghost try_from_gives = { λ word r. Spells word.now r };

    fn try_from(word: &'a [u8]) -> Result<Hex<'a>, NotHex> {
        if word == b"-".as_slice() || is_pairs(word) {
            return Ok(Hex { digits: word });
        }
        Err(NotHex)
    }
}

impl Hex<'_> {
    // How many bytes it stands for.
    pub fn len(&self) -> usize
        ensures { result ≡ length (bytes_of self.now) }
    {
        self.digits.len() / 2
    }

    // Writes the bytes that it stands for at the front of `area`, and answers how many they are. An area that is too short is left as it is.
    // Kept: a length, since with a slice of the area in the result nothing could be said of the rest of it.
    pub fn decode(&self, area: &mut [u8]) -> Result<usize, TooShort>
        ensures answer { result ≡ decoded (bytes_of self.now) (length area.old) }
        ensures after { area.new ≡ placed (bytes_of self.now) area.old }
    {
        let needed = self.len();
        if area.len() < needed {
            return Err(TooShort { needed });
        }
        let (pairs, _) = self.digits.as_chunks::<2>();
        // Kept: area[i], for of bytes written through a zip of iter_mut a proof knows only how many there are.
        for (i, [high, low]) in pairs.iter().enumerate() {
            area[i] = pair(*high, *low);
        }
        Ok(needed)
    }
}

impl fmt::Display for Hexadecimal<'_> {
    ghost output = { λ d. Some (hexed d.0.now) };

    fn fmt<W: fmt::Write>(&self, f: &mut fmt::Formatter<W>) -> fmt::Result {
        if self.0.is_empty() {
            return f.write_str("-");
        }
        for &b in self.0 {
            write!(f, "{b:02x}")?;
        }
        Ok(())
    }
}
