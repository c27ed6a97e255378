// The words of a line, one after another, and what each writes.
ghost use Rattle.std.specs.Prelude.{◌≡◌, ◌<◌, length, position, ◌==◌, option_map, IfSome};
ghost use Rattle.forms.specs.Said.{bytes_of, heard};
ghost use Rattle.forms.specs.Hex.{spelled_by};
ghost use Rattle.collating.specs.Words.{word as word_of, after, looked_up, of_length, sized, number_of, pile_of, expander_of, outcome_of};
ghost use Rattle.collating.specs.Questions.{wanted};

use crate::outcome::Outcome;
use crate::question::ExpanderKind;
use forms::{Hex, Pile};
use octets::equal;

// How many digits a number may have.
const MOST_DIGITS: usize = 13;

const PILES: [(&[u8], Pile); 2] = [(b"a", Pile::A), (b"b", Pile::B)];

const EXPANDERS: [(&[u8], ExpanderKind); 2] = [
    (b"aes", ExpanderKind::Aes),
    (b"chacha", ExpanderKind::ChaCha),
];

// What is left of a line.
#[derive(Drop)]
pub(crate) struct Fields<'a> {
    pub(crate) rest: &'a [u8],
}

// The place of the first space.
fn find_space(line: &[u8]) -> Option<usize>
    ensures place { result ≡ position (λ b. b == 32) line.now }
    ensures within { IfSome result (λ n. n < length line.now) }
{
    line.iter().position(|b| *b == b' ')
}

// What stands beside the word in a table.
pub(crate) fn look_up<T: Copy>(word: &[u8], table: &[(&[u8], T)]) -> Option<T>
    ensures { result ≡ looked_up word.now table.now }
{
    // Kept: a loop, since with the library's `find` the proof did not close: that nothing before met the test is not known.
    for (name, value) in table {
        if equal(word, name) {
            return Some(*value);
        }
    }
    None
}

// The number that a word of 1 to 13 decimal digits writes.
fn decimal(word: &[u8]) -> Option<u64>
    ensures { result ≡ number_of word.now }
{
    if word.is_empty() || word.len() > MOST_DIGITS {
        return None;
    }
    let mut value = 0;
    for c in word {
        if !c.is_ascii_digit() {
            return None;
        }
        value = value * 10 + u64::from(*c - b'0');
    }
    Some(value)
}

// A byte string of N bytes.
fn exactly<const N: usize>(hex: &Hex<'_>) -> Option<[u8; N]>
    ensures { result ≡ of_length N (bytes_of hex.now) }
{
    let mut bytes = [0; N];
    match hex.decode(&mut bytes) {
        Ok(length) if length == N => Some(bytes),
        _ => None,
    }
}

impl<'a> Fields<'a> {
    // Takes the bytes before the next space, and the space; where there is none, all that is left.
    pub(crate) fn word(&mut self) -> &'a [u8]
        ensures value { result.now ≡ word_of self.old.rest.now }
        ensures rest { self.new.rest.now ≡ after self.old.rest.now }
    {
        let line = self.rest;
        match find_space(line) {
            Some(end) => {
                self.rest = &line[end + 1..];
                &line[..end]
            }
            None => {
                self.rest = &[];
                line
            }
        }
    }

    pub(crate) fn hex(&mut self) -> Option<Hex<'a>>
        ensures value { heard result ≡ spelled_by (word_of self.old.rest.now) }
        ensures rest { self.new.rest.now ≡ after self.old.rest.now }
    {
        Hex::try_from(self.word()).ok()
    }

    // A byte string of N bytes.
    pub(crate) fn bytes<const N: usize>(&mut self) -> Option<[u8; N]>
        ensures value { result ≡ sized N (word_of self.old.rest.now) }
        ensures rest { self.new.rest.now ≡ after self.old.rest.now }
    {
        exactly(&self.hex()?)
    }

    pub(crate) fn number(&mut self) -> Option<u64>
        ensures value { result ≡ number_of (word_of self.old.rest.now) }
        ensures rest { self.new.rest.now ≡ after self.old.rest.now }
    {
        decimal(self.word())
    }

    pub(crate) fn pile(&mut self) -> Option<Pile>
        ensures value { result ≡ pile_of (word_of self.old.rest.now) }
        ensures rest { self.new.rest.now ≡ after self.old.rest.now }
    {
        look_up(self.word(), &PILES)
    }

    pub(crate) fn expander(&mut self) -> Option<ExpanderKind>
        ensures value { result ≡ expander_of (word_of self.old.rest.now) }
        ensures rest { self.new.rest.now ≡ after self.old.rest.now }
    {
        look_up(self.word(), &EXPANDERS)
    }
}

// The outcome that a word writes: a byte string, or `!` and a number.
pub(crate) fn outcome(word: &[u8]) -> Option<Outcome<Hex<'_>>>
    ensures { option_map (wanted bytes_of) result ≡ outcome_of word.now }
{
    match word {
        [b'!', digits @ ..] => Some(Outcome::Refused(decimal(digits)?)),
        _ => Some(Outcome::Bytes(Hex::try_from(word).ok()?)),
    }
}
