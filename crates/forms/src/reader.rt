// Takes the parts of a line one after another.
ghost use Rattle.std.specs.Prelude.{◌≡◌, ℕ, ◌≤◌, [], length, None, Option};
ghost use Rattle.forms.specs.Scans.{one, is, tenth, byte as byte_scan, bytes as bytes_scan, literal as literal_scan, hex as hex_scan, number as number_scan, whole};
ghost use Rattle.forms.specs.Hex.{nibbled};
ghost use Rattle.forms.specs.Said.{bytes_of, said};
ghost use Rattle.forms.specs.Taking.{taken};

use crate::hex::{Hex, nibble};
use crate::unread::Unread;

// How many digits a number may have.
const MOST_DIGITS: usize = 13;

// The line cannot go on at what is left of it.
#[derive(Clone, Copy)]
pub(crate) struct Stuck;

// What is left of a line.
#[derive(Drop)]
pub(crate) struct Reader<'a> {
    pub(crate) rest: &'a [u8],
}

// The number that a decimal digit stands for.
fn decimal(c: u8) -> Option<u64>
    ensures { result ≡ tenth c }
{
    char::from(c).to_digit(10).map(u64::from)
}

impl<'a> Reader<'a> {
    // Takes the next byte if it has a value.
    pub(crate) fn one<V, F: FnOnce(u8) -> Option<V>>(&mut self, value: F) -> Result<V, Stuck>
        requires { F.IsAlwaysCallable value }
        ensures { (of : ℕ → Option V) → ((b : ℕ) (o : Option V) → F.post value b o → o ≡ of b) → taken (λ x. x) result self.new.rest.now ≡ one of self.old.rest.now }
    {
        let (first, rest) = self.rest.split_first().ok_or(Stuck)?;
        let value = value(*first).ok_or(Stuck)?;
        self.rest = rest;
        Ok(value)
    }

    // Takes the byte `b`.
    fn eat(&mut self, b: u8) -> Result<(), Stuck>
        ensures { taken (λ x. x) result self.new.rest.now ≡ one (is b) self.old.rest.now }
    {
        self.one(|c| (c == b).then_some(()))
    }

    // Takes the two digits of a byte.
    fn byte(&mut self) -> Result<u8, Stuck>
        ensures { taken (λ x. x) result self.new.rest.now ≡ byte_scan self.old.rest.now }
    {
        let high = self.one(nibble)?;
        let low = self.one(nibble)?;
        Ok(high * 16 + low)
    }

    // Takes `text`.
    pub(crate) fn literal(&mut self, text: &[u8]) -> Result<(), Stuck>
        ensures { taken (λ x. x) result self.new.rest.now ≡ literal_scan text.now self.old.rest.now }
    {
        for b in text {
            self.eat(*b)?;
        }
        Ok(())
    }

    // Takes the 16 digits of the name of a line.
    pub(crate) fn name(&mut self) -> Result<[u8; 8], Stuck>
        ensures { taken (λ x. x) result self.new.rest.now ≡ bytes_scan 8 [] self.old.rest.now }
    {
        let mut name = [0; 8];
        for b in &mut name {
            *b = self.byte()?;
        }
        Ok(name)
    }

    // Takes 1 to 13 decimal digits and the `)` after them.
    pub(crate) fn number(&mut self) -> Result<u64, Stuck>
        ensures { taken (λ x. x) result self.new.rest.now ≡ number_scan self.old.rest.now }
    {
        let mut value = self.one(decimal)?;
        for _count in 1..MOST_DIGITS {
            if self.eat(b')').is_ok() {
                return Ok(value);
            }
            value = value * 10 + self.one(decimal)?;
        }
        self.eat(b')')?;
        Ok(value)
    }

    // Takes a byte string and the byte `close` after it.
    pub(crate) fn hex(&mut self, close: u8) -> Result<Hex<'a>, Stuck>
        requires { nibbled close ≡ None }
        ensures { taken bytes_of result self.new.rest.now ≡ hex_scan close self.old.rest.now }
    {
        let line = self.rest;
        if self.eat(b'-').is_ok() {
            self.eat(close)?;
            return Ok(Hex { digits: &line[..1] });
        }
        self.byte()?;
        while self.eat(close).is_err() {
            self.byte()?;
        }
        let end = line.len() - self.rest.len() - 1;
        Ok(Hex {
            digits: &line[..end],
        })
    }

    // The form if the line ends with it, or else the column of the first byte that is left.
    // Kept: the line stands beside its reader, since as a field each method would have to promise that it stays.
    pub(crate) fn finish<F: Drop>(&self, line: &[u8], form: Result<F, Stuck>) -> Result<F, Unread>
        requires { length self.now.rest.now ≤ length line.now }
        ensures { said (λ x. x) result ≡ whole (length line.now) (taken (λ x. x) form self.now.rest.now) }
    {
        match form {
            Ok(form) if self.rest.is_empty() => Ok(form),
            _ => Err(Unread(line.len() - self.rest.len() + 1)),
        }
    }
}
