// The first line: which pile of parts the ends use, their keys, the name of the line and the first number.
ghost use Rattle.std.specs.Prelude.{◌≡◌};
ghost use Rattle.forms.specs.Columns.{Reads, Only};
ghost use Rattle.forms.specs.Said.{keys_of, ends_of, said};
ghost use Rattle.forms.specs.Scans.{piled, keys as keys_scan, line_name, first_number, ends as ends_scan};
ghost use Rattle.forms.specs.Spelling.{Opens};
ghost use Rattle.forms.specs.Taking.{taken};

use crate::hex::Hex;
use crate::reader::{Reader, Stuck};
use crate::unread::{Unread, limited};

// Which parts the ends are built of.
#[derive(Clone, Copy, PartialEq, Eq, Debug)]
pub enum Pile {
    A,
    B,
}

// The keys of the ends, of any length: those of the parts of the cipher, and of the hash of the header.
#[derive(Clone, Copy)]
pub struct Keys<'a> {
    pub hash: Hex<'a>,
    pub expander: Hex<'a>,
    pub header: Hex<'a>,
}

// What the first line says.
#[derive(Clone, Copy)]
pub struct Opening<'a> {
    pub pile: Pile,
    pub keys: Keys<'a>,
    pub line: [u8; 8],
    pub first: u64,
}

// The pile that a letter names.
fn pile_of(letter: u8) -> Option<Pile>
    ensures { result ≡ piled letter }
{
    match letter {
        b'a' => Some(Pile::A),
        b'b' => Some(Pile::B),
        _ => None,
    }
}

// Takes the three keys.
fn take_keys<'a>(reader: &mut Reader<'a>) -> Result<Keys<'a>, Stuck>
    ensures { taken keys_of result reader.new.rest.now ≡ keys_scan reader.old.rest.now }
{
    reader.literal(b") (keys ")?;
    let hash = reader.hex(b' ')?;
    let expander = reader.hex(b' ')?;
    let header = reader.hex(b')')?;
    Ok(Keys {
        hash,
        expander,
        header,
    })
}

// Takes the name of the line.
fn line_name(reader: &mut Reader) -> Result<[u8; 8], Stuck>
    ensures { taken (λ x. x) result reader.new.rest.now ≡ line_name reader.old.rest.now }
{
    reader.literal(b" (line ")?;
    let name = reader.name()?;
    reader.literal(b")")?;
    Ok(name)
}

// Takes the first number.
// Kept: one function for this and the name of the line would take the part as a closure over the reader, and is no plainer.
fn first_number(reader: &mut Reader) -> Result<u64, Stuck>
    ensures { taken (λ x. x) result reader.new.rest.now ≡ first_number reader.old.rest.now }
{
    reader.literal(b" (first ")?;
    let number = reader.number()?;
    reader.literal(b")")?;
    Ok(number)
}

// Takes the whole form.
fn ends<'a>(reader: &mut Reader<'a>) -> Result<Opening<'a>, Stuck>
    ensures { taken ends_of result reader.new.rest.now ≡ ends_scan reader.old.rest.now }
{
    reader.literal(b"(ends (pile ")?;
    let pile = reader.one(pile_of)?;
    let keys = take_keys(reader)?;
    let line = line_name(reader)?;
    let first = first_number(reader)?;
    Ok(Opening {
        pile,
        keys,
        line,
        first,
    })
}

// Reads the first line, which is an `ends` form.
pub fn read_opening(line: &[u8]) -> Result<Opening<'_>, Unread>
    ensures reads { Reads Opens line.now (said ends_of result) }
    ensures only { Only Opens line.now (said ends_of result) }
{
    let mut reader = Reader { rest: line };
    let form = ends(&mut reader);
    limited(line, reader.finish(line, form))
}
