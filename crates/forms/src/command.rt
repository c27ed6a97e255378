// The lines after the first: what the ends are asked to do.
ghost use Rattle.std.specs.Prelude.{◌≡◌, length, codes};
ghost use Rattle.forms.specs.Columns.{Reads, Only};
ghost use Rattle.forms.specs.Said.{bytes_of, asked_of, said};
ghost use Rattle.forms.specs.Scans.{whole, word as word_scan, strings as strings_scan, of_strings};
ghost use Rattle.forms.specs.Spelling.{Asks, seal as sealed, receive as received};
ghost use Rattle.forms.specs.Taking.{taken};
ghost use Rattle.forms.specs.declared.command.Command.TheVariants.{Draw, GiveUp};

use crate::hex::Hex;
use crate::reader::{Reader, Stuck};
use crate::unread::{Unread, either, limited};

// What a later line asks for.
#[derive(Clone, Copy)]
pub enum Command<'a> {
    Draw,
    GiveUp,
    Seal { header: Hex<'a>, text: Hex<'a> },
    Receive { header: Hex<'a>, record: Hex<'a> },
}

// A line that is to be a form of one word.
fn word<'a>(line: &'a [u8], text: &[u8], command: Command<'a>) -> Result<Command<'a>, Unread>
    ensures { said asked_of result ≡ whole (length line.now) (word_scan text.now (asked_of command.entry) line.now) }
{
    let mut reader = Reader { rest: line };
    let form = reader.literal(text).and(Ok(command));
    reader.finish(line, form)
}

// Takes two byte strings, each in brackets, and the bracket that closes the form. What stands before each is given.
fn strings<'a>(
    reader: &mut Reader<'a>,
    before: &[u8],
    between: &[u8],
) -> Result<(Hex<'a>, Hex<'a>), Stuck>
    ensures { taken (λ p. (bytes_of p.0, bytes_of p.1)) result reader.new.rest.now ≡ strings_scan before.now between.now reader.old.rest.now }
{
    reader.literal(before)?;
    let first = reader.hex(b')')?;
    reader.literal(between)?;
    let second = reader.hex(b')')?;
    reader.literal(b")")?;
    Ok((first, second))
}

// A line that is to be a form of two byte strings.
fn two_strings<'a>(
    line: &'a [u8],
    before: &[u8],
    between: &[u8],
) -> Result<(Hex<'a>, Hex<'a>), Unread>
    ensures { said (λ p. (bytes_of p.0, bytes_of p.1)) result ≡ whole (length line.now) (strings_scan before.now between.now line.now) }
{
    let mut reader = Reader { rest: line };
    let form = strings(&mut reader, before, between);
    reader.finish(line, form)
}

// Reads a later line.
pub fn read_command(line: &[u8]) -> Result<Command<'_>, Unread>
    ensures reads { Reads Asks line.now (said asked_of result) }
    ensures only { Only Asks line.now (said asked_of result) }
{
    let draw = word(line, b"(draw)", Command::Draw);
    let give_up = word(line, b"(give-up)", Command::GiveUp);
    let seal = two_strings(line, b"(seal (header ", b" (text ");
    let receive = two_strings(line, b"(receive (header ", b" (record ");
    let seal = seal.map(|(header, text)| Command::Seal { header, text });
    let receive = receive.map(|(header, record)| Command::Receive { header, record });
    limited(line, either(either(draw, give_up), either(seal, receive)))
}
