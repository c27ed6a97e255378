// Plain seal and plain open: what a board calls to seal and open without an end.
ghost use Rattle.std.specs.Prelude.{◌≡◌, length};
ghost use Rattle.sealing.specs.Calls.{sealing as sealing_of, opening, placed, text_of};
ghost use Rattle.sealing.specs.Sealing.{record_of};
ghost use Rattle.boards.specs.Lines.{line_of, line_brought, meant_by};
ghost use Rattle.boards.specs.Plain.{sealed, opened, written, Seals, Opens};

use crate::answer::{Answer, Done};
use crate::brought::Brought;
use crate::fault::{Fault, answer};
use crate::line::AnyLine;
use sealing::{Opened, SealingFault, Work};

// Kept: header, record and areas one by one, here and in the other calls, since C lends them so.
impl AnyLine {
    #[tactic(auto, using(crate::proofs::Dispatch::same_line))]
    fn seal(
        &self,
        number: u64,
        header: &[u8],
        text: &[u8],
        area: &mut [u8],
    ) -> Result<usize, SealingFault>
        ensures answer { result ≡ sealing_of (meant_by self.now) number (length header.now) (length text.now) (length area.old) }
        ensures after { area.new ≡ placed result area.old (record_of (meant_by self.now) header.now number text.now) }
    {
        match self {
            AnyLine::A(line) => line.seal(number, header, text, area),
            AnyLine::B(line) => line.seal(number, header, text, area),
        }
    }

    fn open(
        &self,
        header: &[u8],
        record: &[u8],
        work: &mut [u8],
        text: &mut [u8],
    ) -> Result<Opened, SealingFault>
        ensures answer { result ≡ opening (meant_by self.now) header.now «record».now (length work.old) (length text.old) }
        ensures after { text.new ≡ placed result text.old (text_of (meant_by self.now) «record».now) }
    {
        match self {
            AnyLine::A(line) => line.open(header, record, work, text),
            AnyLine::B(line) => line.open(header, record, work, text),
        }
    }
}

impl Brought<'_> {
    fn seal(&self, number: u64, header: &[u8], text: &[u8], area: &mut [u8]) -> Result<Done, Fault>
        ensures answer { result ≡ sealed (line_brought self.now) number header.now text.now (length area.old) }
        ensures after { area.new ≡ written (line_brought self.now) result (λ m. record_of m header.now number text.now) area.old }
    {
        let length = self.line()?.seal(number, header, text, area)?;
        Ok(Done { number, length })
    }

    fn open(
        &self,
        header: &[u8],
        record: &[u8],
        work: &mut [u8],
        text: &mut [u8],
    ) -> Result<Done, Fault>
        ensures answer { result ≡ opened (line_brought self.now) header.now «record».now (length work.old) (length text.old) }
        ensures after { text.new ≡ written (line_brought self.now) result (λ m. text_of m «record».now) text.old }
    {
        let opened = self.line()?.open(header, record, work, text)?;
        Ok(opened.into())
    }
}

// Seals a text under a number: the record goes to the front of the area.
#[unsafe(no_mangle)]
pub extern "C" fn sidingmint_seal<'a>(
    pile: u8,
    hash_key: &'a [u8],
    expander_key: &'a [u8],
    header_key: &'a [u8],
    line: &'a [u8],
    number: u64,
    header: &[u8],
    text: &[u8],
    area: &mut [u8],
) -> Answer
    ensures { Seals (line_of pile hash_key.now expander_key.now header_key.now line.now) number header.now text.now area.old result area.new }
{
    let brought = Brought {
        pile,
        hash_key,
        expander_key,
        header_key,
        name: line,
    };
    answer(brought.seal(number, header, text, area))
}

// Opens a record: its text goes to the front of `text`. The work area is all zero afterwards, whatever the answer.
#[unsafe(no_mangle)]
pub extern "C" fn sidingmint_open<'a>(
    pile: u8,
    hash_key: &'a [u8],
    expander_key: &'a [u8],
    header_key: &'a [u8],
    line: &'a [u8],
    header: &[u8],
    record: &[u8],
    work: &mut [u8],
    text: &mut [u8],
) -> Answer
    ensures { Opens (line_of pile hash_key.now expander_key.now header_key.now line.now) header.now «record».now work.old text.old result work.new text.new }
{
    let brought = Brought {
        pile,
        hash_key,
        expander_key,
        header_key,
        name: line,
    };
    let guard = Work(work);
    answer(brought.open(header, record, &mut *guard.0, text))
}
