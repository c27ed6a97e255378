// Plain open.
ghost use Rattle.std.specs.Prelude.{◌≡◌, ◌+◌, ◌≤◌, length, take};
ghost use Rattle.octets.specs.Strings.{zeros};
ghost use Rattle.sealing.specs.Calls.{examining, opening, placed, plain, text_of};
ghost use Rattle.sealing.specs.Exactly.{OpensExactly};
ghost use Rattle.sealing.specs.Meaning.{meaning_of};

use crate::fault::SealingFault;
use crate::guard::Work;
use crate::limits::{judge_header, judge_number};
use crate::line::Line;
use ciphers::WideCipher;
use hashes::KeyedHash;
use octets::{be_value, block, equal};

// The number of a record and the length of its text.
#[derive(Clone, Copy, PartialEq, Eq, Debug)]
pub struct Opened {
    pub number: u64,
    pub length: usize,
}

// The first eight bytes of a record: its number, and the tweak.
fn front(record: &[u8]) -> [u8; 8]
    requires { 8 ≤ length «record».now }
    ensures { result ≡ take 8 «record».now }
{
    block(record)
}

// Judges sizes and number of a record, for areas of these lengths, and answers its number.
pub fn examine<C: WideCipher>(
    cipher: &C,
    header: &[u8],
    record: &[u8],
    work: usize,
    text: usize,
) -> Result<u64, SealingFault>
    ensures { result ≡ examining (C.WideCipher.lowest cipher.now) (C.WideCipher.highest cipher.now) (C.WideCipher.carried cipher.now) (length header.now) «record».now work text }
{
    if record.len() < 8 {
        return Err(SealingFault::RecordShort(record.len()));
    }
    judge_header(header)?;
    let size = record.len() - 8;
    cipher.admits(size)?;
    if work < size {
        return Err(SealingFault::WorkShort(size));
    }
    let needed = size - 16;
    if text < needed {
        return Err(SealingFault::AreaShort(needed));
    }
    judge_number(be_value(&front(record)))
}

impl<C: WideCipher, J> Line<C, J> {
    // The same, of the line's cipher.
    pub fn examine(
        &self,
        header: &[u8],
        record: &[u8],
        work: usize,
        text: usize,
    ) -> Result<u64, SealingFault>
        ensures { result ≡ examining (C.WideCipher.lowest self.now.cipher) (C.WideCipher.highest self.now.cipher) (C.WideCipher.carried self.now.cipher) (length header.now) «record».now work text }
    {
        examine(&self.cipher, header, record, work, text)
    }
}

impl<C: WideCipher, J: KeyedHash> Line<C, J> {
    // Deciphers a record past its number into `body`.
    fn decipher(&self, record: &[u8], body: &mut [u8])
        requires size { length «record».now ≡ length body.old + 8 }
        requires least { 16 ≤ length body.old }
        requires low { C.WideCipher.lowest self.now.cipher ≤ length body.old }
        requires high { length body.old ≤ C.WideCipher.highest self.now.cipher }
        ensures { body.new ≡ plain (meaning_of C.WideCipher J.KeyedHash self.now) «record».now }
    {
        body.copy_from_slice(&record[8..]);
        if let Err(_) = self.cipher.decipher(&front(record), body) {
            unreachable()
        }
    }

    // Opens a record: its text goes to the front of `text`, and the work area is all zero afterwards, whatever the answer.
    // Kept: header, record and areas one by one, here and above, since a struct of them would be made for each call.
    #[tactic(auto, using(crate::proofs::Sealings::exactly, crate::proofs::Examined::tag_fits))]
    pub fn open(
        &self,
        header: &[u8],
        record: &[u8],
        work: &mut [u8],
        text: &mut [u8],
    ) -> Result<Opened, SealingFault>
        ensures answer { result ≡ opening (meaning_of C.WideCipher J.KeyedHash self.now) header.now «record».now (length work.old) (length text.old) }
        ensures after { text.new ≡ placed result text.old (text_of (meaning_of C.WideCipher J.KeyedHash self.now) «record».now) }
        ensures zeroed { work.new ≡ zeros (length work.old) }
        ensures exactly { OpensExactly (meaning_of C.WideCipher J.KeyedHash self.now) header.now «record».now (length work.old) text.old text.new result }
    {
        self.lawful();
        let guard = Work(work);
        let number = self.examine(header, record, guard.0.len(), text.len())?;
        let size = record.len() - 8;
        let body = &mut guard.0[0..size];
        self.decipher(record, body);
        let tag = self.tag(header);
        if !equal(&body[0..16], &tag) {
            return Err(SealingFault::NoSealing);
        }
        let length = size - 16;
        text[0..length].copy_from_slice(&body[16..size]);
        Ok(Opened { number, length })
    }
}
