// Plain seal.
ghost use Rattle.std.specs.Prelude.{◌≡◌, ℕ, ◌+◌, ◌≤◌, length, take, Ok};
ghost use Rattle.sealing.specs.Calls.{sealing, placed};
ghost use Rattle.sealing.specs.Meaning.{meaning_of};
ghost use Rattle.sealing.specs.Sealing.{record_of, IsSealing};

use crate::fault::SealingFault;
use crate::limits::{judge_header, judge_number};
use crate::line::Line;
use ciphers::WideCipher;
use hashes::KeyedHash;
use octets::be_bytes;

impl<C: WideCipher, J: KeyedHash> Line<C, J> {
    // Writes the record of `text` under `number` at the front of the area, and answers its length.
    // Kept: a length and not the record, since C is told it, and the area stays the caller's.
    pub fn seal(
        &self,
        number: u64,
        header: &[u8],
        text: &[u8],
        area: &mut [u8],
    ) -> Result<usize, SealingFault>
        ensures answer { result ≡ sealing (meaning_of C.WideCipher J.KeyedHash self.now) number (length header.now) (length text.now) (length area.old) }
        ensures after { area.new ≡ placed result area.old (record_of (meaning_of C.WideCipher J.KeyedHash self.now) header.now number text.now) }
        ensures sealed { (k : ℕ) → result ≡ Ok k → IsSealing (meaning_of C.WideCipher J.KeyedHash self.now) header.now (take k area.new) number text.now }
    {
        self.lawful();
        judge_header(header)?;
        self.cipher.admits(text.len().saturating_add(16))?;
        let needed = text.len() + 24;
        if area.len() < needed {
            return Err(SealingFault::AreaShort(needed));
        }
        judge_number(number)?;
        self.write(number, header, text, &mut area[0..needed]);
        Ok(needed)
    }

    // Lays the record out and enciphers it.
    fn write(&self, number: u64, header: &[u8], text: &[u8], area: &mut [u8])
        requires size { length area.old ≡ length text.now + 24 }
        requires low { C.WideCipher.lowest self.now.cipher ≤ 16 + length text.now }
        requires high { 16 + length text.now ≤ C.WideCipher.highest self.now.cipher }
        ensures { area.new ≡ record_of (meaning_of C.WideCipher J.KeyedHash self.now) header.now number text.now }
    {
        let tweak = be_bytes(number);
        let tag = self.tag(header);
        area[0..8].copy_from_slice(&tweak);
        let body = &mut area[8..];
        body[0..16].copy_from_slice(&tag);
        body[16..].copy_from_slice(text);
        if let Err(_) = self.cipher.encipher(&tweak, body) {
            unreachable()
        }
    }
}
