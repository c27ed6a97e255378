// What a line's cipher, hash and name promise together.
ghost use Rattle.std.specs.Prelude.{◌≡◌};
ghost use Rattle.sealing.specs.Meaning.{Lawful, meaning_of};
ghost use Rattle.sealing.specs.Sealing.{tag};

use crate::line::Line;
use ciphers::WideCipher;
use hashes::KeyedHash;

impl<C: WideCipher, J: KeyedHash> Line<C, J> {
    // Does nothing: its caller learns the laws of the line's meaning.
    pub fn lawful(&self)
        ensures { Lawful (meaning_of C.WideCipher J.KeyedHash self.now) }
    {}

    pub(crate) fn tag(&self, header: &[u8]) -> [u8; 16]
        ensures { result ≡ tag (meaning_of C.WideCipher J.KeyedHash self.now) header.now }
    {
        self.hash.hash(&self.name.bytes, header)
    }
}
