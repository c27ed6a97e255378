// The promise over every list of calls.
ghost use Rattle.ends.specs.Promise.{Promise as Promised};
ghost use Rattle.ends.specs.Sending.{meaning_of};
ghost use Rattle.sealing.specs.Meaning.{meaning_of as line_meaning};

use crate::sender::Sender;
use ciphers::WideCipher;
use hashes::KeyedHash;
use sealing::Line;

// Does nothing: its contract is the promise, for a line of this meaning.
pub fn promise<C: WideCipher, J: KeyedHash>(line: &Line<C, J>)
    ensures { Promised (line_meaning C.WideCipher J.KeyedHash line.now) }
{
    line.lawful();
}

impl<C: WideCipher, J: KeyedHash> Sender<C, J> {
    // Does nothing: its contract is the promise, for the line of this sender.
    pub fn promise(&self)
        ensures { Promised (meaning_of C.WideCipher J.KeyedHash self.now) }
    {
        promise(&self.line);
    }
}
