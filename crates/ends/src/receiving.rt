// What a receiver does.
ghost use Rattle.std.specs.Prelude.{◌≡◌, true, length};
ghost use Rattle.octets.specs.Strings.{zeros};
ghost use Rattle.sealing.specs.Calls.{placed, text_of};
ghost use Rattle.ends.specs.Receiving.{parts_of, marks_of, meaning_of, receiving, Marking};
ghost use Rattle.ends.specs.Sending.{parts};
ghost use Rattle.ends.specs.Window.{fresh, window_of, possible};

use crate::fault::ReceiverFault;
use crate::receiver::Receiver;
use crate::window::{Marks, Window};
use ciphers::WideCipher;
use hashes::KeyedHash;
use sealing::{Line, Opened, Work};

impl<C, J> Receiver<C, J> {
    // A receiver that has accepted nothing yet.
    pub fn new(line: Line<C, J>) -> Receiver<C, J>
        ensures parts { parts_of result ≡ parts line }
        ensures window { marks_of result ≡ fresh }
    {
        Receiver::resume(line, Window::new())
    }

    // A receiver that stands at this window.
    pub fn resume(line: Line<C, J>, window: Window) -> Receiver<C, J>
        ensures parts { parts_of result ≡ parts line }
        ensures window { marks_of result ≡ window_of window }
    {
        Receiver { line, window }
    }

    // What its window is made of again.
    pub fn kept(&self) -> Marks
        ensures answer { result ≡ marks_of self.now }
        ensures lasting { possible (marks_of self.now) ≡ true }
    {
        self.window.kept()
    }
}

impl<C: WideCipher, J: KeyedHash> Receiver<C, J> {
    // Takes a record in: its text goes to the front of `text`. The work area is all zero afterwards, whatever the answer.
    pub fn receive(
        &mut self,
        header: &[u8],
        record: &[u8],
        work: &mut [u8],
        text: &mut [u8],
    ) -> Result<Opened, ReceiverFault>
        ensures answer { result ≡ receiving (meaning_of C.WideCipher J.KeyedHash self.old) (marks_of self.old) header.now «record».now (length work.old) (length text.old) }
        ensures after { Marking result (marks_of self.old) (marks_of self.new) }
        ensures parts { parts_of self.new ≡ parts_of self.old }
        ensures area { text.new ≡ placed result text.old (text_of (meaning_of C.WideCipher J.KeyedHash self.old) «record».now) }
        ensures zeroed { work.new ≡ zeros (length work.old) }
    {
        let guard = Work(work);
        let number = self
            .line
            .examine(header, record, guard.0.len(), text.len())?;
        self.window.judge(number)?;
        let opened = self.line.open(header, record, &mut *guard.0, text)?;
        if let Err(_) = self.window.accept(opened.number) {
            unreachable()
        }
        Ok(opened)
    }
}
