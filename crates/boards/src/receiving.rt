// The calls of a receiving end, over the numbers that a board keeps of it.
ghost use Rattle.std.specs.Prelude.{◌≡◌, length};
ghost use Rattle.ends.specs.Window.{window_of};
ghost use Rattle.sealing.specs.Calls.{placed, text_of};
ghost use Rattle.sealing.specs.Meaning.{meaning_of};
ghost use Rattle.boards.specs.Lines.{line_of, line_brought, meant_by, meant};
ghost use Rattle.boards.specs.Plain.{written};
ghost use Rattle.boards.specs.Receiving.{marks_of, standing, Leaves, received_by, received, Makes, Receives};

use crate::answer::{Answer, Done};
use crate::brought::Brought;
use crate::fault::{Fault, answer};
use crate::line::AnyLine;
use crate::state::ReceiverState;
use ciphers::WideCipher;
use ends::{Marks, Receiver, Window};
use hashes::KeyedHash;
use sealing::{LAST, Line, Work};

impl ReceiverState {
    // The window that stands at the numbers kept.
    fn window(&self) -> Result<Window, Fault>
        ensures { meant window_of result ≡ standing self.now }
    {
        if self.highest > LAST {
            return Err(Fault::State(self.highest));
        }
        let accepted = Marks {
            highest: self.highest,
            marks: self.marks,
        };
        Window::resume(accepted).ok_or(Fault::State(self.highest))
    }

    fn keep(&mut self, accepted: Marks)
        ensures { marks_of self.new ≡ accepted }
    {
        self.highest = accepted.highest;
        self.marks = accepted.marks;
    }

    // Takes a record in on a line.
    fn receive<C: WideCipher + Drop, J: KeyedHash + Drop>(
        &mut self,
        line: Line<C, J>,
        header: &[u8],
        record: &[u8],
        work: &mut [u8],
        text: &mut [u8],
    ) -> Result<Done, Fault>
        ensures answer { result ≡ received_by (meaning_of C.WideCipher J.KeyedHash line) self.old header.now «record».now (length work.old) (length text.old) }
        ensures after { Leaves result self.old self.new }
        ensures area { text.new ≡ placed result text.old (text_of (meaning_of C.WideCipher J.KeyedHash line) «record».now) }
    {
        let window = self.window()?;
        let mut receiver = Receiver::resume(line, window);
        let opened = receiver.receive(header, record, work, text)?;
        self.keep(receiver.kept());
        Ok(opened.into())
    }
}

impl AnyLine {
    fn receive(
        self,
        state: &mut ReceiverState,
        header: &[u8],
        record: &[u8],
        work: &mut [u8],
        text: &mut [u8],
    ) -> Result<Done, Fault>
        ensures answer { result ≡ received_by (meant_by self) state.old header.now «record».now (length work.old) (length text.old) }
        ensures after { Leaves result state.old state.new }
        ensures area { text.new ≡ placed result text.old (text_of (meant_by self) «record».now) }
    {
        match self {
            AnyLine::A(line) => state.receive(line, header, record, work, text),
            AnyLine::B(line) => state.receive(line, header, record, work, text),
        }
    }
}

impl Brought<'_> {
    fn receive(
        &self,
        state: &mut ReceiverState,
        header: &[u8],
        record: &[u8],
        work: &mut [u8],
        text: &mut [u8],
    ) -> Result<Done, Fault>
        ensures answer { result ≡ received (line_brought self.now) state.old header.now «record».now (length work.old) (length text.old) }
        ensures after { Leaves result state.old state.new }
        ensures area { text.new ≡ written (line_brought self.now) result (λ m. text_of m «record».now) text.old }
    {
        self.line()?.receive(state, header, record, work, text)
    }
}

// A receiver that has accepted nothing yet.
#[unsafe(no_mangle)]
pub extern "C" fn sidingmint_receiver_make(state: &mut ReceiverState) -> Answer
    ensures { Makes result state.new }
{
    state.keep(Window::new().kept());
    answer(Ok(Done {
        number: 0,
        length: 0,
    }))
}

// Takes a record in: its text goes to the front of `text`. The work area is all zero afterwards, whatever the answer.
#[unsafe(no_mangle)]
pub extern "C" fn sidingmint_receiver_receive<'a>(
    pile: u8,
    hash_key: &'a [u8],
    expander_key: &'a [u8],
    header_key: &'a [u8],
    line: &'a [u8],
    state: &mut ReceiverState,
    header: &[u8],
    record: &[u8],
    work: &mut [u8],
    text: &mut [u8],
) -> Answer
    ensures { Receives (line_of pile hash_key.now expander_key.now header_key.now line.now) state.old header.now «record».now work.old text.old result state.new work.new text.new }
{
    let brought = Brought {
        pile,
        hash_key,
        expander_key,
        header_key,
        name: line,
    };
    let guard = Work(work);
    answer(brought.receive(state, header, record, &mut *guard.0, text))
}
