// The calls of a sending end, over the numbers that a board keeps of it.
ghost use Rattle.std.specs.Prelude.{◌≡◌, true, length};
ghost use Rattle.ends.specs.Sending.{possible, counts_of, started};
ghost use Rattle.sealing.specs.Calls.{placed};
ghost use Rattle.sealing.specs.Meaning.{meaning_of};
ghost use Rattle.sealing.specs.Sealing.{record_of};
ghost use Rattle.boards.specs.Lines.{line_of, line_brought, meant_by, meant};
ghost use Rattle.boards.specs.Plain.{written};
ghost use Rattle.boards.specs.Sending.{counting_of, kept_of, standing, leaves, Lasts, made, drew, gave_up, sealed_by, sealed_with, after_drawing, after_spent, Sends, SealsWith};

use crate::answer::{Answer, Done};
use crate::brought::Brought;
use crate::fault::{Fault, answer};
use crate::line::AnyLine;
use crate::state::SenderState;
use ciphers::WideCipher;
use ends::{Counter, Counts};
use hashes::KeyedHash;
use sealing::Line;

impl SenderState {
    // The counter that stands at the numbers kept.
    fn counter(&self) -> Result<Counter, Fault>
        ensures { meant counts_of result ≡ standing self.now }
    {
        let counts = Counts {
            next: self.next,
            outstanding: Some(self.outstanding).filter(|number| *number != 0),
        };
        Counter::resume(counts).ok_or(Fault::State(self.next))
    }

    fn keep(&mut self, counter: &Counter)
        ensures kept { self.new ≡ kept_of (counts_of counter.now) }
        ensures lasting { possible (counting_of self.new) ≡ true }
    {
        let Counts { next, outstanding } = counter.kept();
        self.next = next;
        self.outstanding = outstanding.unwrap_or(0);
    }

    fn make(&mut self, first: u64) -> Result<Done, Fault>
        ensures answer { result ≡ made first }
        ensures after { self.new ≡ leaves result (started first) self.old }
        ensures lasting { Lasts result self.new }
    {
        let counter = Counter::new(first)?;
        self.keep(&counter);
        Ok(Done {
            number: first,
            length: 0,
        })
    }

    fn draw(&mut self) -> Result<Done, Fault>
        ensures answer { result ≡ drew self.old }
        ensures after { self.new ≡ leaves result (after_drawing self.old) self.old }
        ensures lasting { Lasts result self.new }
    {
        let mut counter = self.counter()?;
        let number = counter.draw()?;
        self.keep(&counter);
        Ok(Done { number, length: 0 })
    }

    // Kept: beside `draw`, since one function over a closure would need a contract longer than both.
    fn give_up(&mut self, ticket: u64) -> Result<Done, Fault>
        ensures answer { result ≡ gave_up self.old ticket }
        ensures after { self.new ≡ leaves result (after_spent self.old) self.old }
        ensures lasting { Lasts result self.new }
    {
        let mut counter = self.counter()?;
        let number = counter.give_up(ticket)?;
        self.keep(&counter);
        Ok(Done { number, length: 0 })
    }

    // Seals on a line, under the number outstanding.
    fn seal<C: WideCipher, J: KeyedHash>(
        &mut self,
        line: &Line<C, J>,
        ticket: u64,
        header: &[u8],
        text: &[u8],
        area: &mut [u8],
    ) -> Result<Done, Fault>
        ensures answer { result ≡ sealed_by (meaning_of C.WideCipher J.KeyedHash line.now) self.old ticket (length header.now) (length text.now) (length area.old) }
        ensures after { self.new ≡ leaves result (after_spent self.old) self.old }
        ensures lasting { Lasts result self.new }
        ensures area { area.new ≡ placed result area.old (record_of (meaning_of C.WideCipher J.KeyedHash line.now) header.now ticket text.now) }
    {
        let mut counter = self.counter()?;
        let length = counter.seal(line, ticket, header, text, area)?;
        self.keep(&counter);
        Ok(Done {
            number: ticket,
            length,
        })
    }
}

impl AnyLine {
    #[tactic(auto, using(crate::proofs::Dispatch::same_line))]
    fn seal_with(
        &self,
        state: &mut SenderState,
        ticket: u64,
        header: &[u8],
        text: &[u8],
        area: &mut [u8],
    ) -> Result<Done, Fault>
        ensures answer { result ≡ sealed_by (meant_by self.now) state.old ticket (length header.now) (length text.now) (length area.old) }
        ensures after { state.new ≡ leaves result (after_spent state.old) state.old }
        ensures lasting { Lasts result state.new }
        ensures area { area.new ≡ placed result area.old (record_of (meant_by self.now) header.now ticket text.now) }
    {
        match self {
            AnyLine::A(line) => state.seal(line, ticket, header, text, area),
            AnyLine::B(line) => state.seal(line, ticket, header, text, area),
        }
    }
}

impl Brought<'_> {
    fn seal_with(
        &self,
        state: &mut SenderState,
        ticket: u64,
        header: &[u8],
        text: &[u8],
        area: &mut [u8],
    ) -> Result<Done, Fault>
        ensures answer { result ≡ sealed_with (line_brought self.now) state.old ticket header.now text.now (length area.old) }
        ensures after { state.new ≡ leaves result (after_spent state.old) state.old }
        ensures lasting { Lasts result state.new }
        ensures area { area.new ≡ written (line_brought self.now) result (λ m. record_of m header.now ticket text.now) area.old }
    {
        self.line()?.seal_with(state, ticket, header, text, area)
    }
}

// A sender whose first number is `first`.
#[unsafe(no_mangle)]
pub extern "C" fn sidingmint_sender_make(state: &mut SenderState, first: u64) -> Answer
    ensures { Sends (made first) (started first) state.old result state.new }
{
    answer(state.make(first))
}

// Draws the next number, which is then outstanding.
#[unsafe(no_mangle)]
pub extern "C" fn sidingmint_sender_draw(state: &mut SenderState) -> Answer
    ensures { Sends (drew state.old) (after_drawing state.old) state.old result state.new }
{
    answer(state.draw())
}

// Gives up the number outstanding, which is never sealed.
#[unsafe(no_mangle)]
pub extern "C" fn sidingmint_sender_give_up(state: &mut SenderState, ticket: u64) -> Answer
    ensures { Sends (gave_up state.old ticket) (after_spent state.old) state.old result state.new }
{
    answer(state.give_up(ticket))
}

// Seals a text under the number outstanding: the record goes to the front of the area.
#[unsafe(no_mangle)]
pub extern "C" fn sidingmint_sender_seal<'a>(
    pile: u8,
    hash_key: &'a [u8],
    expander_key: &'a [u8],
    header_key: &'a [u8],
    line: &'a [u8],
    state: &mut SenderState,
    ticket: u64,
    header: &[u8],
    text: &[u8],
    area: &mut [u8],
) -> Answer
    ensures { SealsWith (line_of pile hash_key.now expander_key.now header_key.now line.now) state.old ticket header.now text.now area.old result state.new area.new }
{
    let brought = Brought {
        pile,
        hash_key,
        expander_key,
        header_key,
        name: line,
    };
    answer(brought.seal_with(state, ticket, header, text, area))
}
