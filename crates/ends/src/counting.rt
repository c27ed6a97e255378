// What a counter does.
ghost use Rattle.std.specs.Prelude.{◌≡◌, true, length};
ghost use Rattle.sealing.specs.Calls.{placed};
ghost use Rattle.sealing.specs.Meaning.{meaning_of};
ghost use Rattle.sealing.specs.Sealing.{record_of};
ghost use Rattle.ends.specs.Sending.{counts_of, counted, starting, resumed, resuming, possible, ticket_of, ticketed, drawing, after_draw, handing, giving_up, sealing_with, after_spending};

use crate::counter::{Counter, Counts};
use crate::fault::SenderFault;
use ciphers::WideCipher;
use hashes::KeyedHash;
use sealing::{LAST, Line};

impl Counter {
    // A counter that has drawn nothing yet; its first number is `first`.
    pub fn new(first: u64) -> Result<Counter, SenderFault>
        ensures { counted result ≡ starting first }
    {
        if !(1..=LAST).contains(&first) {
            return Err(SenderFault::FirstNumber(first));
        }
        let counts = Counts {
            next: first,
            outstanding: None,
        };
        Ok(Counter { counts })
    }

    // The counter that stood so, if one can stand so.
    pub fn resume(counts: Counts) -> Option<Counter>
        ensures { resumed result ≡ resuming counts }
    {
        let Counts { next, outstanding } = counts;
        if !(1..=LAST + 1).contains(&next) {
            return None;
        }
        match outstanding {
            Some(0) => None,
            Some(number) if number != next - 1 => None,
            _ => Some(Counter { counts }),
        }
    }

    // What `resume` makes the counter of again.
    pub fn kept(&self) -> Counts
        ensures answer { result ≡ counts_of self.now }
        ensures lasting { possible (counts_of self.now) ≡ true }
    {
        let Counter { counts } = self;
        *counts
    }

    // The next number, which is then outstanding. One is outstanding at a time.
    pub fn draw(&mut self) -> Result<u64, SenderFault>
        ensures answer { ticketed result ≡ drawing (counts_of self.old) }
        ensures after { counts_of self.new ≡ after_draw (ticketed result) (counts_of self.old) }
    {
        let Counts { next, outstanding } = self.counts;
        if let Some(number) = outstanding {
            return Err(SenderFault::TicketOut(number));
        }
        if next > LAST {
            return Err(SenderFault::UsedUp);
        }
        self.counts = Counts {
            next: next + 1,
            outstanding: Some(next),
        };
        Ok(next)
    }

    // Takes the number outstanding, which is answered and never sealed.
    pub fn give_up(&mut self, number: u64) -> Result<u64, SenderFault>
        ensures answer { handing number result ≡ giving_up (counts_of self.old) (ticket_of number) }
        ensures after { counts_of self.new ≡ after_spending (handing number result) (counts_of self.old) }
    {
        if self.counts.outstanding != Some(number) {
            // The number outstanding, if any, stays so.
            return Err(SenderFault::WrongTicket(number));
        }
        self.counts.outstanding = None;
        Ok(number)
    }

    // Seals a text under the number outstanding: the record goes to the front of the area, and its length is answered.
    pub fn seal<C: WideCipher, J: KeyedHash>(
        &mut self,
        line: &Line<C, J>,
        number: u64,
        header: &[u8],
        text: &[u8],
        area: &mut [u8],
    ) -> Result<usize, SenderFault>
        ensures answer { handing number result ≡ sealing_with (meaning_of C.WideCipher J.KeyedHash line.now) (counts_of self.old) (ticket_of number) (length header.now) (length text.now) (length area.old) }
        ensures after { counts_of self.new ≡ after_spending (handing number result) (counts_of self.old) }
        ensures area { area.new ≡ placed result area.old (record_of (meaning_of C.WideCipher J.KeyedHash line.now) header.now number text.now) }
    {
        if self.counts.outstanding != Some(number) {
            return Err(SenderFault::WrongTicket(number));
        }
        let length = line.seal(number, header, text, area)?;
        self.counts.outstanding = None;
        Ok(length)
    }
}
