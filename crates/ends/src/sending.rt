// What a sender does.
ghost use Rattle.std.specs.Prelude.{◌≡◌, length};
ghost use Rattle.sealing.specs.Calls.{placed};
ghost use Rattle.sealing.specs.Sealing.{record_of};
ghost use Rattle.ends.specs.Sending.{parts_of, counting_of, meaning_of, seen, making, drawing, after_draw, giving_up, handing, sealing_with, after_spending};

use crate::counter::Counter;
use crate::fault::SenderFault;
use crate::sender::Sender;
use crate::ticket::{Returned, Ticket};
use ciphers::WideCipher;
use hashes::KeyedHash;
use sealing::Line;

impl Ticket {
    // Ends a ticket whose number was taken, and hands back one that was refused.
    fn spend<T>(self, taken: Result<T, SenderFault>) -> Result<T, Returned>
        ensures { result ≡ handing self.number taken }
    {
        match taken {
            Ok(answer) => {
                let Ticket { number: _ } = self;
                Ok(answer)
            }
            Err(fault) => Err(Returned {
                ticket: self,
                fault,
            }),
        }
    }
}

impl<C: Drop, J: Drop> Sender<C, J> {
    // A sender whose first ticket bears the number `first`.
    pub fn new(line: Line<C, J>, first: u64) -> Result<Sender<C, J>, SenderFault>
        ensures { seen result ≡ making line.cipher line.hash line.name.bytes first }
    {
        let counter = Counter::new(first)?;
        Ok(Sender { line, counter })
    }
}

impl<C, J> Sender<C, J> {
    // A ticket with the next number. One ticket is out at a time.
    pub fn draw(&mut self) -> Result<Ticket, SenderFault>
        ensures answer { result ≡ drawing (counting_of self.old) }
        ensures after { counting_of self.new ≡ after_draw result (counting_of self.old) }
        ensures parts { parts_of self.new ≡ parts_of self.old }
    {
        let number = self.counter.draw()?;
        Ok(Ticket { number })
    }

    // Takes the ticket that is out; its number, which is answered, is never sealed.
    pub fn give_up(&mut self, ticket: Ticket) -> Result<u64, Returned>
        ensures answer { result ≡ giving_up (counting_of self.old) ticket }
        ensures after { counting_of self.new ≡ after_spending result (counting_of self.old) }
        ensures parts { parts_of self.new ≡ parts_of self.old }
    {
        let taken = self.counter.give_up(ticket.number);
        ticket.spend(taken)
    }
}

impl<C: WideCipher, J: KeyedHash> Sender<C, J> {
    // Seals a text under the number of the ticket that is out: the record goes to the front of the area, and its length is answered.
    pub fn seal(
        &mut self,
        ticket: Ticket,
        header: &[u8],
        text: &[u8],
        area: &mut [u8],
    ) -> Result<usize, Returned>
        ensures answer { result ≡ sealing_with (meaning_of C.WideCipher J.KeyedHash self.old) (counting_of self.old) ticket (length header.now) (length text.now) (length area.old) }
        ensures after { counting_of self.new ≡ after_spending result (counting_of self.old) }
        ensures parts { parts_of self.new ≡ parts_of self.old }
        ensures area { area.new ≡ placed result area.old (record_of (meaning_of C.WideCipher J.KeyedHash self.old) header.now ticket.number text.now) }
    {
        let sealed = self
            .counter
            .seal(&self.line, ticket.number, header, text, area);
        ticket.spend(sealed)
    }
}
