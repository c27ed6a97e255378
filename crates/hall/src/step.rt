// A later line: a command is obeyed.
ghost use Rattle.std.specs.Prelude.{◌≡◌, ◌≤◌, [], length, take};
ghost use Rattle.octets.specs.Strings.{zeros};
ghost use Rattle.ends.specs.Promise.{Promise as Promised};
ghost use Rattle.forms.specs.Said.{asked_of, bytes_of};
ghost use Rattle.forms.specs.Spelling.{draw as drawn, give_up, seal as sealed, receive as received};
ghost use Rattle.hall.specs.Sessions.{Continues};
ghost use Rattle.hall.specs.Steps.{state_of, meaning_of, closing, Obeys, Steps, Fits};

use crate::areas::Areas;
use crate::hall::Hall;
use crate::reply::Reply;
use ciphers::WideCipher;
use ends::Returned;
use forms::{Command, Hex, read_command};
use hashes::KeyedHash;
use sealing::Work;

// Writes a byte string of a line, which fits, into an area.
fn fill<'a>(hex: &Hex<'_>, area: &'a mut [u8]) -> &'a [u8]
    requires { length (bytes_of hex.now) ≤ length area.old }
    ensures { result.now ≡ bytes_of hex.now }
{
    match hex.decode(area) {
        Ok(length) => &area[..length],
        Err(_) => unreachable(),
    }
}

impl<C: WideCipher, J: KeyedHash> Hall<C, J> {
    fn draw(&mut self) -> Reply
        ensures { Obeys C.WideCipher J.KeyedHash (state_of self.old) 0 0 [] drawn result (state_of self.new) [] }
    {
        match self.sender.draw() {
            Ok(ticket) => {
                let number = ticket.number();
                match self.held.replace(ticket) {
                    None => Reply::Ticket(number),
                    Some(_) => unreachable(),
                }
            }
            Err(fault) => Reply::Refused(fault.into()),
        }
    }

    // Kept: arms that cannot be, here and in the calls beside it, since a ticket is no `Drop` and an `else` would let it go.
    fn give_up(&mut self) -> Reply
        ensures { Obeys C.WideCipher J.KeyedHash (state_of self.old) 0 0 [] give_up result (state_of self.new) [] }
    {
        let Some(ticket) = self.held.take() else {
            return Reply::NoTicket;
        };
        match self.sender.give_up(ticket) {
            Ok(number) => Reply::GivenUp(number),
            Err(_) => unreachable(),
        }
    }

    // Seals with the ticket held, which is spent, or held again where sealing is refused.
    fn seal(&mut self, header: &[u8], text: &[u8], out: &mut [u8]) -> Reply
        ensures { Obeys C.WideCipher J.KeyedHash (state_of self.old) 0 (length out.old) out.old (sealed header.now text.now) result (state_of self.new) out.new }
    {
        let Some(ticket) = self.held.take() else {
            return Reply::NoTicket;
        };
        match self.sender.seal(ticket, header, text, out) {
            Ok(length) => Reply::Record(length),
            Err(Returned { ticket, fault }) => match self.held.replace(ticket) {
                None => Reply::Refused(fault.into()),
                Some(_) => unreachable(),
            },
        }
    }

    fn receive(&mut self, header: &[u8], record: &[u8], work: &mut [u8], out: &mut [u8]) -> Reply
        ensures { Obeys C.WideCipher J.KeyedHash (state_of self.old) (length work.old) (length out.old) out.old (received header.now «record».now) result (state_of self.new) out.new }
    {
        match self.receiver.receive(header, record, work, out) {
            Ok(opened) => Reply::Text(opened.length),
            Err(fault) => Reply::Refused(fault.into()),
        }
    }

    // What a command does. The header, and the text or the record, are written out into areas of their own.
    fn obey(
        &mut self,
        command: Command<'_>,
        first: &mut [u8],
        second: &mut [u8],
        work: &mut [u8],
        out: &mut [u8],
    ) -> Reply
        requires first { Fits (length first.old) (asked_of command) }
        requires second { Fits (length second.old) (asked_of command) }
        ensures { Obeys C.WideCipher J.KeyedHash (state_of self.old) (length work.old) (length out.old) out.old (asked_of command.entry) result (state_of self.new) out.new }
    {
        // Kept: a match on a closed enum; a closure for each command would have the same four contracts beside it.
        match command {
            Command::Draw => self.draw(),
            Command::GiveUp => self.give_up(),
            Command::Seal { header, text } => {
                self.seal(fill(&header, first), fill(&text, second), out)
            }
            Command::Receive { header, record } => {
                self.receive(fill(&header, first), fill(&record, second), work, out)
            }
        }
    }

    // The work of `step`, which leaves what it likes in the first three areas.
    fn step_in(
        &mut self,
        line: &[u8],
        first: &mut [u8],
        second: &mut [u8],
        work: &mut [u8],
        out: &mut [u8],
    ) -> Reply
        requires first { 8192 ≤ length first.old }
        requires second { 8192 ≤ length second.old }
        ensures { Steps C.WideCipher J.KeyedHash (state_of self.old) line.now (length work.old) (length out.old) out.old result (state_of self.new) out.new }
    {
        match read_command(line) {
            Ok(command) => self.obey(command, first, second, work, out),
            Err(unread) => unread.into(),
        }
    }

    // The reply to a later line. A record or a text goes to the front of `out`; the other areas are all zero afterwards, whatever the reply.
    pub fn step(&mut self, line: &[u8], areas: &mut Areas) -> Reply
        ensures steps { Steps C.WideCipher J.KeyedHash (state_of self.old) line.now 8192 8192 areas.old.out result (state_of self.new) areas.new.out }
        ensures header { areas.new.header ≡ zeros 8192 }
        ensures body { areas.new.body ≡ zeros 8192 }
        ensures work { areas.new.work ≡ zeros 8192 }
        ensures promise { Promised (meaning_of C.WideCipher J.KeyedHash (state_of self.old).sender) }
        ensures session { Continues C.WideCipher J.KeyedHash (state_of self.old) line.now 8192 areas.old.out (state_of self.new) }
    {
        self.sender.promise();
        let header = Work(&mut areas.header);
        let body = Work(&mut areas.body);
        let work = Work(&mut areas.work);
        self.step_in(
            line,
            &mut *header.0,
            &mut *body.0,
            &mut *work.0,
            &mut areas.out,
        )
    }
}

impl<C: Drop, J: Drop> Hall<C, J> {
    // The end of the input: a ticket still held is given up, which is answered.
    pub fn close(self) -> Option<Reply>
        ensures { result ≡ closing (state_of self) }
    {
        let Hall {
            mut sender,
            receiver: _,
            held,
        } = self;
        match held {
            None => None,
            Some(ticket) => match sender.give_up(ticket) {
                Ok(number) => Some(Reply::GivenUp(number)),
                Err(_) => unreachable(),
            },
        }
    }
}
