// What is answered to a line, and how it is written.
ghost use Rattle.std.specs.Prelude.{◌≡◌, Some};
ghost use Rattle.forms.specs.Answers.{spelled, Tells};
ghost use Rattle.forms.specs.declared.answer.Answer.TheVariants.{Unread as Unreadable, Refused as Refuses};

use crate::hex::Hexadecimal;
use crate::unread::Unread;
use refusals::Refusal;
use std::fmt;

// A record and a text are bytes, or a length where the bytes are in an area of their own.
#[derive(Clone, Copy)]
pub enum Answer<S> {
    Ready,
    Ticket(u64),
    GivenUp(u64),
    NoTicket,
    Record(S),
    Text(S),
    Refused(Refusal),
    Unread(usize),
}

impl<S> From<Unread> for Answer<S> {
    ghost from_gives = { λ u a. a ≡ Unreadable u.0 };

    fn from(unread: Unread) -> Answer<S> {
        Answer::Unread(unread.0)
    }
}

impl<S> From<Refusal> for Answer<S> {
    ghost from_gives = { λ r a. a ≡ Refuses r };

    fn from(refusal: Refusal) -> Answer<S> {
        Answer::Refused(refusal)
    }
}

impl Answer<usize> {
    // The answer, where a record or a text of its length stands at the front of `out`.
    pub fn within<'a>(&self, out: &'a [u8]) -> Answer<&'a [u8]>
        ensures { Tells self.now out.now result }
    {
        match *self {
            Answer::Ready => Answer::Ready,
            Answer::Ticket(number) => Answer::Ticket(number),
            Answer::GivenUp(number) => Answer::GivenUp(number),
            Answer::NoTicket => Answer::NoTicket,
            // Kept: the cut here and below, since a function for it would say the same of two lengths in its contract.
            Answer::Record(length) => Answer::Record(&out[..length.min(out.len())]),
            Answer::Text(length) => Answer::Text(&out[..length.min(out.len())]),
            Answer::Refused(refusal) => Answer::Refused(refusal),
            Answer::Unread(column) => Answer::Unread(column),
        }
    }
}

impl fmt::Display for Answer<&[u8]> {
    ghost output = { λ a. Some (spelled a) };

    fn fmt<W: fmt::Write>(&self, f: &mut fmt::Formatter<W>) -> fmt::Result {
        match self {
            Answer::Ready => f.write_str("(ready)"),
            Answer::Ticket(number) => write!(f, "(ticket {number})"),
            Answer::GivenUp(number) => write!(f, "(given-up {number})"),
            Answer::NoTicket => f.write_str("(no-ticket)"),
            Answer::Record(bytes) => {
                let digits = Hexadecimal(*bytes);
                write!(f, "(record {digits})")
            }
            Answer::Text(bytes) => {
                let digits = Hexadecimal(*bytes);
                write!(f, "(text {digits})")
            }
            Answer::Refused(refusal) => write!(f, "{refusal}"),
            Answer::Unread(column) => write!(f, "(unread {column})"),
        }
    }
}
