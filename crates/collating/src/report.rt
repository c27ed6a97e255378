// What is told of a line.
ghost use Rattle.std.specs.Prelude.{◌≡◌, Some, take};
ghost use Rattle.collating.specs.Reports.{judged_with, spelled};

use crate::outcome::Outcome;
use std::fmt;

// How a line was judged. Bytes that the library gave are an `S`, or how many they are.
#[derive(Clone, Copy)]
pub enum Verdict<S> {
    // The library gave what was expected.
    Same,
    // It gave this in place of what was expected.
    Differs(Outcome<S>),
    Unread,
}

// What is printed of the line with a number.
#[derive(Clone, Copy)]
pub struct Report<'a> {
    pub line: u64,
    pub verdict: Verdict<&'a [u8]>,
}

impl Verdict<usize> {
    // What is told of the line with this number, where bytes that the library gave stand at the front of `out`.
    pub fn report<'a>(&self, line: u64, out: &'a [u8]) -> Report<'a>
        ensures line { result.line ≡ line }
        ensures verdict { judged_with (λ s. s.now) result.verdict ≡ judged_with (λ n. take n out.now) self.now }
    {
        let verdict = match *self {
            Verdict::Same => Verdict::Same,
            // Kept: the cut, since a function for it would say the same of two lengths in its contract.
            Verdict::Differs(Outcome::Bytes(length)) => {
                Verdict::Differs(Outcome::Bytes(&out[..length.min(out.len())]))
            }
            Verdict::Differs(Outcome::Refused(number)) => {
                Verdict::Differs(Outcome::Refused(number))
            }
            Verdict::Unread => Verdict::Unread,
        };
        Report { line, verdict }
    }
}

impl fmt::Display for Report<'_> {
    ghost output = { λ r. Some (spelled r) };

    fn fmt<W: fmt::Write>(&self, f: &mut fmt::Formatter<W>) -> fmt::Result {
        let line = self.line;
        match self.verdict {
            Verdict::Same => write!(f, "ok {line}"),
            Verdict::Differs(got) => write!(f, "differs {line} {got}"),
            Verdict::Unread => write!(f, "unread {line}"),
        }
    }
}
