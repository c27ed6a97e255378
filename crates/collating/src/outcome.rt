// What the library gives, or is expected to give: bytes, or a refusal by its number.
ghost use Rattle.std.specs.Prelude.{Some};
ghost use Rattle.collating.specs.Reports.{written};

use forms::Hexadecimal;
use std::fmt;

// Kept: an enum of its own: it is printed, and a `Result` would need a type around it for that.
#[derive(Clone, Copy)]
pub enum Outcome<S> {
    Bytes(S),
    Refused(u64),
}

impl fmt::Display for Outcome<&[u8]> {
    ghost output = { λ o. Some (written o) };

    fn fmt<W: fmt::Write>(&self, f: &mut fmt::Formatter<W>) -> fmt::Result {
        match self {
            Outcome::Bytes(bytes) => {
                let digits = Hexadecimal(*bytes);
                write!(f, "{digits}")
            }
            Outcome::Refused(number) => write!(f, "!{number}"),
        }
    }
}
