// What a refusal tells, and how it is written.
#![tactic(auto)]

ghost use Rattle.std.specs.Prelude.{◌≡◌, Some};
ghost use Rattle.refusals.specs.Table.{alone, because, key_length};
ghost use Rattle.refusals.specs.Spelling.{place_name, told, spelled};

use std::fmt;

// The layer that refuses.
#[derive(Clone, Copy, PartialEq, Eq, Debug)]
pub enum Place {
    Part,
    Sender,
    Expander,
    Cipher,
    Sealing,
    Receiver,
}

impl fmt::Display for Place {
    ghost output = { λ p. Some (place_name p) };

    fn fmt<W: fmt::Write>(&self, f: &mut fmt::Formatter<W>) -> fmt::Result {
        match self {
            Place::Part => f.write_str("part"),
            Place::Sender => f.write_str("sender"),
            Place::Expander => f.write_str("expander"),
            Place::Cipher => f.write_str("cipher"),
            Place::Sealing => f.write_str("sealing"),
            Place::Receiver => f.write_str("receiver"),
        }
    }
}

// The number of a refusal, its place and its detail.
// Kept: a number, since it is what is printed and what C is told; the enums are the faults of the layers.
#[derive(Clone, Copy, PartialEq, Eq, Debug)]
pub struct Reason {
    pub number: u8,
    pub place: Place,
    pub detail: u64,
}

impl fmt::Display for Reason {
    ghost output = { λ r. Some (told r) };

    fn fmt<W: fmt::Write>(&self, f: &mut fmt::Formatter<W>) -> fmt::Result {
        let Reason {
            number,
            place,
            detail,
        } = self;
        write!(f, "{number} {place} {detail}")
    }
}

// A refusal, with the one that it carries, if any.
#[derive(Clone, Copy, PartialEq, Eq, Debug)]
pub struct Refusal {
    pub reason: Reason,
    pub carried: Option<Reason>,
}

impl Refusal {
    // A refusal that carries none.
    pub fn alone(number: u8, place: Place, detail: u64) -> Refusal
        ensures { result ≡ alone (because number place detail) }
    {
        let reason = Reason {
            number,
            place,
            detail,
        };
        Refusal {
            reason,
            carried: None,
        }
    }
}

impl fmt::Display for Refusal {
    ghost output = { λ r. Some (spelled r) };

    fn fmt<W: fmt::Write>(&self, f: &mut fmt::Formatter<W>) -> fmt::Result {
        let reason = self.reason;
        match self.carried {
            None => write!(f, "(refused {reason})"),
            Some(carried) => write!(f, "(refused {reason} (refused {carried}))"),
        }
    }
}

// A key of a wrong length, which this is.
#[derive(Clone, Copy, PartialEq, Eq, Debug)]
pub struct KeyLength(pub usize);

impl From<KeyLength> for Refusal {
    ghost from_gives = { λ k r. r ≡ alone (key_length k.0) };

    fn from(key: KeyLength) -> Refusal {
        Refusal::alone(1, Place::Part, key.0 as u64)
    }
}
