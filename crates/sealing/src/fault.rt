// Why sealing and opening refuse.
ghost use Rattle.std.specs.Prelude.{◌≡◌};
ghost use Rattle.sealing.specs.Refusals.{told};
ghost use Rattle.sealing.specs.declared.fault.SealingFault.TheVariants.{Cipher};

use ciphers::CipherFault;
use refusals::{Place, Refusal};

#[derive(Clone, Copy, PartialEq, Eq, Debug)]
pub enum SealingFault {
    // The record has under 8 bytes: this many.
    RecordShort(usize),
    // The header has over 256 bytes: this many.
    HeaderLong(usize),
    // The cipher does not admit the length.
    Cipher(CipherFault),
    // The work area is too short: this many bytes are needed.
    WorkShort(usize),
    // The record area or the text area is too short: this many bytes are needed.
    AreaShort(usize),
    // The number, which this is, is 0 or above 2^40.
    NumberOutside(u64),
    NoSealing,
}

impl From<CipherFault> for SealingFault {
    ghost from_gives = { λ x y. y ≡ Cipher x };

    fn from(fault: CipherFault) -> SealingFault {
        SealingFault::Cipher(fault)
    }
}

impl From<SealingFault> for Refusal {
    ghost from_gives = { λ f r. r ≡ told f };

    fn from(fault: SealingFault) -> Refusal {
        match fault {
            SealingFault::RecordShort(length) => Refusal::alone(7, Place::Sealing, length as u64),
            SealingFault::HeaderLong(length) => Refusal::alone(8, Place::Sealing, length as u64),
            SealingFault::Cipher(fault) => fault.into(),
            SealingFault::WorkShort(needed) => Refusal::alone(9, Place::Sealing, needed as u64),
            SealingFault::AreaShort(needed) => Refusal::alone(10, Place::Sealing, needed as u64),
            SealingFault::NumberOutside(number) => Refusal::alone(11, Place::Sealing, number),
            SealingFault::NoSealing => Refusal::alone(12, Place::Sealing, 0),
        }
    }
}
