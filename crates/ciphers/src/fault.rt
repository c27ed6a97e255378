// Why a wide cipher refuses.
ghost use Rattle.std.specs.Prelude.{◌≡◌};
ghost use Rattle.ciphers.specs.Refusals.{carrying, told};

use expanders::{ExpanderFault, PastReach};
use refusals::{Place, Refusal};

#[derive(Clone, Copy, PartialEq, Eq, Debug)]
pub enum CipherFault {
    // The string is shorter than the lowest length, which this is.
    Short(usize),
    // The string is longer than the highest length; a part that bounds it may say why.
    Long {
        highest: usize,
        carried: Option<PastReach>,
    },
}

// A cipher whose strings go 16 bytes past the reach of its expander.
impl From<PastReach> for CipherFault {
    ghost from_gives = { λ x y. y ≡ carrying x };

    fn from(fault: PastReach) -> CipherFault {
        CipherFault::Long {
            highest: usize::from(fault.0) + 16,
            carried: Some(fault),
        }
    }
}

impl From<CipherFault> for Refusal {
    ghost from_gives = { λ f r. r ≡ told f };

    fn from(fault: CipherFault) -> Refusal {
        match fault {
            CipherFault::Short(lowest) => Refusal::alone(5, Place::Cipher, lowest as u64),
            CipherFault::Long { highest, carried } => Refusal {
                carried: carried.map(|past| Refusal::from(ExpanderFault::from(past)).reason),
                ..Refusal::alone(6, Place::Cipher, highest as u64)
            },
        }
    }
}
