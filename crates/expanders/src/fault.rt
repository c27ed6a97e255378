// Why an expander refuses.
ghost use Rattle.std.specs.Prelude.{◌≡◌};
ghost use Rattle.expanders.specs.declared.fault.ExpanderFault.TheVariants.{PastReach as Past};
ghost use Rattle.expanders.specs.Refusals.{told};

use refusals::{Place, Refusal};

// The stretch ends past the reach, which this is.
#[derive(Clone, Copy, PartialEq, Eq, Debug)]
pub struct PastReach(pub u16);

#[derive(Clone, Copy, PartialEq, Eq, Debug)]
pub enum ExpanderFault {
    // The domain, which this is, is not 1 or 2.
    Domain(u8),
    PastReach(PastReach),
}

impl From<PastReach> for ExpanderFault {
    ghost from_gives = { λ x y. y ≡ Past x };

    fn from(fault: PastReach) -> ExpanderFault {
        ExpanderFault::PastReach(fault)
    }
}

impl From<ExpanderFault> for Refusal {
    ghost from_gives = { λ f r. r ≡ told f };

    fn from(fault: ExpanderFault) -> Refusal {
        let (number, detail) = match fault {
            ExpanderFault::Domain(domain) => (3, u64::from(domain)),
            ExpanderFault::PastReach(PastReach(reach)) => (4, u64::from(reach)),
        };
        Refusal::alone(number, Place::Expander, detail)
    }
}
