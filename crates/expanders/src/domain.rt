// Which stretch an expander's sequence is for.
ghost use Rattle.std.specs.Prelude.{◌≡◌};
ghost use Rattle.expanders.specs.Domains.{number_of, domain_of};

use crate::fault::ExpanderFault;

// Docked-double-decker masks the right end of a string in one domain and what stands left of it in the other.
#[derive(Clone, Copy, PartialEq, Eq, Debug)]
pub enum Domain {
    Right,
    Left,
}

impl TryFrom<u8> for Domain {
    type Error = ExpanderFault;

    ghost try_from_gives = { λ n r. r ≡ domain_of n };

    fn try_from(number: u8) -> Result<Domain, ExpanderFault> {
        match number {
            1 => Ok(Domain::Right),
            2 => Ok(Domain::Left),
            _ => Err(ExpanderFault::Domain(number)),
        }
    }
}

impl From<Domain> for u8 {
    ghost from_gives = { λ d n. n ≡ number_of d };

    fn from(domain: Domain) -> u8 {
        match domain {
            Domain::Right => 1,
            Domain::Left => 2,
        }
    }
}
