// The right to one number of a line.
ghost use Rattle.std.specs.Prelude.{◌≡◌};

use crate::fault::SenderFault;

// Made by a draw alone, and ended only by being sealed or given up: it is not `Drop`.
pub struct Ticket {
    pub(crate) number: u64,
}

impl Ticket {
    pub fn number(&self) -> u64
        ensures { result ≡ self.now.number }
    {
        self.number
    }
}

// A ticket that a refused call hands back, and why.
pub struct Returned {
    pub ticket: Ticket,
    pub fault: SenderFault,
}
