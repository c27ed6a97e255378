// What is kept from line to line.
ghost use Rattle.std.specs.Prelude.{◌≡◌, true};
ghost use Rattle.hall.specs.Held.{holds_out};

use ends::{Receiver, Sender, Ticket};

// Both ends of a line, and the ticket held: the one that is out, if any.
pub struct Hall<C, J> {
    pub(crate) sender: Sender<C, J>,
    pub(crate) receiver: Receiver<C, J>,
    pub(crate) held: Option<Ticket>,
    ghost tied: { holds_out held sender.counter.counts.outstanding ≡ true },
}
