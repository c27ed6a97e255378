// Why an end refuses.
ghost use Rattle.std.specs.Prelude.{◌≡◌};
ghost use Rattle.ends.specs.Refusals.{told, told_receiver};
ghost use Rattle.ends.specs.declared.fault.ReceiverFault.TheVariants.{Sealing as Opening, Window};
ghost use Rattle.ends.specs.declared.fault.SenderFault.TheVariants.{Sealing};

use refusals::{Place, Refusal};
use sealing::{LAST, SealingFault};

// Why a window does not take a number.
#[derive(Clone, Copy, PartialEq, Eq, Debug)]
pub enum WindowFault {
    // The number is 64 or more below the highest, which this is.
    TooOld(u64),
    // The number, which this is, was accepted earlier.
    AcceptedEarlier(u64),
}

// Why a receiver refuses.
#[derive(Clone, Copy, PartialEq, Eq, Debug)]
pub enum ReceiverFault {
    // Opening refused.
    Sealing(SealingFault),
    // The window refused.
    Window(WindowFault),
}

impl From<SealingFault> for ReceiverFault {
    ghost from_gives = { λ x y. y ≡ Opening x };

    fn from(fault: SealingFault) -> ReceiverFault {
        ReceiverFault::Sealing(fault)
    }
}

impl From<WindowFault> for ReceiverFault {
    ghost from_gives = { λ x y. y ≡ Window x };

    fn from(fault: WindowFault) -> ReceiverFault {
        ReceiverFault::Window(fault)
    }
}

impl From<ReceiverFault> for Refusal {
    ghost from_gives = { λ f r. r ≡ told_receiver f };

    fn from(fault: ReceiverFault) -> Refusal {
        match fault {
            ReceiverFault::Sealing(fault) => fault.into(),
            ReceiverFault::Window(fault) => match fault {
                WindowFault::TooOld(highest) => Refusal::alone(16, Place::Receiver, highest),
                WindowFault::AcceptedEarlier(number) => Refusal::alone(17, Place::Receiver, number),
            },
        }
    }
}

// Why a sender refuses.
#[derive(Clone, Copy, PartialEq, Eq, Debug)]
pub enum SenderFault {
    // Sealing refused.
    Sealing(SealingFault),
    // The first number, which this is, is 0 or above 2^40.
    FirstNumber(u64),
    // The ticket with this number is out.
    TicketOut(u64),
    // The numbers are used up.
    UsedUp,
    // The ticket brought, with this number, is not the one that is out.
    WrongTicket(u64),
}

impl From<SealingFault> for SenderFault {
    ghost from_gives = { λ x y. y ≡ Sealing x };

    fn from(fault: SealingFault) -> SenderFault {
        SenderFault::Sealing(fault)
    }
}

impl From<SenderFault> for Refusal {
    ghost from_gives = { λ f r. r ≡ told f };

    fn from(fault: SenderFault) -> Refusal {
        match fault {
            SenderFault::Sealing(fault) => fault.into(),
            SenderFault::FirstNumber(first) => Refusal::alone(2, Place::Sender, first),
            SenderFault::TicketOut(number) => Refusal::alone(13, Place::Sender, number),
            SenderFault::UsedUp => Refusal::alone(14, Place::Sender, LAST),
            SenderFault::WrongTicket(number) => Refusal::alone(15, Place::Sender, number),
        }
    }
}
