// Why a call of a board refuses.
ghost use Rattle.std.specs.Prelude.{◌≡◌};
ghost use Rattle.boards.specs.Told.{because as telling, coded, carried_code, place_code, told, answered};
ghost use Rattle.boards.specs.declared.fault.Fault.TheVariants.{Refused};
ghost use Rattle.refusals.specs.declared.Refusal.{Refusal};

use crate::answer::{Answer, Done, Reason};
use refusals::{Place, Refusal};

#[derive(Clone, Copy)]
pub enum Fault {
    // There is no such pile as this.
    Pile(u8),
    // The name of the line has this many bytes, and not 8.
    LineName(usize),
    // No end stands at the numbers kept: this is the next number of a sender, or the highest of a receiver.
    State(u64),
    // A layer below refused.
    Refused(Refusal),
}

// What a layer below refuses by.
impl<F> From<F> for Fault
where
    Refusal: From<F>,
{
    ghost from_gives = { λ x y. (r : Refusal) × (⟦<Refusal as From<F>>⟧.from_gives x r) × (y ≡ Refused r) };

    fn from(fault: F) -> Fault {
        Fault::Refused(fault.into())
    }
}

const NONE: Reason = Reason {
    number: 0,
    place: 0,
    detail: 0,
};

// Kept: a table of its own, since the codes are those of the C interface and not of the library.
fn place_code(place: Place) -> u32
    ensures { result ≡ place_code place }
{
    match place {
        Place::Part => 1,
        Place::Sender => 2,
        Place::Expander => 3,
        Place::Cipher => 4,
        Place::Sealing => 5,
        Place::Receiver => 6,
    }
}

impl From<refusals::Reason> for Reason {
    ghost from_gives = { λ x y. y ≡ coded x };

    fn from(reason: refusals::Reason) -> Reason {
        Reason {
            number: u32::from(reason.number),
            place: place_code(reason.place),
            detail: reason.detail,
        }
    }
}

fn carried(reason: Option<refusals::Reason>) -> Reason
    ensures { result ≡ carried_code reason }
{
    reason.map_or(NONE, Reason::from)
}

// A refusal of the calls of boards alone.
fn board(number: u32, detail: u64) -> Reason
    ensures { result ≡ telling number 100 detail }
{
    Reason {
        number,
        place: 100,
        detail,
    }
}

impl From<Fault> for Answer {
    ghost from_gives = { λ f a. a ≡ told f };

    fn from(fault: Fault) -> Answer {
        let (refusal, carried) = match fault {
            Fault::Pile(pile) => (board(100, u64::from(pile)), NONE),
            Fault::LineName(length) => (board(101, length as u64), NONE),
            Fault::State(number) => (board(102, number), NONE),
            Fault::Refused(refusal) => (refusal.reason.into(), carried(refusal.carried)),
        };
        Answer {
            refusal,
            carried,
            number: 0,
            length: 0,
        }
    }
}

// The answer that tells what came of a call.
pub(crate) fn answer(came: Result<Done, Fault>) -> Answer
    ensures { result ≡ answered came }
{
    match came {
        Ok(done) => Answer {
            refusal: NONE,
            carried: NONE,
            number: done.number,
            length: done.length,
        },
        Err(fault) => fault.into(),
    }
}
