// The first line: the ends are made.
ghost use Rattle.std.specs.Prelude.{◌≡◌};
ghost use Rattle.ends.specs.Sending.{making, parts as parts_of};
ghost use Rattle.forms.specs.Said.{ends_of};
ghost use Rattle.hall.specs.Keys.{keys_by, keys_in};
ghost use Rattle.hall.specs.Opening.{opened, numbered, standing, stood, seen, seen_as, Opens};
ghost use Rattle.hall.specs.Sessions.{Begun, Begins};

use crate::hall::Hall;
use crate::opened::Opened;
use crate::parts::parts;
use crate::reply::Reply;
use ciphers::Ddd;
use ends::{Receiver, Sender, SenderFault};
use forms::{Opening, Pile, read_opening};
use from_key::FromKey;
use refusals::Refusal;
use sealing::{Line, LineName};

// The ends of a line, each with a copy of it.
fn make<C: Copy, J: Copy>(line: Line<C, J>, first: u64) -> Result<Hall<C, J>, SenderFault>
    ensures made { stood result ≡ standing (parts_of line) (making line.cipher line.hash line.name.bytes first) }
    ensures begun { Begun result }
{
    let sender = Sender::new(line, first)?;
    let receiver = Receiver::new(line);
    Ok(Hall {
        sender,
        receiver,
        held: None,
    })
}

// The ends of a pile whose hashes are H and whose expander is E.
fn open_as<H: FromKey + Copy, E: FromKey + Copy>(
    opening: &Opening<'_>,
) -> Result<Hall<Ddd<H, E>, H>, Refusal>
    ensures made { seen_as opening.now.pile (keys_in H.FromKey.key E.FromKey.key) result ≡ numbered opening.now.pile (ends_of opening.now) (keys_by H.FromKey.takes E.FromKey.takes (ends_of opening.now)) }
    ensures begun { Begun result }
{
    let (cipher, hash) = parts(opening)?;
    let name = LineName::new(&opening.line);
    let line = Line { cipher, hash, name };
    Ok(make(line, opening.first)?)
}

// Makes the ends that an `ends` form asks for, or refuses.
fn make_ends(opening: &Opening<'_>) -> Result<Opened, Refusal>
    ensures made { seen result ≡ opened opening.now.pile (ends_of opening.now) }
    ensures begins { Begins result }
{
    match opening.pile {
        Pile::A => Ok(Opened::A(open_as(opening)?)),
        Pile::B => Ok(Opened::B(open_as(opening)?)),
    }
}

// Makes the ends that the first line asks for, or replies why not.
pub fn open(line: &[u8]) -> Result<Opened, Reply>
    ensures opens { Opens line.now result }
    ensures begins { Begins result }
{
    let opening = read_opening(line)?;
    Ok(make_ends(&opening)?)
}
