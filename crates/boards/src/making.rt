// A line is made from what a call brings.
ghost use Rattle.std.specs.Prelude.{◌≡◌, Ok as Fine};
ghost use Rattle.boards.specs.Lines.{keys_by, keys_in, line_brought, meant_by, meant, named};

use crate::brought::Brought;
use crate::fault::Fault;
use crate::line::AnyLine;
use ciphers::Ddd;
use from_key::FromKey;
use sealing::{Line, LineName};

// The name of a line, of 8 bytes.
fn line_name(name: &[u8]) -> Result<LineName, Fault>
    ensures { meant (λ n. n.bytes) result ≡ named name.now (Fine name.now) }
{
    let bytes = <[u8; 8]>::try_from(name).map_err(|_| Fault::LineName(name.len()))?;
    Ok(LineName::new(&bytes))
}

impl Brought<'_> {
    // The line whose hashes are H and whose expander is E: the keys are judged in the order hash, expander, header hash, and then the name.
    fn line_of<H: FromKey + Drop, E: FromKey + Drop>(&self) -> Result<Line<Ddd<H, E>, H>, Fault>
        ensures { meant (keys_in H.FromKey.key E.FromKey.key) result ≡ keys_by H.FromKey.takes E.FromKey.takes self.now.hash_key.now self.now.expander_key.now self.now.header_key.now self.now.name.now }
    {
        let cipher = Ddd::from_keys(self.hash_key, self.expander_key)?;
        let hash = H::new(self.header_key)?;
        let name = line_name(self.name)?;
        Ok(Line { cipher, hash, name })
    }

    // The line, or the first refusal: of the pile, the keys, the name.
    pub(crate) fn line(&self) -> Result<AnyLine, Fault>
        ensures { meant meant_by result ≡ line_brought self.now }
    {
        match self.pile {
            b'a' => Ok(AnyLine::A(self.line_of()?)),
            b'b' => Ok(AnyLine::B(self.line_of()?)),
            _ => Err(Fault::Pile(self.pile)),
        }
    }
}
