// What an expander is.
ghost use Rattle.std.specs.Prelude.{◌≡◌, ℕ, ◌+◌, ◌≤◌, List, length, drop};
ghost use Rattle.octets.specs.Strings.{Bytes};
ghost use Rattle.expanders.specs.Asked.{Asked};
ghost use Rattle.expanders.specs.Refusals.{reaching, adding, added};

use crate::fault::{ExpanderFault, PastReach};

// Under its key, a sequence of bytes for each domain (1 or 2), tweak (8 bytes) and input (16 bytes). All have one length, the reach.
pub trait Expander {
    ghost reach: { Self → ℕ };

    ghost sequence: { Self → ℕ → List ℕ → List ℕ → List ℕ };

    fn reach(&self) -> u16
        ensures { result ≡ reach self.now };

    // Whether a stretch may end at `end`.
    fn reaches(&self, end: usize) -> Result<(), PastReach>
        ensures { result ≡ reaching (reach self.now) end }
    {
        let reach = self.reach();
        if end > usize::from(reach) {
            return Err(PastReach(reach));
        }
        Ok(())
    }

    // Adds the sequence from `from` on to the stretch.
    // Kept: the domain is a byte, since a narrower type would ask more of callers; the rest one by one, since a struct of it would be made for each call.
    fn add(
        &self,
        domain: u8,
        tweak: &[u8; 8],
        input: &[u8; 16],
        from: usize,
        stretch: &mut [u8],
    ) -> Result<(), ExpanderFault>
        ensures answer { result ≡ adding (reach self.now) domain (from + length stretch.old) }
        ensures after { stretch.new ≡ added result stretch.old (drop from (sequence self.now domain tweak.now input.now)) };

    ghost least: { (e : Self) → 16 ≤ reach e };

    ghost most: { (e : Self) → reach e ≤ 4096 };

    ghost size: { (e : Self) (domain : ℕ) (tweak input : List ℕ) → Asked domain tweak input → length (sequence e domain tweak input) ≡ reach e };

    ghost bytes: { (e : Self) (domain : ℕ) (tweak input : List ℕ) → Asked domain tweak input → Bytes (sequence e domain tweak input) };
}
