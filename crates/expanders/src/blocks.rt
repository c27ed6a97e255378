// Sequences that are made block by block, and stretches of them.
ghost use Rattle.std.specs.Prelude.{◌≡◌, ℕ, ◌+◌, ◌*◌, ◌<◌, ◌≤◌, List, length, drop};
ghost use Rattle.octets.specs.Strings.{xor};
ghost use Rattle.expanders.specs.Refusals.{adding};
ghost use Rattle.expanders.specs.Sequences.{blocks};

use crate::domain::Domain;
use crate::fault::{ExpanderFault, PastReach};
use octets::add_at;

// The length of the sequences.
pub(crate) const REACH: u16 = 4096;

// What makes a sequence, block by block of N bytes.
pub(crate) trait Blocks<const N: usize> {
    ghost block: { Self → ℕ → List ℕ };

    fn block(&self, j: u32) -> [u8; N]
        ensures { result ≡ block self.now j };

    ghost long: { (s : Self) (j : ℕ) → length (block s j) ≡ N };
}

// Whether a stretch of this length may be asked for.
pub(crate) fn admit(domain: u8, from: usize, length: usize) -> Result<(), ExpanderFault>
    ensures { result ≡ adding 4096 domain (from + length) }
{
    Domain::try_from(domain)?;
    if from.saturating_add(length) > usize::from(REACH) {
        return Err(ExpanderFault::PastReach(PastReach(REACH)));
    }
    Ok(())
}

// Adds to the stretch the sequence from the byte `from` on. No block is made that the stretch does not touch.
pub(crate) fn add_blocks<const N: usize, B: Blocks<N>>(
    sequence: &B,
    from: usize,
    stretch: &mut [u8],
)
    requires some { 0 < N }
    requires few { N ≤ 4096 }
    requires within { from + length stretch.old ≤ 4096 }
    ensures { (n : ℕ) → from + length stretch.old ≤ N * n → stretch.new ≡ xor stretch.old (drop from (blocks (B.Blocks.block sequence.now) 0 n)) }
{
    if stretch.is_empty() {
        return;
    }
    let end = from + stretch.len();
    // Kept: the stretch by its places, for of bytes written through chunks_mut a proof knows only how many there are.
    for j in from / N..end.div_ceil(N) {
        let start = N * j;
        let block = sequence.block(j as u32);
        let bytes = &block[..];
        let skip = from.saturating_sub(start);
        add_at(stretch, start.saturating_sub(from), &bytes[skip..]);
    }
}
