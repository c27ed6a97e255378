// Strings taken in piece by piece, in blocks of 16 bytes that are chained.
ghost use Rattle.std.specs.Prelude.{◌≡◌, ℕ, ◌+◌, ◌<◌, ◌≤◌, List, [], ◌++◌, length};
ghost use Rattle.octets.specs.Strings.{xor_at};
ghost use Rattle.hashes.specs.Absorbed.{Taken, Absorbed};

use crate::state::Chain;
use octets::add_at;

// A function from blocks to blocks.
pub(crate) trait BlockFunction {
    ghost image: { Self → List ℕ → List ℕ };

    fn apply(&self, block: &[u8; 16]) -> [u8; 16]
        ensures { result ≡ image self.now block.now };
}

impl Chain {
    // The empty string.
    pub(crate) fn new() -> Chain
        ensures { (f : List ℕ → List ℕ) → Absorbed f [] result.sum result.fill }
    {
        Chain {
            sum: [0; 16],
            fill: 0,
        }
    }

    // The same string with room in the block: a whole block is taken in.
    fn opened<F: BlockFunction>(self, f: &F) -> Chain
        ensures room { result.fill < 16 }
        ensures same { (bs : List ℕ) → Taken (F.BlockFunction.image f.now) bs self.sum self.fill → Taken (F.BlockFunction.image f.now) bs result.sum result.fill }
    {
        if self.fill < 16 {
            return self;
        }
        Chain {
            sum: f.apply(&self.sum),
            fill: 0,
        }
    }

    // The piece more, for which the block has room.
    fn add(self, piece: &[u8]) -> Chain
        requires { self.fill + length piece.now ≤ 16 }
        ensures sum { result.sum ≡ xor_at self.fill self.sum piece.now }
        ensures fill { result.fill ≡ self.fill + length piece.now }
    {
        let mut sum = self.sum;
        add_at(&mut sum, self.fill, piece);
        Chain {
            sum,
            fill: self.fill + piece.len(),
        }
    }

    // The bytes of `bytes` more.
    pub(crate) fn absorb<F: BlockFunction>(self, f: &F, bytes: &[u8]) -> Chain
        ensures { (old : List ℕ) → Absorbed (F.BlockFunction.image f.now) old self.sum self.fill → Absorbed (F.BlockFunction.image f.now) (old ++ bytes.now) result.sum result.fill }
    {
        let mut chain = self;
        let mut rest = bytes;
        while !rest.is_empty() {
            let ready = chain.opened(f);
            let (piece, after) = rest.split_at(rest.len().min(16 - ready.fill));
            chain = ready.add(piece);
            rest = after;
        }
        chain
    }
}
