// What the first line makes.
use crate::hall::Hall;
use ciphers::{PileA, PileB};
use hashes::{Cmac, Polyval};

// Ends of pile a.
pub type HallA = Hall<PileA, Polyval>;

// Ends of pile b.
pub type HallB = Hall<PileB, Cmac>;

// Ends of either pile.
// Kept: a variant for each; a `dyn` for two closed kinds would say the contract of each call once more.
pub enum Opened {
    A(HallA),
    B(HallB),
}
