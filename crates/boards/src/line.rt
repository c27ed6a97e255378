// The line that a call speaks of.
use ciphers::{PileA, PileB};
use hashes::{Cmac, Polyval};
use sealing::Line;

// A line of either pile.
// Kept: each call on it is a match of two arms; a `dyn` or a trait for two closed kinds would say each contract once more.
#[derive(Drop)]
pub enum AnyLine {
    A(Line<PileA, Polyval>),
    B(Line<PileB, Cmac>),
}
