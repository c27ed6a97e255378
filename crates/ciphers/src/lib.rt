// Wide ciphers: a string of bytes to one of the same length, under a tweak.
#![tactic(auto)]

mod ddd;
mod fault;
mod piles;
mod wide;

pub use ddd::Ddd;
pub use fault::CipherFault;
pub use piles::{PileA, PileB};
pub use wide::WideCipher;
