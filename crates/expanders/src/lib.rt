// Expanders: from a domain, a tweak and 16 bytes to a long sequence.
#![tactic(auto)]

mod blocks;
mod by_aes;
mod by_chacha;
mod domain;
mod expander;
mod fault;
mod keys;

pub use domain::Domain;
pub use expander::Expander;
pub use fault::{ExpanderFault, PastReach};
pub use from_key::FromKey;
pub use keys::{AesExpander, ChaChaExpander};
