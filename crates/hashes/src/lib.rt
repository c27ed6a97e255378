// Keyed hashes: the trait, POLYVAL and AES-CMAC.
#![tactic(auto)]

ghost use Rattle.hashes.specs.Known.{Known};
ghost use Rattle.hashes.specs.Laws.{Laws};

mod chain;
mod cmac;
mod field;
mod key;
mod keyed;
mod polyval;
mod state;
mod subkeys;

pub use cmac::Cmac;
pub use from_key::FromKey;
pub use keyed::KeyedHash;
pub use polyval::Polyval;

// Does nothing: its contract is the laws of polynomials modulo P, and known values.
pub fn laws()
    ensures laws { Laws }
    ensures known { Known }
{}
