// Sealing a text under a number, and opening it again, without an end.
#![tactic(auto)]

mod fault;
mod guard;
mod laws;
mod limits;
mod line;
mod plain_open;
mod plain_seal;

pub use fault::SealingFault;
pub use guard::Work;
pub use limits::LAST;
pub use line::{Line, LineName};
pub use plain_open::{Opened, examine};
