// From one line to its answer: the ends there are and the ticket held.
#![tactic(auto)]

mod areas;
mod hall;
mod opened;
mod opening;
mod parts;
mod reply;
mod step;

pub use areas::Areas;
pub use hall::Hall;
pub use opened::{HallA, HallB, Opened};
pub use opening::open;
pub use reply::Reply;
