// The two ends of a line: tickets and the sending end.
#![tactic(auto)]

mod counter;
mod counting;
mod fault;
mod promising;
mod receiver;
mod receiving;
mod sender;
mod sending;
mod ticket;
mod window;
mod windowing;

pub use counter::{Counter, Counts};
pub use fault::{ReceiverFault, SenderFault, WindowFault};
pub use promising::promise;
pub use receiver::Receiver;
pub use sender::Sender;
pub use ticket::{Returned, Ticket};
pub use window::{Marks, Window};
