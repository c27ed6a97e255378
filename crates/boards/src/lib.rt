// The calls of a board, for C and Rust to link.
#![tactic(auto)]

mod answer;
mod brought;
mod fault;
mod line;
mod making;
mod plain;
mod receiving;
mod sending;
mod state;

pub use answer::{Answer, Reason};
pub use plain::{sidingmint_open, sidingmint_seal};
pub use receiving::{sidingmint_receiver_make, sidingmint_receiver_receive};
pub use sending::{
    sidingmint_sender_draw, sidingmint_sender_give_up, sidingmint_sender_make,
    sidingmint_sender_seal,
};
pub use state::{ReceiverState, SenderState};
