// The lines of hallrun: how they are read, and how answers are written.
#![tactic(auto)]

pub mod answer;
pub mod command;
pub mod hex;
pub mod opening;
mod reader;
pub mod unread;

pub use answer::Answer;
pub use command::{Command, read_command};
pub use hex::{Hex, Hexadecimal, NotHex, TooShort};
pub use opening::{Keys, Opening, Pile, read_opening};
pub use unread::Unread;
