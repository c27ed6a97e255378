// From a line that holds a question and its expected outcome to whether the library gives that outcome.
#![tactic(auto)]

mod answering;
mod fields;
mod judging;
mod outcome;
mod question;
mod reading;
mod report;

pub use answering::{LONGEST, answer};
pub use judging::{Areas, LONGEST_STRING, judge, passed_over};
pub use outcome::Outcome;
pub use question::{
    CipherKeys, Ciphering, Direction, ExpanderKind, HashKind, Question, Sealing, Stretch, Vector,
};
pub use reading::read;
pub use report::{Report, Verdict};
