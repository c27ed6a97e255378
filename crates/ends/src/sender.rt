// The sending end of a line.
use crate::counter::Counter;
use sealing::Line;

#[derive(Drop)]
pub struct Sender<C, J> {
    pub(crate) line: Line<C, J>,
    pub(crate) counter: Counter,
}
