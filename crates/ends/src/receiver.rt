// The receiving end of a line.
use crate::window::Window;
use sealing::Line;

#[derive(Drop)]
pub struct Receiver<C, J> {
    pub(crate) line: Line<C, J>,
    pub(crate) window: Window,
}
