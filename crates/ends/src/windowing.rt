// What a window does.
ghost use Rattle.std.specs.Prelude.{◌≡◌, ◌+◌, ◌<◌, ◌≤◌, true};
ghost use Rattle.ends.specs.Window.{window_of, fresh, possible, resumed, resuming, judging, Accepts, Leaves};

use crate::fault::WindowFault;
use crate::window::{Marks, Window};

impl Window {
    // Nothing was accepted yet.
    pub fn new() -> Window
        ensures { window_of result ≡ fresh }
    {
        let accepted = Marks {
            highest: 0,
            marks: 0,
        };
        Window { accepted }
    }

    // The window that stood so, if one can stand so.
    pub fn resume(accepted: Marks) -> Option<Window>
        ensures { resumed result ≡ resuming accepted }
    {
        let Marks { highest, marks } = accepted;
        if highest >= 1 && marks % 2 == 0 {
            return None;
        }
        if highest < 64 && marks >> highest != 0 {
            return None;
        }
        Some(Window { accepted })
    }

    // What `resume` makes the window of again.
    pub fn kept(self) -> Marks
        ensures answer { result ≡ window_of self }
        ensures lasting { possible (window_of self) ≡ true }
    {
        let Window { accepted } = self;
        accepted
    }

    // Whether a number may be accepted.
    pub fn judge(&self, number: u64) -> Result<(), WindowFault>
        ensures { result ≡ judging (window_of self.now) number }
    {
        let Marks { highest, marks } = self.accepted;
        if number < 1 {
            return Err(WindowFault::AcceptedEarlier(number));
        }
        if number > highest {
            return Ok(());
        }
        let behind = highest - number;
        if behind >= 64 {
            return Err(WindowFault::TooOld(highest));
        }
        if (marks >> behind) & 1 == 1 {
            return Err(WindowFault::AcceptedEarlier(number));
        }
        Ok(())
    }

    // Marks a number that may be accepted.
    fn mark(&mut self, number: u64)
        requires first { 1 ≤ number }
        requires near { self.old.accepted.highest < number + 64 }
        ensures { Accepts (window_of self.old) number (window_of self.new) }
    {
        let Marks { highest, marks } = self.accepted;
        if number > highest {
            let ahead = number - highest;
            let shifted = if ahead < 64 { marks << ahead } else { 0 };
            self.accepted = Marks {
                highest: number,
                marks: shifted | 1,
            };
        } else {
            self.accepted.marks |= 1 << (highest - number);
        }
    }

    // Accepts a number, once, unless it is too old.
    pub fn accept(&mut self, number: u64) -> Result<(), WindowFault>
        ensures answer { result ≡ judging (window_of self.old) number }
        ensures after { Leaves result (window_of self.old) number (window_of self.new) }
    {
        self.judge(number)?;
        self.mark(number);
        Ok(())
    }
}
