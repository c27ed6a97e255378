// A guard over a work area.
ghost use Rattle.std.specs.Prelude.{◌≡◌, length};
ghost use Rattle.octets.specs.Strings.{zeros};

use octets::clear;

// Holds the bytes of a work area, and zeroes all of them when it ends, by whatever way.
pub struct Work<'a>(pub &'a mut [u8]);

impl Drop for Work<'_> {
    fn drop(self)
        ensures { self.exit.0.now ≡ zeros (length self.entry.0.now) }
    {
        clear(self.0);
        let Work(_) = self;
    }
}
