// What a call answers to a board.
ghost use Rattle.boards.specs.Done.{done};
ghost use Rattle.std.specs.Prelude.{◌≡◌};

use sealing::Opened;

// The number of a refusal, the code of its place and its detail; all 0 where there is none.
// Kept: numbers and zeros, since C reads them.
#[repr(C)]
#[derive(Clone, Copy)]
pub struct Reason {
    pub number: u32,
    pub place: u32,
    pub detail: u64,
}

// A refusal with the one that it carries, or, where there is none, the number of the record and how many bytes were written.
#[repr(C)]
#[derive(Clone, Copy)]
pub struct Answer {
    pub refusal: Reason,
    pub carried: Reason,
    pub number: u64,
    pub length: usize,
}

// What a call did: the number of the record, and how many bytes it wrote.
// Kept: beside `Opened`, since it tells of draws and sealed records too, and one struct for both would be named wrongly in one.
#[derive(Clone, Copy)]
pub struct Done {
    pub number: u64,
    pub length: usize,
}

impl From<Opened> for Done {
    ghost from_gives = { λ o d. d ≡ done o };

    fn from(opened: Opened) -> Done {
        let Opened { number, length } = opened;
        Done { number, length }
    }
}
