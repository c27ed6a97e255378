// Which numbers a receiver has accepted.
ghost use Rattle.std.specs.Prelude.{◌≡◌, ℕ, ◌/◌, ◌%◌, ◌^◌, ◌≤◌};

// Kept: 0 where none was accepted, since it is no number of a line, and C keeps it so.
// The highest number accepted, 0 at first, and which of the 64 numbers that end there were: bit i of the marks says that `highest - i` was.
#[derive(Clone, Copy, PartialEq, Eq, Debug)]
pub struct Marks {
    pub highest: u64,
    pub marks: u64,
}

// The highest is 0 or marked, and nothing below 1 is.
// Kept: bits of a word, since a receiver is kept through the C interface as two numbers.
#[derive(Clone, Copy)]
pub struct Window {
    pub(crate) accepted: Marks,
    ghost topped: { (1 ≤ accepted.highest → accepted.marks % 2 ≡ 1) },
    ghost above: { ((n : ℕ) → accepted.highest ≤ n → accepted.marks / 2 ^ n % 2 ≡ 0) },
}
