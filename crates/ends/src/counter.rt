// The numbers of a line, as a sending end counts them.
ghost use Rattle.std.specs.Prelude.{◌≡◌, ℕ, ◌+◌, ◌^◌, ◌≤◌, Some};

// The next number, and the number outstanding, if any.
#[derive(Clone, Copy, PartialEq, Eq, Debug)]
pub struct Counts {
    pub next: u64,
    pub outstanding: Option<u64>,
}

// Numbers go up by ones, to 2^40; at most one is outstanding, and it is the one drawn last.
#[derive(Drop)]
pub struct Counter {
    pub(crate) counts: Counts,
    ghost positive: { 1 ≤ counts.next },
    ghost bounded: { counts.next ≤ 2 ^ 40 + 1 },
    ghost numbered: { ((n : ℕ) → counts.outstanding ≡ Some n → 1 ≤ n) },
    ghost drawn: { ((n : ℕ) → counts.outstanding ≡ Some n → n + 1 ≡ counts.next) },
}
