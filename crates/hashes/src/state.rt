// What a chain has of a string so far.
ghost use Rattle.std.specs.Prelude.{◌≡◌, ◌≤◌, length};

// The sum, and how many bytes of the last block are in it. A whole block waits until more comes.
// Kept: a count beside the block, since the bytes of the last block are added into the sum and stand nowhere by themselves.
#[derive(Clone, Copy)]
pub(crate) struct Chain {
    pub(crate) sum: [u8; 16],
    pub(crate) fill: usize,
    ghost long: { length sum ≡ 16 },
    ghost within: { fill ≤ 16 },
}
