// What a board keeps of an end between calls.

// A sending end: the next number, and the number outstanding, or 0.
// Kept: a number or 0, since C keeps it.
#[repr(C)]
#[derive(Clone, Copy)]
pub struct SenderState {
    pub next: u64,
    pub outstanding: u64,
}

// A receiving end: the highest number accepted, or 0; bit i of the marks says that the number i below it was accepted.
// Kept: beside `Marks` of the ends, since C keeps it and fixes its layout.
#[repr(C)]
#[derive(Clone, Copy)]
pub struct ReceiverState {
    pub highest: u64,
    pub marks: u64,
}
