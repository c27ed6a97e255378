// What a call brings to say of which line it speaks.

// Kept: the pile is a byte, and each exported call fills this struct from five parameters, since C passes them so.
#[derive(Drop)]
pub struct Brought<'a> {
    pub pile: u8,
    pub hash_key: &'a [u8],
    pub expander_key: &'a [u8],
    pub header_key: &'a [u8],
    pub name: &'a [u8],
}
