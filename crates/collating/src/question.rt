// What a line asks, and what it expects.
use crate::outcome::Outcome;
use forms::Pile;

// Which keyed hash is asked.
#[derive(Clone, Copy)]
pub enum HashKind {
    Polyval,
    Cmac,
}

// Which expander is asked.
#[derive(Clone, Copy)]
pub enum ExpanderKind {
    Aes,
    ChaCha,
}

// Which way a wide cipher goes.
#[derive(Clone, Copy)]
pub enum Direction {
    Encipher,
    Decipher,
}

// The keys of a pile's cipher.
#[derive(Clone, Copy)]
pub struct CipherKeys<S> {
    pub pile: Pile,
    pub hash_key: S,
    pub expander_key: S,
}

// A stretch of the sequence of an expander.
#[derive(Clone, Copy)]
pub struct Stretch<S> {
    pub kind: ExpanderKind,
    pub key: S,
    // Kept: any byte, since `Expander::add` takes any, and a line may ask with a wrong one; an enum would have no case for it.
    pub domain: u8,
    pub tweak: [u8; 8],
    pub input: [u8; 16],
    pub from: u64,
    pub count: u64,
}

// A string, one way through the cipher of a pile.
#[derive(Clone, Copy)]
pub struct Ciphering<S> {
    pub direction: Direction,
    pub keys: CipherKeys<S>,
    pub tweak: [u8; 8],
    pub string: S,
}

// A text, sealed by plain seal.
#[derive(Clone, Copy)]
pub struct Sealing<S> {
    pub keys: CipherKeys<S>,
    pub header_key: S,
    pub line: [u8; 8],
    pub number: u64,
    pub header: S,
    pub text: S,
}

// What the library is asked for. A byte string of any length is an `S`.
#[derive(Clone, Copy)]
pub enum Question<S> {
    // AES of a block.
    Aes {
        key: S,
        block: [u8; 16],
    },
    // A keyed hash.
    Hash {
        kind: HashKind,
        key: S,
        string: S,
    },
    // A block of ChaCha20.
    ChaCha {
        key: S,
        counter: u32,
        nonce: [u8; 12],
    },
    // The key that HChaCha20 derives.
    Subkey {
        key: S,
        input: [u8; 16],
    },
    Expand(Stretch<S>),
    Cipher(Ciphering<S>),
    Seal(Sealing<S>),
}

// A question with the outcome that is expected.
#[derive(Clone, Copy)]
pub struct Vector<S> {
    pub question: Question<S>,
    pub expected: Outcome<S>,
}
