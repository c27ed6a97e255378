// ChaCha20, RFC 8439: the block function; and HChaCha20.
#![tactic(auto)]

ghost use Rattle.std.specs.Prelude.{◌≡◌};
ghost use Rattle.chacha.specs.ChaCha20.{state as state_of, block as block_of, subkey as subkey_of};
ghost use Rattle.chacha.specs.Laws.{Laws};

mod examples;
mod rounds;
mod words;

pub use examples::{example_block, example_quarter_round, example_subkey};
use rounds::{State, twenty_rounds};
use words::{serialize, sum, words};

const CONSTANTS: [u32; 4] = [0x61707865, 0x3320646e, 0x79622d32, 0x6b206574];

// The state of a key, with its last four words.
fn state(key: &[u8; 32], last: &[u32; 4]) -> State
    ensures { result ≡ state_of key.now last.now }
{
    let mut s = [0; 16];
    s[..4].copy_from_slice(&CONSTANTS);
    s[4..12].copy_from_slice(&words::<8>(key));
    s[12..].copy_from_slice(last);
    s
}

// The block of key stream with this counter.
pub fn block(key: &[u8; 32], counter: u32, nonce: &[u8; 12]) -> [u8; 64]
    ensures { result ≡ block_of key.now counter nonce.now }
{
    let [n0, n1, n2] = words::<3>(nonce);
    let initial = state(key, &[counter, n0, n1, n2]);
    let mut s = initial;
    twenty_rounds(&mut s);
    let mut bytes = [0; 64];
    serialize(&sum(&s, &initial), &mut bytes);
    bytes
}

// The key that HChaCha20 derives from a key and an input.
pub fn subkey(key: &[u8; 32], input: &[u8; 16]) -> [u8; 32]
    ensures { result ≡ subkey_of key.now input.now }
{
    let mut s = state(key, &words(input));
    twenty_rounds(&mut s);
    let ends = [s[0], s[1], s[2], s[3], s[12], s[13], s[14], s[15]];
    let mut bytes = [0; 32];
    serialize(&ends, &mut bytes);
    bytes
}

// Does nothing: its contract is the laws of the block function and of HChaCha20.
pub fn laws()
    ensures { Laws }
{}
