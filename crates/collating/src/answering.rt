// A question, answered by the library.
ghost use Rattle.std.specs.Prelude.{◌≡◌, ◌≤◌, ◌++◌, length, drop};
ghost use Rattle.octets.specs.Strings.{zeros};
ghost use Rattle.ciphers.specs.Refusals.{verdict, kept};
ghost use Rattle.sealing.specs.Meaning.{meaning_of};
ghost use Rattle.collating.specs.Answers.{answering, counted, placed, stretching, stretch_of, directed, through, recording};
ghost use Rattle.collating.specs.Questions.{asked, stretch_with, ciphering_with, sealing_with};
ghost use Rattle.collating.specs.declared.question.Question.TheVariants.{Aes, Hash, ChaCha, Subkey, Expand, Cipher, Seal};

use crate::question::{Ciphering, Direction, ExpanderKind, HashKind, Question, Sealing, Stretch};
use aes::AesKey;
use chacha::{block, subkey};
use ciphers::{CipherFault, PileA, PileB, WideCipher};
use expanders::{AesExpander, ChaChaExpander, Expander};
use forms::Pile;
use from_key::{FromKey, exactly};
use hashes::{Cmac, KeyedHash, Polyval};
use refusals::Refusal;
use sealing::{Line, LineName};

// The longest answer: the record of a text of 4,096 bytes.
pub const LONGEST: usize = 4120;

// An area for an answer.
type Area = [u8; LONGEST];

// A stretch that is longer than every sequence.
const PAST_REACH: usize = 4097;

// Writes bytes at the front of the area, and answers how many they are.
fn put(bytes: &[u8], area: &mut Area) -> usize
    requires { length bytes.now ≤ 4120 }
    ensures answer { result ≡ length bytes.now }
    ensures after { area.new ≡ bytes.now ++ drop (length bytes.now) area.old }
{
    area[0..bytes.len()].copy_from_slice(bytes);
    bytes.len()
}

fn aes_block(key: &[u8], block: &[u8; 16], area: &mut Area) -> Result<usize, Refusal>
    ensures answer { result ≡ counted (answering (Aes key.now block.now)) }
    ensures after { area.new ≡ placed (answering (Aes key.now block.now)) area.old }
{
    let key = AesKey::new(key)?;
    Ok(put(&key.encipher(block), area))
}

fn keyed_hash(kind: HashKind, key: &[u8], string: &[u8], area: &mut Area) -> Result<usize, Refusal>
    ensures answer { result ≡ counted (answering (Hash kind key.now string.now)) }
    ensures after { area.new ≡ placed (answering (Hash kind key.now string.now)) area.old }
{
    // Kept: an arm for each, here and below: what a part gives by its key is said of each type, and of no trait.
    match kind {
        HashKind::Polyval => Ok(put(&Polyval::new(key)?.hash(string, &[]), area)),
        HashKind::Cmac => Ok(put(&Cmac::new(key)?.hash(string, &[]), area)),
    }
}

fn chacha_block(
    key: &[u8],
    counter: u32,
    nonce: &[u8; 12],
    area: &mut Area,
) -> Result<usize, Refusal>
    ensures answer { result ≡ counted (answering (ChaCha key.now counter nonce.now)) }
    ensures after { area.new ≡ placed (answering (ChaCha key.now counter nonce.now)) area.old }
{
    let key = exactly(key)?;
    Ok(put(&block(&key, counter, nonce), area))
}

fn derived(key: &[u8], input: &[u8; 16], area: &mut Area) -> Result<usize, Refusal>
    ensures answer { result ≡ counted (answering (Subkey key.now input.now)) }
    ensures after { area.new ≡ placed (answering (Subkey key.now input.now)) area.old }
{
    let key = exactly(key)?;
    Ok(put(&subkey(&key, input), area))
}

fn blank() -> [u8; PAST_REACH]
    ensures { result ≡ zeros 4097 }
{
    [0; PAST_REACH]
}

// The sequence from `from` on, as it comes of zero bytes.
// Kept: domain, tweak and input one by one: of arrays in a struct behind a reference the proof does not get that they hold bytes.
fn added<E: Expander>(
    expander: &E,
    domain: u8,
    tweak: &[u8; 8],
    input: &[u8; 16],
    from: usize,
    bytes: &mut [u8],
    area: &mut Area,
) -> Result<usize, Refusal>
    requires zero { bytes.old ≡ zeros (length bytes.old) }
    requires short { length bytes.old ≤ 4097 }
    ensures answer { result ≡ counted (stretching (E.reach expander.now) (E.sequence expander.now) domain tweak.now input.now from (length bytes.old)) }
    ensures after { area.new ≡ placed (stretching (E.reach expander.now) (E.sequence expander.now) domain tweak.now input.now from (length bytes.old)) area.old }
{
    expander.add(domain, tweak, input, from, bytes)?;
    Ok(put(bytes, area))
}

// A stretch of the sequence. One that is longer than every sequence is refused, however long it is.
fn stretched<E: Expander>(
    expander: &E,
    stretch: &Stretch<&[u8]>,
    area: &mut Area,
) -> Result<usize, Refusal>
    ensures answer { result ≡ counted (stretch_of (E.reach expander.now) (E.sequence expander.now) stretch.now) }
    ensures after { area.new ≡ placed (stretch_of (E.reach expander.now) (E.sequence expander.now) stretch.now) area.old }
{
    let mut bytes = blank();
    let end = (stretch.count as usize).min(PAST_REACH);
    added(
        expander,
        stretch.domain,
        &stretch.tweak,
        &stretch.input,
        stretch.from as usize,
        &mut bytes[0..end],
        area,
    )
}

fn expand(stretch: &Stretch<&[u8]>, area: &mut Area) -> Result<usize, Refusal>
    ensures answer { result ≡ counted (answering (Expand (stretch_with (λ s. s.now) stretch.now))) }
    ensures after { area.new ≡ placed (answering (Expand (stretch_with (λ s. s.now) stretch.now))) area.old }
{
    match stretch.kind {
        ExpanderKind::Aes => stretched(&AesExpander::new(stretch.key)?, stretch, area),
        ExpanderKind::ChaCha => stretched(&ChaChaExpander::new(stretch.key)?, stretch, area),
    }
}

// A string, changed in place one way through a cipher.
fn turn<C: WideCipher>(
    cipher: &C,
    direction: Direction,
    tweak: &[u8; 8],
    s: &mut [u8],
) -> Result<(), CipherFault>
    ensures answer { result ≡ verdict (C.lowest cipher.now) (C.highest cipher.now) (C.carried cipher.now) (length s.old) }
    ensures after { s.new ≡ kept result s.old (directed direction (C.enc cipher.now tweak.now s.old) (C.dec cipher.now tweak.now s.old)) }
{
    match direction {
        Direction::Encipher => cipher.encipher(tweak, s),
        Direction::Decipher => cipher.decipher(tweak, s),
    }
}

fn through<C: WideCipher>(
    cipher: &C,
    direction: Direction,
    tweak: &[u8; 8],
    string: &[u8],
    area: &mut Area,
) -> Result<usize, Refusal>
    ensures answer { result ≡ counted (through C.WideCipher cipher.now direction tweak.now string.now) }
    ensures after { area.new ≡ placed (through C.WideCipher cipher.now direction tweak.now string.now) area.old }
{
    cipher.admits(string.len())?;
    let length = put(string, area);
    if let Err(_) = turn(cipher, direction, tweak, &mut area[0..length]) {
        unreachable()
    }
    Ok(length)
}

fn ciphered(ciphering: &Ciphering<&[u8]>, area: &mut Area) -> Result<usize, Refusal>
    ensures answer { result ≡ counted (answering (Cipher (ciphering_with (λ s. s.now) ciphering.now))) }
    ensures after { area.new ≡ placed (answering (Cipher (ciphering_with (λ s. s.now) ciphering.now))) area.old }
{
    let Ciphering {
        direction,
        keys,
        tweak,
        string,
    } = *ciphering;
    match keys.pile {
        Pile::A => {
            let cipher = PileA::from_keys(keys.hash_key, keys.expander_key)?;
            through(&cipher, direction, &tweak, string, area)
        }
        Pile::B => {
            let cipher = PileB::from_keys(keys.hash_key, keys.expander_key)?;
            through(&cipher, direction, &tweak, string, area)
        }
    }
}

// The record of a text.
fn recorded<C: WideCipher, J: KeyedHash>(
    line: &Line<C, J>,
    sealing: &Sealing<&[u8]>,
    area: &mut Area,
) -> Result<usize, Refusal>
    ensures answer { result ≡ counted (recording (meaning_of C.WideCipher J.KeyedHash line.now) sealing.now.number sealing.now.header.now sealing.now.text.now) }
    ensures after { area.new ≡ placed (recording (meaning_of C.WideCipher J.KeyedHash line.now) sealing.now.number sealing.now.header.now sealing.now.text.now) area.old }
{
    Ok(line.seal(sealing.number, sealing.header, sealing.text, area)?)
}

fn sealed(sealing: &Sealing<&[u8]>, area: &mut Area) -> Result<usize, Refusal>
    ensures answer { result ≡ counted (answering (Seal (sealing_with (λ s. s.now) sealing.now))) }
    ensures after { area.new ≡ placed (answering (Seal (sealing_with (λ s. s.now) sealing.now))) area.old }
{
    let name = LineName::new(&sealing.line);
    let keys = sealing.keys;
    match keys.pile {
        Pile::A => {
            let cipher = PileA::from_keys(keys.hash_key, keys.expander_key)?;
            let hash = Polyval::new(sealing.header_key)?;
            recorded(&Line { cipher, hash, name }, sealing, area)
        }
        Pile::B => {
            let cipher = PileB::from_keys(keys.hash_key, keys.expander_key)?;
            let hash = Cmac::new(sealing.header_key)?;
            recorded(&Line { cipher, hash, name }, sealing, area)
        }
    }
}

// Writes what the library gives at the front of the area, and answers how many bytes that are, or the refusal.
// Kept: a length and a match: the area stays the caller's, and each kind of question is a call of its own.
pub fn answer(question: &Question<&[u8]>, area: &mut [u8; LONGEST]) -> Result<usize, Refusal>
    ensures answer { result ≡ counted (answering (asked (λ s. s.now) question.now)) }
    ensures after { area.new ≡ placed (answering (asked (λ s. s.now) question.now)) area.old }
{
    match question {
        Question::Aes { key, block } => aes_block(key, block, area),
        Question::Hash { kind, key, string } => keyed_hash(*kind, key, string, area),
        Question::ChaCha {
            key,
            counter,
            nonce,
        } => chacha_block(key, *counter, nonce, area),
        Question::Subkey { key, input } => derived(key, input, area),
        Question::Expand(stretch) => expand(stretch, area),
        Question::Cipher(ciphering) => ciphered(ciphering, area),
        Question::Seal(sealing) => sealed(sealing, area),
    }
}
