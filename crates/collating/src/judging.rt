// A line, judged.
ghost use Rattle.std.specs.Prelude.{◌≡◌, ℕ, ◌≤◌, length, Some, Ok, option_map};
ghost use Rattle.octets.specs.Strings.{same, zeros};
ghost use Rattle.forms.specs.Said.{bytes_of};
ghost use Rattle.collating.specs.Filling.{Filled};
ghost use Rattle.collating.specs.Judging.{fitting, comparing, standing, judging, left, passed_over};
ghost use Rattle.collating.specs.Questions.{asked, wanted, told};
ghost use Rattle.collating.specs.Reading.{reading};

use crate::answering::{LONGEST, answer};
use crate::outcome::Outcome;
use crate::question::{CipherKeys, Ciphering, Question, Sealing, Stretch, Vector};
use crate::reading::read;
use crate::report::Verdict;
use forms::Hex;
use octets::equal;
use refusals::Refusal;

// The most bytes that a byte string of a line may have.
pub const LONGEST_STRING: usize = 16384;

// An area for a byte string of a line.
type Area = [u8; LONGEST_STRING];

// An area for each byte string of a question, which has five at most.
#[derive(Drop)]
pub struct Areas {
    pub first: Area,
    pub second: Area,
    pub third: Area,
    pub fourth: Area,
    pub fifth: Area,
}

impl Areas {
    // Areas of zero bytes.
    pub fn new() -> Areas
        ensures { result ≡ record { first = zeros 16384; second = zeros 16384; third = zeros 16384; fourth = zeros 16384; fifth = zeros 16384 } }
    {
        Areas {
            first: [0; LONGEST_STRING],
            second: [0; LONGEST_STRING],
            third: [0; LONGEST_STRING],
            fourth: [0; LONGEST_STRING],
            fifth: [0; LONGEST_STRING],
        }
    }
}

// Writes a byte string into an area, if it fits.
fn fill<'a>(hex: &Hex<'_>, area: &'a mut Area) -> Option<&'a [u8]>
    ensures { Filled (bytes_of hex.now) result }
{
    let length = hex.decode(area).ok()?;
    Some(&area[..length])
}

// The question with its byte strings written out, if each fits.
fn written<'a>(question: &Question<Hex<'_>>, areas: &'a mut Areas) -> Option<Question<&'a [u8]>>
    ensures { option_map (asked (λ s. s.now)) result ≡ fitting (asked bytes_of question.now) }
{
    let Areas {
        first,
        second,
        third,
        fourth,
        fifth,
    } = areas;
    Some(match *question {
        Question::Aes { key, block } => Question::Aes {
            key: fill(&key, first)?,
            block,
        },
        Question::Hash { kind, key, string } => Question::Hash {
            kind,
            key: fill(&key, first)?,
            string: fill(&string, second)?,
        },
        Question::ChaCha {
            key,
            counter,
            nonce,
        } => Question::ChaCha {
            key: fill(&key, first)?,
            counter,
            nonce,
        },
        Question::Subkey { key, input } => Question::Subkey {
            key: fill(&key, first)?,
            input,
        },
        Question::Expand(stretch) => Question::Expand(Stretch {
            kind: stretch.kind,
            key: fill(&stretch.key, first)?,
            domain: stretch.domain,
            tweak: stretch.tweak,
            input: stretch.input,
            from: stretch.from,
            count: stretch.count,
        }),
        Question::Cipher(ciphering) => Question::Cipher(Ciphering {
            direction: ciphering.direction,
            keys: CipherKeys {
                pile: ciphering.keys.pile,
                hash_key: fill(&ciphering.keys.hash_key, first)?,
                expander_key: fill(&ciphering.keys.expander_key, second)?,
            },
            tweak: ciphering.tweak,
            string: fill(&ciphering.string, third)?,
        }),
        // Kept: the keys of the cipher once more, since a function for them needs a definition of its own for when both fit.
        Question::Seal(sealing) => Question::Seal(Sealing {
            keys: CipherKeys {
                pile: sealing.keys.pile,
                hash_key: fill(&sealing.keys.hash_key, first)?,
                expander_key: fill(&sealing.keys.expander_key, second)?,
            },
            header_key: fill(&sealing.header_key, third)?,
            line: sealing.line,
            number: sealing.number,
            header: fill(&sealing.header, fourth)?,
            text: fill(&sealing.text, fifth)?,
        }),
    })
}

// Whether a line is passed over: it is empty, or begins with `#`.
pub fn passed_over(line: &[u8]) -> bool
    ensures { result ≡ passed_over line.now }
{
    match line {
        [] => true,
        [first, ..] => *first == b'#',
    }
}

// Whether a byte string of the line is what the library gave.
fn spells(hex: &Hex<'_>, bytes: &[u8], area: &mut Area) -> bool
    requires { length bytes.now ≤ 4120 }
    ensures { result ≡ same bytes.now (bytes_of hex.now) }
{
    match fill(hex, area) {
        Some(wanted) => equal(bytes, wanted),
        None => false,
    }
}

// Whether the library gave what is expected. Bytes that it gave stand at the front of `out`.
fn compare(
    got: Result<usize, Refusal>,
    expected: &Outcome<Hex<'_>>,
    out: &[u8; LONGEST],
    area: &mut Area,
) -> Verdict<usize>
    requires { (n : ℕ) → got ≡ Ok n → n ≤ 4120 }
    ensures { result ≡ comparing (standing got out.now) (wanted bytes_of expected.now) }
{
    match (got, *expected) {
        (Ok(length), Outcome::Bytes(hex)) if spells(&hex, &out[..length], area) => Verdict::Same,
        (Ok(length), _) => Verdict::Differs(Outcome::Bytes(length)),
        (Err(refusal), Outcome::Refused(number)) if u64::from(refusal.reason.number) == number => {
            Verdict::Same
        }
        (Err(refusal), _) => Verdict::Differs(Outcome::Refused(u64::from(refusal.reason.number))),
    }
}

fn judge_vector(
    vector: &Vector<Hex<'_>>,
    areas: &mut Areas,
    out: &mut [u8; LONGEST],
) -> Verdict<usize>
    ensures answer { result ≡ judging (Some (told bytes_of vector.now)) }
    ensures after { out.new ≡ left (Some (told bytes_of vector.now)) out.old }
{
    match written(&vector.question, areas) {
        None => Verdict::Unread,
        Some(question) => {
            let got = answer(&question, out);
            compare(got, &vector.expected, out, &mut areas.first)
        }
    }
}

// Judges a line. Bytes that the library gave stand at the front of `out`; the areas hold anything.
pub fn judge(line: &[u8], areas: &mut Areas, out: &mut [u8; LONGEST]) -> Verdict<usize>
    ensures answer { result ≡ judging (reading line.now) }
    ensures after { out.new ≡ left (reading line.now) out.old }
{
    match read(line) {
        None => Verdict::Unread,
        Some(vector) => judge_vector(&vector, areas, out),
    }
}
