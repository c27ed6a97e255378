// A line, read.
ghost use Rattle.std.specs.Prelude.{◌≡◌, option_map};
ghost use Rattle.forms.specs.Said.{bytes_of};
ghost use Rattle.collating.specs.Questions.{asked, keys_with, stretch_with, ciphering_with, sealing_with, told};
ghost use Rattle.collating.specs.Reading.{took, form_of, aes as aes_form, hash as hash_form, chacha as chacha_form, subkey as subkey_form, cipher_keys as keys_form, stretch as stretch_form, ciphering as ciphering_form, sealing as sealing_form, question as question_form, reading};

use crate::fields::{Fields, look_up, outcome};
use crate::question::{
    CipherKeys, Ciphering, Direction, HashKind, Question, Sealing, Stretch, Vector,
};
use forms::Hex;
use octets::equal;

// What the first word of a line asks for.
#[derive(Clone, Copy)]
enum Form {
    Aes,
    Hash(HashKind),
    ChaCha,
    Subkey,
    Expand,
    Cipher(Direction),
    Seal,
}

const FORMS: [(&[u8], Form); 9] = [
    (b"aes", Form::Aes),
    (b"polyval", Form::Hash(HashKind::Polyval)),
    (b"cmac", Form::Hash(HashKind::Cmac)),
    (b"chacha", Form::ChaCha),
    (b"subkey", Form::Subkey),
    (b"expand", Form::Expand),
    (b"encipher", Form::Cipher(Direction::Encipher)),
    (b"decipher", Form::Cipher(Direction::Decipher)),
    (b"seal", Form::Seal),
];

fn asked_form(word: &[u8]) -> Option<Form>
    ensures { result ≡ form_of word.now }
{
    look_up(word, &FORMS)
}

fn aes<'a>(fields: &mut Fields<'a>) -> Option<Question<Hex<'a>>>
    ensures { took (asked bytes_of) result fields.new.rest.now ≡ aes_form fields.old.rest.now }
{
    Some(Question::Aes {
        key: fields.hex()?,
        block: fields.bytes()?,
    })
}

fn hash<'a>(kind: HashKind, fields: &mut Fields<'a>) -> Option<Question<Hex<'a>>>
    ensures { took (asked bytes_of) result fields.new.rest.now ≡ hash_form kind fields.old.rest.now }
{
    Some(Question::Hash {
        kind,
        key: fields.hex()?,
        string: fields.hex()?,
    })
}

fn chacha<'a>(fields: &mut Fields<'a>) -> Option<Question<Hex<'a>>>
    ensures { took (asked bytes_of) result fields.new.rest.now ≡ chacha_form fields.old.rest.now }
{
    Some(Question::ChaCha {
        key: fields.hex()?,
        counter: u32::try_from(fields.number()?).ok()?,
        nonce: fields.bytes()?,
    })
}

fn subkey<'a>(fields: &mut Fields<'a>) -> Option<Question<Hex<'a>>>
    ensures { took (asked bytes_of) result fields.new.rest.now ≡ subkey_form fields.old.rest.now }
{
    Some(Question::Subkey {
        key: fields.hex()?,
        input: fields.bytes()?,
    })
}

fn stretch<'a>(fields: &mut Fields<'a>) -> Option<Stretch<Hex<'a>>>
    ensures { took (stretch_with bytes_of) result fields.new.rest.now ≡ stretch_form fields.old.rest.now }
{
    Some(Stretch {
        kind: fields.expander()?,
        key: fields.hex()?,
        domain: u8::try_from(fields.number()?).ok()?,
        tweak: fields.bytes()?,
        input: fields.bytes()?,
        from: fields.number()?,
        count: fields.number()?,
    })
}

fn cipher_keys<'a>(fields: &mut Fields<'a>) -> Option<CipherKeys<Hex<'a>>>
    ensures { took (keys_with bytes_of) result fields.new.rest.now ≡ keys_form fields.old.rest.now }
{
    Some(CipherKeys {
        pile: fields.pile()?,
        hash_key: fields.hex()?,
        expander_key: fields.hex()?,
    })
}

fn ciphering<'a>(direction: Direction, fields: &mut Fields<'a>) -> Option<Ciphering<Hex<'a>>>
    ensures { took (ciphering_with bytes_of) result fields.new.rest.now ≡ ciphering_form direction fields.old.rest.now }
{
    Some(Ciphering {
        direction,
        keys: cipher_keys(fields)?,
        tweak: fields.bytes()?,
        string: fields.hex()?,
    })
}

fn sealing<'a>(fields: &mut Fields<'a>) -> Option<Sealing<Hex<'a>>>
    ensures { took (sealing_with bytes_of) result fields.new.rest.now ≡ sealing_form fields.old.rest.now }
{
    Some(Sealing {
        keys: cipher_keys(fields)?,
        header_key: fields.hex()?,
        line: fields.bytes()?,
        number: fields.number()?,
        header: fields.hex()?,
        text: fields.hex()?,
    })
}

// Kept: a match, since each form reads other fields; a table of functions would need one contract for all.
fn question<'a>(fields: &mut Fields<'a>) -> Option<Question<Hex<'a>>>
    ensures { took (asked bytes_of) result fields.new.rest.now ≡ question_form fields.old.rest.now }
{
    match asked_form(fields.word())? {
        Form::Aes => aes(fields),
        Form::Hash(kind) => hash(kind, fields),
        Form::ChaCha => chacha(fields),
        Form::Subkey => subkey(fields),
        Form::Expand => Some(Question::Expand(stretch(fields)?)),
        Form::Cipher(direction) => Some(Question::Cipher(ciphering(direction, fields)?)),
        Form::Seal => Some(Question::Seal(sealing(fields)?)),
    }
}

// Reads a line.
pub fn read(line: &[u8]) -> Option<Vector<Hex<'_>>>
    ensures { option_map (told bytes_of) result ≡ reading line.now }
{
    let mut fields = Fields { rest: line };
    let question = question(&mut fields)?;
    if !equal(fields.word(), b"=") {
        return None;
    }
    let expected = outcome(fields.rest)?;
    Some(Vector { question, expected })
}
