//! The body of the act by which an officer enters a letter and a word for a catalogue, a band or a mode.

ghost use Rattle.std.specs.Prelude.{◌≡◌, ◌&&◌, ◌==◌, not, Some, None, IfOk};
ghost use Rattle.std.specs.List.{list_all};
ghost use Rattle.serde_json.specs.View.{view};
ghost use Rattle.ascii_text.specs.Bytes.{is_visible};
ghost use Rattle.act_bodies.specs.Members.{kind_of, kind_in, may_have, letter_in, is_word, word_in};
ghost use Rattle.act_bodies.specs.Bodies.{code_in, code_of};

use crate::fault::BodyFault;
use crate::members::{object_of, text_in};
use ascii_text::characters::is_visible;
use obs_record::{Short, is_refused_mode};
use serde_json::Value;
use station_tables::Kind;
use std::alloc::Global;

/// A letter and a word that are to stand for the same catalogue, band or mode.
#[derive(Clone, Copy, Debug, PartialEq, Eq)]
pub struct Code {
    /// What they stand for one of.
    pub kind: Kind,
    /// The letter of the 80-column format, a printable character other than a blank.
    pub letter: u8,
    /// The word of ADES, 1 to 11 printable characters, none of them a blank or a bar.
    pub word: Short,
}

/// The kind that a word names.
#[tactic(auto, unfolding(crate::specs::Members::kind_of))]
fn kind_of(word: &[u8]) -> Option<Kind>
    ensures { result ≡ kind_of word.now }
{
    if word == b"catalogue".as_slice() {
        Some(Kind::Catalogue)
    } else if word == b"band".as_slice() {
        Some(Kind::Band)
    } else if word == b"mode".as_slice() {
        Some(Kind::Mode)
    } else {
        None
    }
}

/// The kind of thing that a body's letter and word stand for.
#[tactic(auto, unfolding(crate::specs::Members::kind_in))]
fn kind_in(value: &Value) -> Option<Kind>
    ensures { result ≡ kind_in (view value.now) }
{
    kind_of(text_in("kind", value)?)
}

/// Whether a kind may have this letter. No mode has one of those that stand for records of roving observers, of radar
/// or of satellites.
fn may_have(kind: Kind, letter: u8) -> bool
    ensures { result ≡ may_have kind letter }
{
    match kind {
        Kind::Mode => is_visible(letter) && !is_refused_mode(letter),
        Kind::Catalogue | Kind::Band => is_visible(letter),
    }
}

/// The letter that a body gives to a thing of a kind.
#[tactic(auto, unfolding(crate::specs::Members::letter_in))]
fn letter_in(kind: Kind, value: &Value) -> Option<u8>
    ensures { result ≡ letter_in kind (view value.now) }
{
    let text = text_in("letter", value)?;
    if text.len() == 1 && may_have(kind, text[0]) {
        Some(text[0])
    } else {
        None
    }
}

/// Whether each byte is a printable character, and none a blank or a bar.
fn are_word_bytes(text: &[u8]) -> bool
    ensures { result ≡ list_all (λ byte. is_visible byte && not (byte == 124)) text.now }
{
    text.iter().all(|byte| is_visible(*byte) && *byte != b'|')
}

/// Whether the text is a word.
fn is_word(text: &[u8]) -> bool
    ensures { result ≡ is_word text.now }
{
    1 <= text.len() && text.len() <= 11 && are_word_bytes(text)
}

/// The word that a body gives.
#[tactic(auto, unfolding(crate::specs::Members::word_in))]
fn word_in(value: &Value) -> Option<Short>
    ensures { result ≡ word_in (view value.now) }
{
    let text = text_in("word", value)?;
    if is_word(text) {
        Some(Short::new(text))
    } else {
        None
    }
}

/// What the members of an object say.
#[tactic(auto, unfolding(crate::specs::Bodies::code_in))]
fn code_in(value: &Value) -> Option<Code>
    ensures { result ≡ code_in (view value.now) }
{
    let kind = kind_in(value)?;
    let letter = letter_in(kind, value)?;
    let word = word_in(value)?;
    Some(Code { kind, letter, word })
}

/// Reads the body of `code`: a JSON object of the members `kind`, `catalogue`, `band` or `mode`; `letter`, a string of
/// one printable character other than a blank, for a mode none of V, v, R, r, S and s; and `word`, a string of 1 to 11
/// printable characters, none of them a blank or `|`.
///
/// # Errors
///
/// `Unread` where the body is anything else; `NoMemory` where memory was refused.
#[tactic(auto, unfolding(crate::specs::Bodies::code_of))]
pub fn read_code(alloc: Global, body: &[u8]) -> Result<Code, BodyFault>
    ensures read { IfOk result (λ code. code_of body.now ≡ Some code) }
    ensures unread { result ≡ Err BodyFault.Unread → code_of body.now ≡ None }
{
    let value = object_of(alloc, 3, body)?;
    match code_in(&value) {
        Some(code) => Ok(code),
        None => Err(BodyFault::Unread),
    }
}
