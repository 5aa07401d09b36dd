//! What several texts are made of.

ghost use Rattle.std.specs.Prelude.{◌≡◌, ◌++◌, ℕ, List, decimal, IfOk, OnOk, OnErr};
ghost use Rattle.act_model.specs.QueryTexts.{short_text, track_name_text, number_text};
ghost use Rattle.act_model.specs.Texts.{designation_text};

use act_model::{push_decimal, push_designation};
use item_list::{Bytes, NoMemory};
use obs_record::{Short, TrackName};
use packed_names::{Designation, Number};

/// Writes words, and a number after them.
pub(crate) fn push_numbered(out: &mut Bytes, words: &[u8], n: u64) -> Result<(), NoMemory>
    ensures { OnOk result (out.new ≡ out.old ++ words.now ++ decimal n) }
{
    out.extend_from_slice(words)?;
    push_decimal(out, n)
}

/// Writes words, and a designation after them.
pub(crate) fn push_named(out: &mut Bytes, words: &[u8], d: Designation) -> Result<(), NoMemory>
    ensures { OnOk result (out.new ≡ out.old ++ words.now ++ designation_text d) }
{
    out.extend_from_slice(words)?;
    push_designation(out, d)
}

/// Writes the characters of a short text.
pub(crate) fn push_short(out: &mut Bytes, short: Short) -> Result<(), NoMemory>
    ensures { OnOk result (out.new ≡ out.old ++ short_text short) }
{
    let len = usize::from(short.len);
    if len < short.bytes.len() {
        out.extend_from_slice(&short.bytes[..len])
    } else {
        out.extend_from_slice(&short.bytes)
    }
}

/// Writes the name that a tracklet's lines go by.
pub(crate) fn push_track_name(out: &mut Bytes, name: TrackName) -> Result<(), NoMemory>
    ensures { OnOk result (out.new ≡ out.old ++ track_name_text name) }
{
    match name {
        TrackName::Number(number) => push_decimal(out, u64::from(number.0)),
        TrackName::Designation(d) => push_designation(out, d),
        TrackName::Sub(short) => push_short(out, short),
    }
}

/// Writes a number, or `none`.
pub(crate) fn push_number(out: &mut Bytes, number: Option<Number>) -> Result<(), NoMemory>
    ensures { OnOk result (out.new ≡ out.old ++ number_text number) }
{
    match number {
        Some(number) => push_decimal(out, u64::from(number.0)),
        None => out.extend_from_slice(b"none"),
    }
}

/// Writes a text, where memory was there to make it. Where it wasn't, what is written stays as it was.
pub(crate) fn push_made(out: &mut Bytes, text: Result<Bytes, NoMemory>) -> Result<(), NoMemory>
    ensures ok { (all : List ℕ) → IfOk text (λ made. made ≡ all) → OnOk result (out.new ≡ out.old ++ all) }
    ensures err { OnErr result (out.new ≡ out.old) }
{
    let text = text?;
    out.extend_from_slice(text.as_slice())
}
