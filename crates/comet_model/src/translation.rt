//! Lines of 80 columns with comets' names, and the same lines with the designations that the office knows.

ghost use Rattle.std.specs.Prelude.{◌≡◌, ◌<◌, ◌≤◌, ◌∷◌, ◌++◌, List, length, OnOk, IfOk, IfSome};
ghost use Rattle.std.specs.Prelude.{IfNone};
ghost use Rattle.std.specs.Str.Lines.{strip_carriage_return};
ghost use Rattle.comet_model.specs.declared.named.NamedComet.{NamedComet};
ghost use Rattle.comet_model.specs.Translation.{object_named, object_in, translated_line, translated_part};
ghost use Rattle.comet_model.specs.Translation.{translation};

use act_model::push_packed;
use ascii_text::blanks::are_blanks;
use item_list::{Bytes, NoMemory};
use packed_names::Designation;
use std::alloc::Global;
use text_lines::cutting::cut;

/// A register that is asked for the objects of comets.
pub trait CometNames {
    /// The comets of the register, the newest first.
    ghost comets: { Self → List NamedComet };

    /// The object that has this packed name, eight characters. None exactly where no comet of the register has it.
    fn object_named(&self, name: &[u8]) -> Option<Designation>
        ensures { result ≡ object_named (comets self.now) name.now };
}

/// The object whose comet a line names, in a line of 80 bytes of which columns 1 to 4 are blank.
#[tactic(auto, unfolding(crate::specs::Translation::object_in))]
fn object_in<N: CometNames>(names: &N, line: &[u8]) -> Option<Designation>
    ensures object { result ≡ object_in (N.comets names.now) line.now }
    ensures long { IfSome result (λ d. length line.now ≡ 80) }
{
    if line.len() == 80 && are_blanks(&line[..4]) {
        names.object_named(&line[4..12])
    } else {
        None
    }
}

/// Writes a line with the object's designation in the place of the comet's name, or as it is where it names none.
#[tactic(auto, unfolding(crate::specs::Translation::translated_line))]
fn push_line<N: CometNames>(names: &N, out: &mut Bytes, line: &[u8]) -> Result<(), NoMemory>
    ensures { OnOk result (out.new ≡ out.old ++ translated_line (N.comets names.now) line.now) }
{
    match object_in(names, line) {
        Some(d) => {
            out.extend_from_slice(&line[..4])?;
            out.push(b' ')?;
            push_packed(out, d)?;
            out.extend_from_slice(&line[12..])
        }
        None => out.extend_from_slice(line),
    }
}

/// The line without the carriage return at its end.
fn without_return(line: &[u8]) -> &[u8]
    ensures line { result.now ≡ strip_carriage_return line.now }
    ensures shorter { length result.now ≤ length line.now }
{
    match line {
        [front @ .., b'\r'] => front,
        _ => line,
    }
}

/// Writes what stands before a line feed: a line, and the carriage return at its end where there is one.
fn push_part<N: CometNames>(names: &N, out: &mut Bytes, part: &[u8]) -> Result<(), NoMemory>
    ensures { OnOk result (out.new ≡ out.old ++ translated_part (N.comets names.now) part.now) }
{
    let line = without_return(part);
    push_line(names, out, line)?;
    out.extend_from_slice(&part[line.len()..])
}

/// What stands before the first line feed of a text, and the text after that; none where no line feed stands in it.
fn next_part(text: &[u8]) -> Option<(&[u8], &[u8])>
    ensures part { IfSome result (λ x. (comets : List NamedComet) → translation comets text.now
        ≡ translated_part comets x.0.now ++ 10 ∷ translation comets x.1.now) }
    ensures shorter { IfSome result (λ x. length x.1.now < length text.now) }
    ensures last { IfNone result ((comets : List NamedComet) → translation comets text.now
        ≡ translated_line comets text.now) }
{
    let (part, after) = cut(b'\n', text);
    match after {
        None => None,
        Some(after) => Some((part, after)),
    }
}

/// The batch in which the objects' designations stand in the place of the comets' names: in each line of 80 bytes of
/// which columns 1 to 4 are blank and columns 5 to 12 are the packed name of a comet of the register, column 5 is blank
/// and columns 6 to 12 are the packed designation. Every other byte stays, those of line ends too.
///
/// # Errors
///
/// Memory was refused.
pub fn translate<N: CometNames>(alloc: Global, names: &N, body: &[u8]) -> Result<Bytes, NoMemory>
    ensures { IfOk result (λ text. text ≡ translation (N.comets names.now) body.now) }
{
    let mut out = Bytes::with_capacity(alloc, body.len())?;
    let mut left = body;
    'parts: while let Some((part, after)) = next_part(left) {
        push_part(names, &mut out, part)?;
        out.push(b'\n')?;
        left = after;
    }
    push_line(names, &mut out, left)?;
    Ok(out)
}
