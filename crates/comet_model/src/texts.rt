//! The texts of answers. All of them are lines that end in a line feed.

ghost use Rattle.std.specs.Prelude.{◌≡◌, ◌++◌, OnOk, IfOk};
ghost use Rattle.act_model.specs.Texts.{receipt_line};
ghost use Rattle.comet_model.specs.Texts.{register_line};
ghost use Rattle.comet_model.specs.Texts.{comet_text, packed_comet_text, comet_words, comet_line, object_words};

use crate::named::NamedComet;
use act_model::{push_designation, receipt_answer};
use comet_names::{Comet, is_comet, pack_comet, print_comet};
use item_list::{Bytes, NoMemory};
use packed_names::Designation;
use std::alloc::Global;

/// Writes the printed form of a comet, and no text for a value that is none.
fn push_comet(out: &mut Bytes, comet: Comet) -> Result<(), NoMemory>
    ensures { OnOk result (out.new ≡ out.old ++ comet_text comet) }
{
    if is_comet(comet) {
        return out.extend_from_slice(print_comet(comet).as_slice());
    }
    Ok(())
}

/// Writes the packed form of a comet, and no text for a value that is none.
fn push_packed_comet(out: &mut Bytes, comet: Comet) -> Result<(), NoMemory>
    ensures { OnOk result (out.new ≡ out.old ++ packed_comet_text comet) }
{
    if is_comet(comet) {
        return out.extend_from_slice(&pack_comet(comet));
    }
    Ok(())
}

/// Writes `comet`, and both forms of the name.
#[tactic(auto, unfolding(crate::specs::Texts::comet_words))]
fn push_comet_words(out: &mut Bytes, comet: Comet) -> Result<(), NoMemory>
    ensures { OnOk result (out.new ≡ out.old ++ comet_words comet) }
{
    out.extend_from_slice(b"comet ")?;
    push_comet(out, comet)?;
    out.push(b' ')?;
    push_packed_comet(out, comet)
}

fn push_comet_line(out: &mut Bytes, comet: Comet) -> Result<(), NoMemory>
    ensures { OnOk result (out.new ≡ out.old ++ comet_line comet) }
{
    push_comet_words(out, comet)?;
    out.push(b'\n')
}

/// The answer to an act by which an object got this name and that became the entry with this receipt: the receipt, and
/// the name in its printed and its packed form.
///
/// # Errors
///
/// Memory was refused.
pub fn comet_answer(alloc: Global, receipt: u64, comet: Comet) -> Result<Bytes, NoMemory>
    ensures { IfOk result (λ text. text ≡ receipt_line receipt ++ comet_line comet) }
{
    let mut out = receipt_answer(alloc, receipt)?;
    push_comet_line(&mut out, comet)?;
    Ok(out)
}

/// Writes the designation beside which a name was given, and the principal one, each behind its word.
#[tactic(auto, unfolding(crate::specs::Texts::object_words))]
fn push_object_words(
    out: &mut Bytes,
    object: Designation,
    principal: Designation,
) -> Result<(), NoMemory>
    ensures { OnOk result (out.new ≡ out.old ++ object_words object principal) }
{
    out.extend_from_slice(b" object ")?;
    push_designation(out, object)?;
    out.extend_from_slice(b" principal ")?;
    push_designation(out, principal)
}

/// Writes the line of an object that has the name of a comet, where this is the principal designation of the object
/// now: both forms of the name, the designation beside which it was given, and the principal one.
///
/// # Errors
///
/// Memory was refused.
pub fn push_register_line(
    out: &mut Bytes,
    named: NamedComet,
    principal: Designation,
) -> Result<(), NoMemory>
    ensures { OnOk result (out.new ≡ out.old ++ register_line named principal) }
{
    push_comet_words(out, named.comet)?;
    push_object_words(out, named.object, principal)?;
    out.push(b'\n')
}
