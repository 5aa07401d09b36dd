//! The other lines of the catalogue.

ghost use Rattle.std.specs.Prelude.{◌≡◌, ◌++◌, codes, length, IfOk, OnOk};
ghost use Rattle.act_model.specs.Catalogue.{in_object, object_head, also_line, track_head_line};
ghost use Rattle.act_model.specs.Deeds.{deeds};
ghost use Rattle.act_model.specs.QueryTexts.{number_text};
ghost use Rattle.act_model.specs.Tallies.{tally, tally_text};
ghost use Rattle.act_model.specs.Texts.{line_of, designation_text};
ghost use Rattle.catalogue_export.specs.Pieces.{name_text, is_listed, track_head};

use crate::writing::{push_named, push_number, push_numbered, push_track_name};
use act_model::{Shelf, tally_answer};
use item_list::{Bytes, NoMemory};
use obs_record::TrackName;
use packed_names::{Designation, Number};
use std::alloc::Global;

/// Writes the tally.
fn push_tally<V: Shelf>(alloc: Global, shelf: &V, out: &mut Bytes) -> Result<(), NoMemory>
    ensures { OnOk result (out.new ≡ out.old ++ tally_text (tally (V.history shelf.now))) }
{
    let tally = tally_answer(alloc, shelf.tally())?;
    out.extend_from_slice(tally.as_slice())
}

fn push_front<V: Shelf>(alloc: Global, shelf: &V, out: &mut Bytes) -> Result<(), NoMemory>
    ensures { OnOk result
        (out.new ≡ out.old ++ line_of (codes "catalogue 1") ++ tally_text (tally (V.history shelf.now))) }
{
    out.extend_from_slice(b"catalogue 1\n")?;
    push_tally(alloc, shelf, out)
}

/// The lines at the front: what the text is, and the tally.
pub(crate) fn front<V: Shelf>(alloc: Global, shelf: &V) -> Result<Bytes, NoMemory>
    ensures { IfOk result (λ text. text ≡ line_of (codes "catalogue 1") ++ tally_text (tally (V.history shelf.now))) }
{
    let mut out = Bytes::new(alloc);
    push_front(alloc, shelf, &mut out)?;
    Ok(out)
}

/// Writes an object's principal designation and its number.
fn push_object_names(
    out: &mut Bytes,
    p: Designation,
    number: Option<Number>,
) -> Result<(), NoMemory>
    ensures { OnOk result (out.new
        ≡ out.old ++ codes "object " ++ designation_text p ++ codes " number " ++ number_text number) }
{
    push_named(out, b"object ", p)?;
    out.extend_from_slice(b" number ")?;
    push_number(out, number)
}

fn push_object_head<V: Shelf>(
    shelf: &V,
    out: &mut Bytes,
    p: Designation,
    live: u64,
) -> Result<(), NoMemory>
    requires { live ≡ length (in_object (deeds (V.history shelf.now)) p) }
    ensures { OnOk result (out.new ≡ out.old ++ object_head (deeds (V.history shelf.now)) p) }
{
    push_object_names(out, p, shelf.number_of(p))?;
    push_numbered(out, b" observations ", live)?;
    out.push(b'\n')
}

/// The head of the object with this principal, which has this many live observations.
pub(crate) fn object_head<V: Shelf>(
    alloc: Global,
    shelf: &V,
    p: Designation,
    live: u64,
) -> Result<Bytes, NoMemory>
    requires { live ≡ length (in_object (deeds (V.history shelf.now)) p) }
    ensures { IfOk result (λ text. text ≡ object_head (deeds (V.history shelf.now)) p) }
{
    let mut out = Bytes::new(alloc);
    push_object_head(shelf, &mut out, p, live)?;
    Ok(out)
}

fn push_also_line(out: &mut Bytes, d: Designation) -> Result<(), NoMemory>
    ensures { OnOk result (out.new ≡ out.old ++ also_line d) }
{
    push_named(out, b"also ", d)?;
    out.push(b'\n')
}

/// The line of a designation of the object with this principal: nothing for the principal itself.
pub(crate) fn name_text(alloc: Global, p: Designation, d: Designation) -> Result<Bytes, NoMemory>
    ensures { IfOk result (λ text. text ≡ name_text p d) }
{
    let mut out = Bytes::new(alloc);
    if d == p {
        return Ok(out);
    }
    push_also_line(&mut out, d)?;
    Ok(out)
}

fn push_track_head(out: &mut Bytes, t: u64, name: TrackName) -> Result<(), NoMemory>
    ensures { OnOk result (out.new ≡ out.old ++ track_head_line t name) }
{
    push_numbered(out, b"track ", t)?;
    out.push(b' ')?;
    push_track_name(out, name)?;
    out.push(b'\n')
}

/// The head of a tracklet that is listed, and nothing for one that isn't.
pub(crate) fn track_head<V: Shelf>(
    alloc: Global,
    shelf: &V,
    t: u64,
    listed: bool,
) -> Result<Bytes, NoMemory>
    requires { listed ≡ is_listed (deeds (V.history shelf.now)) t }
    ensures { IfOk result (λ text. text ≡ track_head (deeds (V.history shelf.now)) t) }
{
    let mut out = Bytes::new(alloc);
    let Some(head) = shelf.track(t) else {
        return Ok(out);
    };
    if !listed {
        return Ok(out);
    }
    push_track_head(&mut out, t, head.name)?;
    Ok(out)
}
