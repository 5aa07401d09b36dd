//! The text of an object.

ghost use Rattle.std.specs.Prelude.{◌≡◌, ◌++◌, flat_map, IfOk, OnOk};
ghost use Rattle.identify_core.specs.Acts.{members};
ghost use Rattle.act_model.specs.Deeds.{deeds};
ghost use Rattle.act_model.specs.Designations.{links_of};
ghost use Rattle.act_model.specs.Holdings.{holdings};
ghost use Rattle.act_model.specs.Numbers.{numbers_of};
ghost use Rattle.act_model.specs.QueryTexts.{principal_line, name_line, own_number_line, observed_line, object_text};
ghost use Rattle.act_model.specs.Shelves.{live_of};

use crate::writing::{push_named, push_number, push_numbered};
use act_model::Shelf;
use item_list::{Bytes, NoMemory};
use packed_names::{Designation, Number};
use std::alloc::Global;

fn push_principal_line(out: &mut Bytes, p: Designation) -> Result<(), NoMemory>
    ensures { OnOk result (out.new ≡ out.old ++ principal_line p) }
{
    push_named(out, b"principal ", p)?;
    out.push(b'\n')
}

fn push_number_line(out: &mut Bytes, number: Option<Number>) -> Result<(), NoMemory>
    ensures { OnOk result (out.new ≡ out.old ++ own_number_line number) }
{
    out.extend_from_slice(b"number ")?;
    push_number(out, number)?;
    out.push(b'\n')
}

fn push_name_line(out: &mut Bytes, d: Designation) -> Result<(), NoMemory>
    ensures { OnOk result (out.new ≡ out.old ++ name_line d) }
{
    push_named(out, b"name ", d)?;
    out.push(b'\n')
}

fn push_name_lines(out: &mut Bytes, members: &[Designation]) -> Result<(), NoMemory>
    ensures { OnOk result (out.new ≡ out.old ++ flat_map name_line members.now) }
{
    for d in members {
        push_name_line(out, *d)?;
    }
    Ok(())
}

fn push_observed_line<V: Shelf>(shelf: &V, out: &mut Bytes, k: u64) -> Result<(), NoMemory>
    ensures { OnOk result (out.new ≡ out.old ++ observed_line (holdings (deeds (V.history shelf.now))).observations k) }
{
    let Some(t) = shelf.track_of(k) else {
        return Ok(());
    };
    push_numbered(out, b"obs ", k)?;
    push_numbered(out, b" track ", t)?;
    out.push(b'\n')
}

fn push_observed_lines<V: Shelf>(shelf: &V, out: &mut Bytes, live: &[u64]) -> Result<(), NoMemory>
    ensures { OnOk result
        (out.new ≡ out.old ++ flat_map (observed_line (holdings (deeds (V.history shelf.now))).observations) live.now) }
{
    for k in live {
        push_observed_line(shelf, out, *k)?;
    }
    Ok(())
}

/// Writes the designations of the object with this principal, in their order.
fn push_names<V: Shelf>(shelf: &V, out: &mut Bytes, p: Designation) -> Result<(), NoMemory>
    ensures { OnOk result (out.new
        ≡ out.old ++ flat_map name_line (members (links_of (deeds (V.history shelf.now))) p)) }
{
    let members = shelf.members(p)?;
    push_name_lines(out, members.as_slice())
}

/// Writes the live observations of the object with this principal, by time.
fn push_observed<V: Shelf>(shelf: &V, out: &mut Bytes, p: Designation) -> Result<(), NoMemory>
    ensures { OnOk result
        (out.new ≡ out.old ++ flat_map (observed_line (holdings (deeds (V.history shelf.now))).observations)
        (live_of (holdings (deeds (V.history shelf.now))) (links_of (deeds (V.history shelf.now))) p)) }
{
    let live = shelf.live(p)?;
    push_observed_lines(shelf, out, live.as_slice())
}

fn push_object<V: Shelf>(shelf: &V, out: &mut Bytes, p: Designation) -> Result<(), NoMemory>
    ensures { OnOk result (out.new ≡ out.old ++ object_text (holdings (deeds (V.history shelf.now)))
        (links_of (deeds (V.history shelf.now))) (numbers_of (deeds (V.history shelf.now))) p) }
{
    push_principal_line(out, p)?;
    push_number_line(out, shelf.number_of(p))?;
    push_names(shelf, out, p)?;
    push_observed(shelf, out, p)
}

/// The text of the object with this principal designation: the principal, the number, the designations in their order,
/// and the live observations by time.
pub(crate) fn object_text<V: Shelf>(
    alloc: Global,
    shelf: &V,
    p: Designation,
) -> Result<Bytes, NoMemory>
    ensures { IfOk result (λ text. text ≡ object_text (holdings (deeds (V.history shelf.now)))
        (links_of (deeds (V.history shelf.now))) (numbers_of (deeds (V.history shelf.now))) p) }
{
    let mut out = Bytes::new(alloc);
    push_object(shelf, &mut out, p)?;
    Ok(out)
}
