//! The text of a name.

ghost use Rattle.std.specs.Prelude.{◌≡◌, ◌++◌, codes, IfOk, OnOk};
ghost use Rattle.std.specs.Option.{option_and_then};
ghost use Rattle.identify_core.specs.Acts.{principal};
ghost use Rattle.act_model.specs.Deeds.{deeds};
ghost use Rattle.act_model.specs.Designations.{links_of};
ghost use Rattle.act_model.specs.Knowing.{stands_for};
ghost use Rattle.act_model.specs.Numbers.{numbers_of};
ghost use Rattle.act_model.specs.QueryTexts.{printed_form, packed_form, principal_text, name_text};
ghost use Rattle.act_model.specs.Texts.{line_of};

use act_model::{Shelf, push_designation};
use item_list::{Bytes, NoMemory};
use packed_names::{Designation, Name, is_name, pack, print};
use std::alloc::Global;

/// The principal of the object that has the name. None where the office didn't give the name.
fn principal_of<V: Shelf>(shelf: &V, name: Name) -> Option<Designation>
    ensures { result ≡ option_and_then (principal (links_of (deeds (V.history shelf.now))))
        (stands_for (links_of (deeds (V.history shelf.now))) (numbers_of (deeds (V.history shelf.now))) name) }
{
    match name {
        Name::Number(number) => shelf.principal(shelf.named(number)?),
        Name::Designation(d) => shelf.principal(d),
    }
}

fn push_printed_line(out: &mut Bytes, name: Name) -> Result<(), NoMemory>
    ensures { OnOk result (out.new ≡ out.old ++ line_of (codes "printed " ++ printed_form name)) }
{
    out.extend_from_slice(b"printed ")?;
    if is_name(name) {
        out.extend_from_slice(print(name).as_slice())?;
    }
    out.push(b'\n')
}

fn push_packed_line(out: &mut Bytes, name: Name) -> Result<(), NoMemory>
    ensures { OnOk result (out.new ≡ out.old ++ line_of (codes "packed " ++ packed_form name)) }
{
    out.extend_from_slice(b"packed ")?;
    if is_name(name) {
        out.extend_from_slice(pack(name).as_slice())?;
    }
    out.push(b'\n')
}

fn push_principal_line(out: &mut Bytes, p: Option<Designation>) -> Result<(), NoMemory>
    ensures { OnOk result (out.new ≡ out.old ++ line_of (codes "principal " ++ principal_text p)) }
{
    out.extend_from_slice(b"principal ")?;
    match p {
        Some(p) => push_designation(out, p)?,
        None => out.extend_from_slice(b"none")?,
    }
    out.push(b'\n')
}

fn push_name<V: Shelf>(shelf: &V, out: &mut Bytes, name: Name) -> Result<(), NoMemory>
    ensures { OnOk result (out.new ≡ out.old ++ name_text (links_of (deeds (V.history shelf.now)))
        (numbers_of (deeds (V.history shelf.now))) name) }
{
    push_printed_line(out, name)?;
    push_packed_line(out, name)?;
    push_principal_line(out, principal_of(shelf, name))
}

/// The two forms of a name, and the principal designation of the object that has it.
pub(crate) fn name_text<V: Shelf>(alloc: Global, shelf: &V, name: Name) -> Result<Bytes, NoMemory>
    ensures { IfOk result (λ text. text ≡ name_text (links_of (deeds (V.history shelf.now)))
        (numbers_of (deeds (V.history shelf.now))) name) }
{
    let mut out = Bytes::new(alloc);
    push_name(shelf, &mut out, name)?;
    Ok(out)
}
