//! The objects of an office.

ghost use Rattle.std.specs.Prelude.{◌≡◌, ◌≤◌, All, length, IfOk};
ghost use Rattle.std.specs.Option.{option_map_or};
ghost use Rattle.packed_names.specs.Ranges.{IsDesignation};
ghost use Rattle.act_model.specs.Deeds.{deeds};
ghost use Rattle.act_model.specs.Observations.{observations};
ghost use Rattle.mirror_store.specs.Mirrored.{greatest, object_row, object_rows_from};

use crate::labels::printed;
use crate::rows::{ObjectRow, ObjectRows};
use act_model::Shelf;
use item_list::NoMemory;
use packed_names::{Designation, Number};
use std::alloc::Global;

/// The number of an object, or 0 where it has none.
fn number_or_zero(number: Option<Number>) -> u32
    ensures { result ≡ option_map_or (λ n. n.0) number 0 }
{
    match number {
        Some(number) => number.0,
        None => 0,
    }
}

/// The object with this principal designation, at its place.
fn object_row<V: Shelf>(shelf: &V, place: u32, p: Designation) -> Result<ObjectRow, NoMemory>
    requires name { IsDesignation p }
    requires few { observations (deeds (V.history shelf.now)) ≤ greatest }
    ensures { IfOk result (λ row. row ≡ object_row (deeds (V.history shelf.now)) place p) }
{
    let live = shelf.live(p)?;
    Ok(ObjectRow {
        place,
        principal: printed(p),
        number: number_or_zero(shelf.number_of(p)),
        observations: live.len() as u32,
    })
}

/// The objects with these principal designations, which are all of the office's, in their order.
pub(crate) fn object_rows<V: Shelf>(
    alloc: Global,
    shelf: &V,
    names: &[Designation],
) -> Result<ObjectRows, NoMemory>
    requires names { All IsDesignation names.now }
    requires few_names { length names.now ≤ greatest }
    requires few { observations (deeds (V.history shelf.now)) ≤ greatest }
    ensures { IfOk result (λ rows. rows ≡ object_rows_from (deeds (V.history shelf.now)) 1 names.now) }
{
    let mut rows = ObjectRows::new(alloc);
    for (before, p) in names.iter().enumerate() {
        rows.push(object_row(shelf, before as u32 + 1, *p)?)?;
    }
    Ok(rows)
}
