//! The observations of an office that stand.

ghost use Rattle.std.specs.Prelude.{◌≡◌, ◌≤◌, IfOk};
ghost use Rattle.act_model.specs.Deeds.{deeds};
ghost use Rattle.act_model.specs.Observations.{observations};
ghost use Rattle.mirror_store.specs.Mirrored.{greatest, sight_of, sight_row, sight_rows};

use crate::labels::name_at;
use crate::laws;
use crate::rows::{SightRow, SightRows};
use act_model::Shelf;
use item_list::NoMemory;
use obs_record::Sighting;
use packed_names::Label;
use std::alloc::Global;

/// Observation k, under this name.
fn sight_row(k: u32, object: Label, s: &Sighting) -> SightRow
    ensures { result ≡ sight_row k object s.now }
{
    SightRow {
        id: k,
        object,
        time: s.time.ns(),
        ra: s.ra.units(),
        dec: s.dec.units(),
        station: s.station,
    }
}

/// Observation k, where it stands.
fn sight_of<V: Shelf>(shelf: &V, k: u32) -> Option<SightRow>
    ensures { result ≡ sight_of (deeds (V.history shelf.now)) k }
{
    laws::names_are_names();
    let object = name_at(shelf.place(u64::from(k))?)?;
    let sighting = shelf.sighting(u64::from(k))?;
    Some(sight_row(k, object, sighting))
}

/// The observations that stand, by number.
pub(crate) fn sight_rows<V: Shelf>(alloc: Global, shelf: &V) -> Result<SightRows, NoMemory>
    requires { observations (deeds (V.history shelf.now)) ≤ greatest }
    ensures { IfOk result (λ rows. rows ≡ sight_rows (deeds (V.history shelf.now))) }
{
    let mut rows = SightRows::new(alloc);
    for before in 0..shelf.tally().accepted as u32 {
        if let Some(row) = sight_of(shelf, before + 1) {
            rows.push(row)?;
        }
    }
    Ok(rows)
}
