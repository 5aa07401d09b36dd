//! The parcels of entries.

ghost use Rattle.std.specs.Prelude.{◌≡◌, ◌≤◌, length, IfOk};
ghost use Rattle.act_model.specs.declared.request.TheConstants.{BODY_BYTES};
ghost use Rattle.mpc_desk.specs.Files.{parcel_of};

use act_model::Entry;
use obs_journal::{NoMemory, Parcel};
use std::alloc::Global;

/// The parcel of an entry, whose body is one that a request may have.
///
/// # Errors
///
/// Memory was refused.
pub fn parcel_of(alloc: Global, entry: &Entry) -> Result<Parcel, NoMemory>
    requires short { length entry.now.body ≤ BODY_BYTES }
    ensures { IfOk result (λ parcel. parcel ≡ parcel_of entry.now) }
{
    Parcel::make(
        alloc,
        entry.caller,
        entry.number,
        entry.moment.ns(),
        entry.verb.code(),
        entry.body.as_slice(),
    )
}
