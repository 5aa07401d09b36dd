//! What is read of an office.

ghost use Rattle.std.specs.Prelude.{◌≡◌};
ghost use Rattle.tracklet_file.specs.Observations.{is_live};
ghost use Rattle.act_model.specs.Deeds.{deeds};
ghost use Rattle.act_model.specs.Holdings.{holdings};

use act_model::{Place, Shelf};

/// Whether an observation is there, and isn't retracted.
pub(crate) fn is_live<V: Shelf>(shelf: &V, k: u64) -> bool
    ensures { result ≡ is_live (holdings (deeds (V.history shelf.now))).observations k }
{
    match shelf.place(k) {
        Some(Place::Isolated) => true,
        Some(Place::Object(_)) => true,
        Some(Place::Retracted) => false,
        None => false,
    }
}
