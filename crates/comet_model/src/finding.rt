//! What an office that can be read has of a designation.

ghost use Rattle.std.specs.Prelude.{◌≡◌, true, option_map};
ghost use Rattle.act_model.specs.BatchRules.{is_in_years};
ghost use Rattle.act_model.specs.Deeds.{deeds};
ghost use Rattle.act_model.specs.Discoveries.{half_of};
ghost use Rattle.comet_model.specs.Finding.{discovery, found_of};

use crate::named::Found;
use act_model::Shelf;
use obs_record::Sighting;
use obs_time::half_month;
use packed_names::{Designation, HalfMonth};

/// The half-month of an observation of the years 1925 to 2099, by its exact time.
#[tactic(auto,
// the half-month of the exact time
unfolding(act_model::specs::Discoveries::half_of, obs_time::specs::Calendar::half_month_of,
// by its date
obs_time::specs::Calendar::half_of, obs_time::specs::Calendar::date_of_day))]
fn half_of(sighting: &Sighting) -> HalfMonth
    requires { is_in_years sighting.now ≡ true }
    ensures { result ≡ half_of sighting.now.time }
{
    match half_month(sighting.time) {
        Some((year, index)) => HalfMonth { year, index },
        None => unreachable!(),
    }
}

/// The half-month of the observation by which the object of a designation was discovered.
fn discovered_in<V: Shelf>(shelf: &V, d: Designation) -> Option<HalfMonth>
    ensures { result ≡ option_map (λ s. half_of s.time) (discovery (deeds (V.history shelf.now)) d) }
{
    act_model::laws::observed_years();
    let sighting = shelf.sighting(shelf.discovery(d)?)?;
    Some(half_of(sighting))
}

/// What the office has of a designation. It takes no memory.
#[tactic(auto, unfolding(crate::specs::Finding::found_of))]
pub fn look_up<V: Shelf>(shelf: &V, d: Designation) -> Found
    ensures { result ≡ found_of (deeds (V.history shelf.now)) d }
{
    if shelf.principal(d).is_none() {
        return Found::NotGiven;
    }
    match discovered_in(shelf, d) {
        Some(half) => Found::Discovered(half),
        None => Found::NoDiscovery,
    }
}
