//! Whether an object has a live observation.

ghost use Rattle.std.specs.Prelude.{◌≡◌, map, flat_map};
ghost use Rattle.act_model.specs.Holdings.{holdings};
ghost use Rattle.act_model.specs.Designations.{links_of};
ghost use Rattle.act_model.specs.Numbers.{is_observed};
ghost use Rattle.tracklet_file.specs.Observations.{observations_of};
ghost use Rattle.object_rules.specs.Numbering.{is_any_live};
ghost use Rattle.object_rules.specs.Timing.{numbers_at};

use crate::chains::{first_in, next_in, next_track};
use crate::ledger::Ledger;
use identify_core::Link;
use identify_core::laws::given_in_order;
use packed_names::Designation;
use packed_names::laws::orders;
use tracklet_file::TrackletFile;

/// Whether the tracklet has a live observation.
pub(crate) fn is_track_live(file: &TrackletFile, t: u64) -> bool
    ensures { result ≡ is_any_live file.now.observations (observations_of file.now.observations t) }
{
    let mut next = first_in(file, t);
    while let Some(k) = next {
        if file.is_live(k) {
            return true;
        }
        next = next_in(file, t, k);
    }
    false
}

/// Whether a tracklet of the designation has a live observation.
fn is_home_live(file: &TrackletFile, d: Designation) -> bool
    ensures { result ≡ is_any_live file.now.observations
        (numbers_at file.now.observations file.now.tracklets d) }
{
    let mut next = next_track(file, d, 0);
    while let Some(t) = next {
        if is_track_live(file, t) {
            return true;
        }
        next = next_track(file, d, t);
    }
    false
}

/// Whether a tracklet of one of an object's designations has a live observation.
fn is_member_live(file: &TrackletFile, links: &[Link]) -> bool
    ensures { result ≡ is_any_live file.now.observations
        (flat_map (numbers_at file.now.observations file.now.tracklets) (map (λ link. link.member) links.now)) }
{
    for link in links {
        if is_home_live(file, link.member) {
            return true;
        }
    }
    false
}

/// Whether the object with this principal has a live observation. It walks the observations of this object alone.
pub(crate) fn is_observed<L: Ledger>(office: &L, p: Designation) -> bool
    ensures { result ≡ is_observed (holdings (L.deeds office.now)) (links_of (L.deeds office.now)) p }
{
    given_in_order();
    orders();
    is_member_live(office.file(), office.links().members(p))
}
