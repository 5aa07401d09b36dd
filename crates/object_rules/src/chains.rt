//! Walks over the observations of a tracklet, and over the tracklets of a designation.

ghost use Rattle.std.specs.Prelude.{◌≡◌, Some, IfSome};
ghost use Rattle.tracklet_file.specs.Observations.{later_of_track, observations_of, track_of};
ghost use Rattle.tracklet_file.specs.Tracklets.{later_at};
ghost use Rattle.object_rules.specs.Seeing.{chain_from};
ghost use Rattle.object_rules.specs.Timing.{chain_at};

use packed_names::Designation;
use tracklet_file::TrackletFile;

/// The first observation of a tracklet, retracted ones included.
pub(crate) fn first_in(file: &TrackletFile, t: u64) -> Option<u64>
    ensures chain { chain_from file.now.observations t result ≡ observations_of file.now.observations t }
    ensures own { IfSome result (λ k. track_of file.now.observations k ≡ Some t) }
{
    file.first_of(t)
}

/// The next observation of a tracklet after one of its own.
pub(crate) fn next_in(file: &TrackletFile, t: u64, k: u64) -> Option<u64>
    requires own { track_of file.now.observations k ≡ Some t }
    ensures chain { chain_from file.now.observations t result ≡ later_of_track file.now.observations t k }
    ensures own { IfSome result (λ k. track_of file.now.observations k ≡ Some t) }
{
    file.next_of(k)
}

/// The next tracklet of a designation above a number. From 0 on, each number taken as the next one, these are all.
pub(crate) fn next_track(file: &TrackletFile, d: Designation, after: u64) -> Option<u64>
    ensures { chain_at file.now.tracklets d result ≡ later_at file.now.tracklets d after }
{
    file.next_at(d, after)
}
