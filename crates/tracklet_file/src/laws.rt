//! Laws of observations and tracklets. The contract of each function is the law, for all lists of them.

ghost use Rattle.std.specs.Prelude.{◌≡◌, ℕ, ◌+◌, not, List, length, count_by};
ghost use Rattle.tracklet_file.specs.declared.observation.Observation.{Observation};
ghost use Rattle.tracklet_file.specs.declared.tracklet.Tracklet.{Tracklet};
ghost use Rattle.tracklet_file.specs.Observations.{IsObservation, is_live, sighting_of, entry_of, track_of};
ghost use Rattle.tracklet_file.specs.Observations.{later_of_track};
ghost use Rattle.tracklet_file.specs.Tracklets.{home_of, name_of_track, station_of, isolated_in, homed_in};
ghost use Rattle.tracklet_file.specs.Tracklets.{retracted_in};
ghost use Rattle.tracklet_file.specs.Changes.{Change, AreCalls, observations_after, tracklets_after, added_observations};
ghost use Rattle.tracklet_file.specs.Changes.{brought_tracklets, is_retraction, is_gone, last_home};

/// Each observation stands in one place: the isolated, the homed and the retracted ones together are all.
pub fn one_place()
    ensures { (tracklets : List Tracklet) (observations : List Observation) →
        isolated_in tracklets observations + homed_in tracklets observations + retracted_in observations
        ≡ length observations }
{}

/// Over every list of calls, an observation is live exactly where none of them retracted it.
pub fn live_until_retracted()
    ensures { (changes : List Change) (k : ℕ) → AreCalls changes → IsObservation (observations_after changes) k →
        is_live (observations_after changes) k ≡ not (is_gone changes k) }
{}

/// Over every list of calls, observation k is the k-th that was added, with its tracklet and its entry.
pub fn as_added()
    ensures sightings { (changes : List Change) (k : ℕ) →
        sighting_of (observations_after changes) k ≡ sighting_of (added_observations changes) k }
    ensures entries { (changes : List Change) (k : ℕ) →
        entry_of (observations_after changes) k ≡ entry_of (added_observations changes) k }
    ensures tracks { (changes : List Change) (k : ℕ) →
        track_of (observations_after changes) k ≡ track_of (added_observations changes) k }
    ensures count { (changes : List Change) →
        length (observations_after changes) ≡ length (added_observations changes) }
{}

/// Over every list of calls, the observations of a tracklet are those that were added as its own, in their order.
pub fn of_tracklet_as_added()
    ensures { (changes : List Change) (t after : ℕ) →
        later_of_track (observations_after changes) t after ≡ later_of_track (added_observations changes) t after }
{}

/// Over every list of calls, tracklet t is the t-th that was added, with its name and its station.
pub fn tracklets_as_added()
    ensures names { (changes : List Change) (t : ℕ) →
        name_of_track (tracklets_after changes) t ≡ name_of_track (brought_tracklets changes) t }
    ensures stations { (changes : List Change) (t : ℕ) →
        station_of (tracklets_after changes) t ≡ station_of (brought_tracklets changes) t }
    ensures count { (changes : List Change) → length (tracklets_after changes) ≡ length (brought_tracklets changes) }
{}

/// Over every list of calls, this many observations are retracted as there were retractions.
pub fn retractions_are_counted()
    ensures { (changes : List Change) → AreCalls changes →
        retracted_in (observations_after changes) ≡ count_by is_retraction changes }
{}

/// Over every list of calls, the home of a tracklet is what the last call that names the tracklet says.
pub fn last_home_stands()
    ensures { (changes : List Change) (t : ℕ) → AreCalls changes →
        home_of (tracklets_after changes) t ≡ last_home changes t }
{}
