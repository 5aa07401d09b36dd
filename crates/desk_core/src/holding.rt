//! What a deed leaves in the file of observations and tracklets.

ghost use Rattle.std.specs.Prelude.{◌≡◌, ◌+◌, ◌≤◌, ◌^◌, length, Ok, IfSome, IfNone};
ghost use Rattle.ordered_list.specs.Contents.{UsesOne};
ghost use Rattle.tracklet_file.specs.Contents.{TakesNoMemory};
ghost use Rattle.tracklet_file.specs.Tracklets.{IsTracklet};
ghost use Rattle.act_model.specs.Holdings.{with_begun, with_found, with_batch, with_deed};
ghost use Rattle.act_model.specs.Places.{added_by};
ghost use Rattle.act_model.specs.Taken.{tracks_with, accepted_in};
ghost use Rattle.object_rules.specs.Noting.{homed_by};
ghost use Rattle.desk_core.specs.Office.{held_in, IsTracked, AreTracked};
ghost use Rattle.desk_core.specs.Holding.{is_added, HoldsDeed};

use act_model::{Deed, PlacedLine, TakenLine, TakenLines, name_of};
use object_rules::home_tracklets;
use tracklet_file::TrackletFile;

/// Begins the tracklet of an accepted observation, where it isn't there.
fn begin(file: &mut TrackletFile, placed: &PlacedLine)
    requires tracked { IsTracked (length file.old.tracklets) (Ok placed.now) }
    requires tracklets { 1 ≤ file.old.tracklet_room }
    ensures begun { file.new.tracklets ≡ with_begun placed.now file.old.tracklets }
    ensures there { IsTracklet file.new.tracklets placed.now.track }
    ensures tracks { length file.new.tracklets ≡ tracks_with (length file.old.tracklets) (Ok placed.now) }
    ensures observations { file.new.observations ≡ file.old.observations }
    ensures observation_room { file.new.observation_room ≡ file.old.observation_room }
    ensures tracklet_room { UsesOne file.old.tracklet_room file.new.tracklet_room }
{
    if placed.track() > file.tracks() {
        let sighting = placed.sighting();
        file.add_track(name_of(sighting), sighting.station, placed.home());
    }
}

/// Adds an accepted observation. The first one of a tracklet begins it.
fn hold_placed(file: &mut TrackletFile, receipt: u64, placed: &PlacedLine)
    requires tracked { IsTracked (length file.old.tracklets) (Ok placed.now) }
    requires observations { 1 ≤ file.old.observation_room }
    requires tracklets { 1 ≤ file.old.tracklet_room }
    ensures held { held_in file.new ≡ with_found receipt (Ok placed.now) (held_in file.old) }
    ensures tracks { length file.new.tracklets ≡ tracks_with (length file.old.tracklets) (Ok placed.now) }
    ensures observations { UsesOne file.old.observation_room file.new.observation_room }
    ensures tracklets { UsesOne file.old.tracklet_room file.new.tracklet_room }
{
    begin(file, placed);
    file.add(placed.track(), *placed.sighting(), receipt);
}

/// Adds what became of a line, where it was accepted.
fn hold_line(file: &mut TrackletFile, receipt: u64, taken: &TakenLine)
    requires tracked { IsTracked (length file.old.tracklets) taken.now.found }
    requires observations { is_added taken.now ≤ file.old.observation_room }
    requires tracklets { is_added taken.now ≤ file.old.tracklet_room }
    ensures held { held_in file.new ≡ with_found receipt taken.now.found (held_in file.old) }
    ensures tracks { length file.new.tracklets ≡ tracks_with (length file.old.tracklets) taken.now.found }
    ensures observations { file.old.observation_room ≤ file.new.observation_room + is_added taken.now }
    ensures tracklets { file.old.tracklet_room ≤ file.new.tracklet_room + is_added taken.now }
    ensures no_more { TakesNoMemory file.old file.new }
{
    if let Ok(placed) = &taken.found {
        hold_placed(file, receipt, placed);
    }
}

/// Adds the accepted lines of a batch, one after the other.
fn hold_batch(file: &mut TrackletFile, receipt: u64, lines: &TakenLines)
    requires tracked { AreTracked (length file.old.tracklets) lines.now }
    requires observations { accepted_in lines.now ≤ file.old.observation_room }
    requires tracklets { accepted_in lines.now ≤ file.old.tracklet_room }
    ensures held { held_in file.new ≡ with_batch receipt lines.now (held_in file.old) }
    ensures observations { file.old.observation_room ≤ file.new.observation_room + accepted_in lines.now }
    ensures tracklets { file.old.tracklet_room ≤ file.new.tracklet_room + accepted_in lines.now }
    ensures no_more { TakesNoMemory file.old file.new }
{
    for place in 0..lines.len() {
        hold_line(file, receipt, &lines.at(place));
    }
}

/// How many observations a deed adds.
pub fn added_by(deed: &Deed) -> u64
    ensures { result ≡ added_by deed.now }
{
    match deed {
        Deed::Submitted(lines) => lines.accepted(),
        _ => 0,
    }
}

/// How many observations a deed adds, where these are fewer than 2^32. No batch comes near it.
pub fn few_added(deed: &Deed) -> Option<u32>
    ensures added { IfSome result (λ more. more ≡ added_by deed.now) }
    ensures many { IfNone result (2 ^ 32 ≤ added_by deed.now) }
{
    u32::try_from(added_by(deed)).ok()
}

/// Does a deed of the entry with this receipt. It takes no memory: there is room.
pub fn hold(file: &mut TrackletFile, receipt: u64, deed: &Deed)
    requires fits { HoldsDeed file.old deed.now }
    requires observations { added_by deed.now ≤ file.old.observation_room }
    requires tracklets { added_by deed.now ≤ file.old.tracklet_room }
    ensures held { held_in file.new ≡ with_deed receipt deed.now (held_in file.old) }
    ensures observations { file.old.observation_room ≤ file.new.observation_room + added_by deed.now }
    ensures tracklets { file.old.tracklet_room ≤ file.new.tracklet_room + added_by deed.now }
    ensures no_more_observations { file.new.observation_room ≤ file.old.observation_room }
    ensures no_more_tracklets { file.new.tracklet_room ≤ file.old.tracklet_room + homed_by deed.now }
{
    match deed {
        Deed::Submitted(lines) => hold_batch(file, receipt, lines),
        Deed::Retracted(k) => file.retract(*k),
        Deed::Designated { .. } | Deed::Attributed { .. } | Deed::Released(_) => {
            home_tracklets(file, deed);
        }
        Deed::Enrolled(_)
        | Deed::Stationed { .. }
        | Deed::Coded { .. }
        | Deed::Identified { .. }
        | Deed::Separated(_)
        | Deed::Judged { .. }
        | Deed::Numbered(_)
        | Deed::Opened { .. }
        | Deed::Nothing => {}
    }
}
