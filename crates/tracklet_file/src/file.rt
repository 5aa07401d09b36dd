//! The file of observations and tracklets.

ghost use Rattle.std.specs.Prelude.{◌≡◌, ◌+◌, ◌<◌, ◌≤◌, ◌∷◌, ◌++◌, [], length, map, IsTrue, IfOk, OnOk, IfSome, Some};
ghost use Rattle.std.specs.Prelude.{option_copied, vec_len, vec_capacity};
ghost use Rattle.tracklet_file.specs.Numbering.{next_number};
ghost use Rattle.tracklet_file.specs.Observations.{IsObservation, sighting_of, entry_of, track_of, is_live, has_live};
ghost use Rattle.tracklet_file.specs.Observations.{later_of_track, observations_of, first_of, next_of, IsFollowedBy};
ghost use Rattle.tracklet_file.specs.Observations.{with_observation, with_retraction, is_live_line};
ghost use Rattle.tracklet_file.specs.Tracklets.{IsTracklet, name_of_track, station_of, home_of, retracted_in};
ghost use Rattle.tracklet_file.specs.Tracklets.{isolated_in, homed_in, with_tracklet, with_home, later_at, next_at};
ghost use Rattle.ordered_list.specs.Contents.{UsesOne};
ghost use Rattle.tracklet_file.specs.Contents.{KeepsRoom, TakesNoMemory, GivesBackOne};

use crate::chain::{Chain, extend, link, some_number};
use crate::counting::{isolated_after, with_one, without_one};
use crate::homes::{HomeEntry, enter, number_at, rehome, room_for};
use crate::observation::Observation;
use crate::places::Places;
use crate::searches::numbered;
use crate::tracklet::Tracklet;
use angle_fixed::{Dec, Ra};
use item_list::NoMemory;
use obs_record::{Line, Short, Sighting, TrackName};
use obs_time::Instant;
use ordered_list::OrderedList;
use packed_names::Designation;
use packed_names::laws::orders;
use std::alloc::Global;
use std::marker::Model;

/// For how many observations and tracklets the memory is taken at first.
const FIRST_ROOM: usize = 16;

/// The observations that the office accepted, and their tracklets.
#[derive(Debug, Drop)]
pub struct TrackletFile {
    observations: Vec<Observation>,
    links: Vec<u64>,
    tracklets: Vec<Tracklet>,
    chains: Vec<Chain>,
    places: Places,
    homes: OrderedList<HomeEntry>,
    isolated: u64,
    retracted: u64,
    // Room for an entry of each is kept in the index of homes.
    isolated_tracks: u64,
}

impl Model for TrackletFile {
    ghost use Rattle.std.specs.Prelude.{◌-◌, min, reverse, vec_len, vec_capacity};
    ghost use Rattle.tracklet_file.specs.Contents.{Contents};
    ghost use Rattle.tracklet_file.specs.Keeping.{Kept, IsFiled};

    ghost Value = { Contents };

    ghost view = { λ f. record {
      observations = reverse f.observations.items;
      tracklets = reverse f.tracklets.items;
      observation_room = min (vec_capacity f.observations - vec_len f.observations)
          (min (vec_capacity f.links - vec_len f.links) f.places.room);
      tracklet_room = min (vec_capacity f.tracklets - vec_len f.tracklets)
          (min (vec_capacity f.chains - vec_len f.chains) (f.homes.room - f.isolated_tracks));
    } };

    ghost invariant = { λ f.
        IsFiled ⟦<HomeEntry as Ord>⟧.cmp (reverse f.tracklets.items) f.observations.items (record {
          isolated = f.isolated;
          retracted = f.retracted;
          chains = f.chains.items;
          links = f.links.items;
        }) (record {
          entries = f.homes.items;
          room = f.homes.room;
          isolated = f.isolated_tracks;
        }) f.places };
}

impl TrackletFile {
    /// A file without observations and tracklets.
    ///
    /// # Errors
    ///
    /// Memory was refused.
    pub fn new(alloc: Global) -> Result<TrackletFile, NoMemory>
        ensures observations { IfOk result (λ file. file.observations ≡ []) }
        ensures tracklets { IfOk result (λ file. file.tracklets ≡ []) }
    {
        Ok(TrackletFile {
            observations: Vec::with_capacity(alloc, FIRST_ROOM)?,
            links: Vec::with_capacity(alloc, FIRST_ROOM)?,
            tracklets: Vec::with_capacity(alloc, FIRST_ROOM)?,
            chains: Vec::with_capacity(alloc, FIRST_ROOM)?,
            places: Places::new(alloc)?,
            homes: OrderedList::new(alloc)?,
            isolated: 0,
            retracted: 0,
            isolated_tracks: 0,
        })
    }

    /// Takes the memory for this many more observations, and this many more tracklets. What is in the file stays, and
    /// no room that there was is given up.
    ///
    /// # Errors
    ///
    /// Memory was refused, or they and the isolated tracklets are 2^32 tracklets or more.
    pub fn reserve(&mut self, sightings: u32, tracks: u32) -> Result<(), NoMemory>
        ensures observation_room { OnOk result (sightings ≤ self.new.observation_room) }
        ensures tracklet_room { OnOk result (tracks ≤ self.new.tracklet_room) }
        ensures room_stays { KeepsRoom self.old self.new }
        ensures observations { self.new.observations ≡ self.old.observations }
        ensures tracklets { self.new.tracklets ≡ self.old.tracklets }
    {
        self.observations.reserve(sightings as usize)?;
        self.links.reserve(sightings as usize)?;
        self.places
            .reserve(self.observations.as_slice(), sightings)?;
        self.tracklets.reserve(tracks as usize)?;
        self.chains.reserve(tracks as usize)?;
        self.homes.reserve(room_for(self.isolated_tracks, tracks)?)?;
        Ok(())
    }

    /// Adds a tracklet, and gives its number, the next one. It takes no memory: there is room.
    pub fn add_track(&mut self, name: TrackName, station: Short, home: Option<Designation>) -> u64
        requires { 0 < self.old.tracklet_room }
        ensures number { result ≡ next_number self.old.tracklets }
        ensures added { self.new.tracklets ≡ with_tracklet self.old.tracklets name station home }
        ensures observations { self.new.observations ≡ self.old.observations }
        ensures tracklet_room { UsesOne self.old.tracklet_room self.new.tracklet_room }
        ensures observation_room { self.new.observation_room ≡ self.old.observation_room }
    {
        orders();
        let track = self.tracklets.len() as u64 + 1;
        self.tracklets.push_reserved(Tracklet {
            name,
            station,
            home,
        });
        self.chains.push_reserved(Chain {
            first: 0,
            last: 0,
            live: 0,
        });
        self.isolated_tracks = with_one(self.isolated_tracks, home.is_none());
        enter(&mut self.homes, track, home);
        track
    }

    /// Adds a live observation of a tracklet that is there, and gives its number, the next one. The entry is the number
    /// of the one that brings it. It takes no memory: there is room.
    pub fn add(&mut self, track: u64, s: Sighting, entry: u64) -> u64
        requires room { 0 < self.old.observation_room }
        requires there { IsTracklet self.old.tracklets track }
        ensures number { result ≡ next_number self.old.observations }
        ensures added { self.new.observations ≡ with_observation self.old.observations track s entry }
        ensures tracklets { self.new.tracklets ≡ self.old.tracklets }
        ensures observation_room { UsesOne self.old.observation_room self.new.observation_room }
        ensures tracklet_room { self.new.tracklet_room ≡ self.old.tracklet_room }
    {
        let number = self.observations.len() as u64 + 1;
        let isolated = self.home(track).is_none();
        self.isolated = with_one(self.isolated, isolated);
        let newest = Observation {
            track,
            sighting: s,
            entry,
            live: true,
        };
        self.places.add(self.observations.as_slice(), &newest);
        let chain = self.chains[(track - 1) as usize];
        self.chains[(track - 1) as usize] = extend(chain, number);
        link(&mut self.links, chain.last, number);
        self.observations.push_reserved(newest);
        number
    }

    /// Retracts a live observation, for good. It keeps its number and its tracklet, and the tracklet its home.
    pub fn retract(&mut self, k: u64)
        requires { IsTrue (is_live self.old.observations k) }
        ensures retracted { self.new.observations ≡ with_retraction self.old.observations k }
        ensures tracklets { self.new.tracklets ≡ self.old.tracklets }
        ensures room_stays { KeepsRoom self.old self.new }
        ensures no_more { TakesNoMemory self.old self.new }
    {
        let place = (k - 1) as usize;
        let o = self.observations[place];
        let isolated = self.home(o.track).is_none();
        self.isolated = without_one(self.isolated, isolated);
        self.retracted += 1;
        self.chains[(o.track - 1) as usize].live -= 1;
        self.places.retract(self.observations.as_slice(), place);
        self.observations[place] = Observation { live: false, ..o };
    }

    /// Gives a tracklet that is there another home, or makes it isolated.
    pub fn set_home(&mut self, t: u64, home: Option<Designation>)
        requires { IsTracklet self.old.tracklets t }
        ensures home { self.new.tracklets ≡ with_home self.old.tracklets t home }
        ensures observations { self.new.observations ≡ self.old.observations }
        ensures room_stays { KeepsRoom self.old self.new }
        ensures no_more { GivesBackOne self.old self.new }
    {
        orders();
        let was = self.home(t);
        let live = self.chains[(t - 1) as usize].live;
        self.isolated = isolated_after(self.isolated, live, was, home);
        self.isolated_tracks = isolated_after(self.isolated_tracks, 1, was, home);
        rehome(&mut self.homes, t, was, home);
        self.tracklets[(t - 1) as usize].home = home;
    }

    /// The designation that a tracklet was given to. None means that it is isolated.
    pub fn home(&self, t: u64) -> Option<Designation>
        requires { IsTracklet self.now.tracklets t }
        ensures { result ≡ home_of self.now.tracklets t }
    {
        self.tracklets[(t - 1) as usize].home
    }

    /// Whether an observation that is there isn't retracted.
    pub fn is_live(&self, k: u64) -> bool
        requires { IsObservation self.now.observations k }
        ensures { result ≡ is_live self.now.observations k }
    {
        self.observations[(k - 1) as usize].live
    }

    /// Whether a live observation has this station, time and position.
    pub fn has_live(&self, station: Short, time: Instant, ra: Ra, dec: Dec) -> bool
        ensures { result ≡ has_live self.now.observations station time ra dec }
    {
        self.places
            .has_live(self.observations.as_slice(), station, time, ra, dec)
    }

    /// Whether a live observation has the place of each line's observation: an answer for each line, after those that
    /// are there. A line without an observation has no place. All are asked for at once: what one needs of the memory
    /// comes while others are asked for. It takes no memory: there is room for the answers.
    pub fn have_live(&self, lines: &[Line], live: &mut Vec<bool>)
        requires { vec_len live.old + length lines.now ≤ vec_capacity live.old }
        ensures live { live.new.items
            ≡ live.old.items ++ map (is_live_line (has_live self.now.observations)) lines.now }
        ensures capacity { vec_capacity live.new ≡ vec_capacity live.old }
    {
        self.places
            .have_live(self.observations.as_slice(), lines, live);
    }

    /// What was observed; None exactly for what isn't there.
    pub fn sighting(&self, k: u64) -> Option<&Sighting>
        ensures { option_copied result ≡ sighting_of self.now.observations k }
    {
        numbered(self.observations.as_slice(), k).map(|o| &o.sighting)
    }

    /// The number of the entry that brought the observation; None exactly for what isn't there.
    pub fn entry_of(&self, k: u64) -> Option<u64>
        ensures { result ≡ entry_of self.now.observations k }
    {
        numbered(self.observations.as_slice(), k).map(|o| o.entry)
    }

    /// The number of the observation's tracklet, which is there; None exactly for an observation that isn't there.
    pub fn track_of(&self, k: u64) -> Option<u64>
        ensures track { result ≡ track_of self.now.observations k }
        ensures there { IfSome result (IsTracklet self.now.tracklets) }
    {
        numbered(self.observations.as_slice(), k).map(|o| o.track)
    }

    /// The name that the tracklet's lines go by; None exactly for what isn't there.
    pub fn name(&self, t: u64) -> Option<TrackName>
        ensures { result ≡ name_of_track self.now.tracklets t }
    {
        numbered(self.tracklets.as_slice(), t).map(|tracklet| tracklet.name)
    }

    /// The code of the tracklet's station; None exactly for what isn't there.
    pub fn station(&self, t: u64) -> Option<Short>
        ensures { result ≡ station_of self.now.tracklets t }
    {
        numbered(self.tracklets.as_slice(), t).map(|tracklet| tracklet.station)
    }

    /// The least number of an observation of the tracklet, retracted ones included; None exactly where there is none.
    pub fn first_of(&self, t: u64) -> Option<u64>
        ensures first { result ≡ first_of self.now.observations t }
        ensures own { IfSome result (λ k. track_of self.now.observations k ≡ Some t) }
        ensures rest { IfSome result (λ k.
            observations_of self.now.observations t ≡ k ∷ later_of_track self.now.observations t k) }
    {
        match numbered(self.chains.as_slice(), t) {
            Some(chain) => some_number(chain.first),
            None => None,
        }
    }

    /// The next greater number of an observation of the same tracklet, retracted ones included; None exactly where
    /// there is none, and for what isn't there.
    pub fn next_of(&self, k: u64) -> Option<u64>
        ensures next { result ≡ next_of self.now.observations k }
        ensures later { IfSome result (λ next. k < next) }
        ensures own { IfSome result (λ next. track_of self.now.observations next ≡ track_of self.now.observations k) }
        ensures rest { IfSome result (λ next. IsFollowedBy self.now.observations k next) }
    {
        match numbered(self.links.as_slice(), k) {
            Some(next) => some_number(*next),
            None => None,
        }
    }

    /// The least number over `after` of a tracklet that was given to the designation; None exactly where there is none.
    /// From 0 on, each number taken as the next `after`, these are all of them.
    pub fn next_at(&self, d: Designation, after: u64) -> Option<u64>
        ensures next { result ≡ next_at self.now.tracklets d after }
        ensures rest { IfSome result (λ t. later_at self.now.tracklets d after
            ≡ t ∷ later_at self.now.tracklets d t) }
    {
        orders();
        let key = HomeEntry {
            home: d,
            track: after,
        };
        number_at(d, self.homes.next_above(&key))
    }

    /// How many live observations are of isolated tracklets.
    pub fn isolated(&self) -> u64
        ensures { result ≡ isolated_in self.now.tracklets self.now.observations }
    {
        self.isolated
    }

    /// How many live observations are of tracklets with a home.
    pub fn homed(&self) -> u64
        ensures { result ≡ homed_in self.now.tracklets self.now.observations }
    {
        self.observations() - self.isolated - self.retracted
    }

    /// How many observations are retracted.
    pub fn retracted(&self) -> u64
        ensures { result ≡ retracted_in self.now.observations }
    {
        self.retracted
    }

    /// How many tracklets there are, which is the number of the newest one.
    pub fn tracks(&self) -> u64
        ensures { result ≡ length self.now.tracklets }
    {
        self.tracklets.len() as u64
    }

    /// How many observations there are, which is the number of the newest one. The isolated, the homed and the
    /// retracted ones together are all of them.
    pub fn observations(&self) -> u64
        ensures count { result ≡ length self.now.observations }
        ensures places { isolated_in self.now.tracklets self.now.observations
            + homed_in self.now.tracklets self.now.observations
            + retracted_in self.now.observations ≡ result }
    {
        self.observations.len() as u64
    }
}
