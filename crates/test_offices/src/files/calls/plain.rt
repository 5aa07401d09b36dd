//! The plain form of the file: two lists that are walked at each question.

use item_list::NoMemory;
use obs_record::Sighting;
use packed_names::Designation;
use std::alloc::Global;
use tracklet_file::{Observation, Tracklet};

#[derive(Drop)]
pub(crate) struct Plain {
    observations: Vec<Observation>,
    tracklets: Vec<Tracklet>,
}

impl Plain {
    pub(crate) fn new(alloc: Global) -> Plain {
        Plain {
            observations: Vec::new(alloc),
            tracklets: Vec::new(alloc),
        }
    }

    pub(crate) fn add_track(&mut self, tracklet: Tracklet) -> Result<(), NoMemory> {
        self.tracklets.push(tracklet)?;
        Ok(())
    }

    pub(crate) fn add(
        &mut self,
        track: u64,
        sighting: Sighting,
        entry: u64,
    ) -> Result<(), NoMemory> {
        self.observations.push(Observation {
            track,
            sighting,
            entry,
            live: true,
        })?;
        Ok(())
    }

    pub(crate) fn retract(&mut self, k: u64) {
        for place in 0..self.observations.len() {
            if place as u64 + 1 == k {
                self.observations[place].live = false;
            }
        }
    }

    pub(crate) fn set_home(&mut self, t: u64, home: Option<Designation>) {
        for place in 0..self.tracklets.len() {
            if place as u64 + 1 == t {
                self.tracklets[place].home = home;
            }
        }
    }

    pub(crate) fn has_live(&self, s: &Sighting) -> bool {
        self.observations.iter().any(|o| {
            o.live
                && o.sighting.station == s.station
                && o.sighting.time == s.time
                && o.sighting.ra == s.ra
                && o.sighting.dec == s.dec
        })
    }

    /// The first observation of the tracklet with a number over `after`.
    pub(crate) fn first_after(&self, track: u64, after: u64) -> Option<u64> {
        for place in 0..self.observations.len() {
            let number = place as u64 + 1;
            if self.observations[place].track == track && number > after {
                return Some(number);
            }
        }
        None
    }

    pub(crate) fn next_of(&self, k: u64) -> Option<u64> {
        for place in 0..self.observations.len() {
            if place as u64 + 1 == k {
                return self.first_after(self.observations[place].track, k);
            }
        }
        None
    }

    fn home(&self, t: u64) -> Option<Designation> {
        for place in 0..self.tracklets.len() {
            if place as u64 + 1 == t {
                return self.tracklets[place].home;
            }
        }
        None
    }

    /// The first tracklet with this home and a number over `after`.
    pub(crate) fn next_at(&self, home: Designation, after: u64) -> Option<u64> {
        for place in 0..self.tracklets.len() {
            let number = place as u64 + 1;
            if number > after && self.tracklets[place].home == Some(home) {
                return Some(number);
            }
        }
        None
    }

    /// How many observations are isolated, homed and retracted.
    pub(crate) fn counts(&self) -> [u64; 3] {
        let live = self.observations.iter().filter(|o| o.live).count();
        let homed = self
            .observations
            .iter()
            .filter(|o| o.live && self.home(o.track).is_some())
            .count();
        [
            live.saturating_sub(homed) as u64,
            homed as u64,
            self.observations.len().saturating_sub(live) as u64,
        ]
    }
}
