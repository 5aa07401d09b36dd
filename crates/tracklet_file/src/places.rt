//! The places of observations: which of them live observations have.

ghost use Rattle.std.specs.Prelude.{◌≡◌, ◌+◌, ◌<◌, ◌≤◌, ◌++◌, ◌∷◌, [], length, map, take, true, IfOk, OnOk, int_lt};
ghost use Rattle.std.specs.Prelude.{slice_index_or, slice_set, false};
ghost use Rattle.std.specs.List.{list_any};
ghost use Rattle.place_keys.specs.declared.place.PlaceKey.{PlaceKey};
ghost use Rattle.tracklet_file.specs.declared.observation.Observation.{Observation};
ghost use Rattle.tracklet_file.specs.Observations.{has_live};
ghost use Rattle.tracklet_file.specs.Places.{counts_at, mark_of, mark_in, asked, has_mark};
ghost use Rattle.tracklet_file.specs.Places.{AscendFrom, IsIndexed};

use crate::observation::Observation;
use angle_fixed::{Dec, Ra};
use item_list::NoMemory;
use mark_index::MarkIndex;
use obs_record::{Line, Short};
use obs_time::Instant;
use place_keys::{PlaceKey, key_at, mixed, place_key};
use std::alloc::Global;
use std::marker::Model;

/// This many observations may wait that don't ascend in time. They are put into the index one right after another, and
/// so many lines are asked for one right after another: what each needs of the memory then comes while others are at
/// work.
pub(crate) const BLOCK: usize = 256;

/// Which places the live observations of a file have.
///
/// Most observations come in the order of their times, and to look for the place of each costs more than all else that
/// is done with it. So the newest ones wait outside the index: as long as each is later than all before it, they are
/// found by their times; else they are few, and looked at one by one.
#[derive(Debug, Drop)]
pub(crate) struct Places {
    // An entry for each of the first observations, which has a mark where the observation is live. The others wait.
    index: MarkIndex,
    // For this many more observations there is room in the index, or for more, beside those that wait.
    room: u64,
    // No observation is later than this, in nanoseconds since 1970.
    latest: i64,
    // Where it is true, each of those that wait is later than all before it.
    ascends: bool,
}

impl Model for Places {
    ghost use Rattle.tracklet_file.specs.Places.{KeptPlaces};

    ghost Value = { KeptPlaces };

    ghost view = { λ p. record {
      marks = p.index.marks;
      room = p.room;
      spare = p.index.room;
      latest = p.latest;
      ascends = p.ascends;
    } };
}

impl Places {
    /// Those of no observations.
    ///
    /// # Errors
    ///
    /// Memory was refused.
    pub(crate) fn new(alloc: Global) -> Result<Places, NoMemory>
        ensures { IfOk result (λ places. IsIndexed [] places) }
    {
        Ok(Places {
            index: MarkIndex::new(alloc)?,
            room: 0,
            latest: i64::MIN,
            ascends: true,
        })
    }

    /// Takes the memory for this many more observations than are filed, and for those that aren't in the index yet.
    ///
    /// # Errors
    ///
    /// Memory was refused, or they are 2^32 observations or more.
    pub(crate) fn reserve(&mut self, filed: &[Observation], more: u32) -> Result<(), NoMemory>
        requires { IsIndexed filed.now self.old }
        ensures filed { IsIndexed filed.now self.new }
        ensures room { OnOk result (more ≤ self.new.room) }
        ensures room_stays { self.old.room ≤ self.new.room }
    {
        let waiting = filed.len() - self.index.len();
        self.index.reserve(waiting.saturating_add(more as usize))?;
        self.room = self.room.max(more as u64);
        Ok(())
    }

    /// Files one more observation after those that are filed. It takes no memory: there is room.
    pub(crate) fn add(&mut self, filed: &[Observation], newest: &Observation)
        requires filed { IsIndexed filed.now self.old }
        requires room { 0 < self.old.room }
        ensures filed { IsIndexed (filed.now ++ newest.now ∷ []) self.new }
        ensures room { self.new.room + 1 ≡ self.old.room }
    {
        self.room -= 1;
        let time = newest.sighting.time.ns();
        self.ascends = self.ascends && self.latest < time;
        self.latest = self.latest.max(time);
        let waiting = &filed[self.index.len()..];
        // Before the next observations are asked about none waits that would have to be looked at.
        if self.ascends || self.room > 0 && waiting.len() < BLOCK {
            return;
        }
        mark_all(&mut self.index, waiting);
        enter(&mut self.index, newest);
        self.ascends = true;
    }

    /// Takes the observation at a place of the file, which is to be retracted, from those that are looked for: where it
    /// is in the index, no search comes to it any more.
    pub(crate) fn retract(&mut self, filed: &[Observation], place: usize)
        requires filed { IsIndexed filed.now self.old }
        requires there { place < length filed.now }
        ensures filed { (o : Observation) → ((d : Observation) → slice_index_or filed.now place d ≡ o)
            → IsIndexed (slice_set filed.now place (record o { live = false })) self.new }
        ensures room { self.new.room ≡ self.old.room }
    {
        if place < self.index.len() {
            self.index.unmark(place);
        }
    }

    /// Whether all that is filed was observed before a time.
    #[inline]
    pub(crate) fn end_before(&self, time: Instant) -> bool
        ensures { result ≡ int_lt self.now.latest time }
    {
        self.latest < time.ns()
    }

    /// Whether all that is filed is in the index.
    #[inline]
    pub(crate) fn none_waits(&self, filed: &[Observation]) -> bool
        ensures { result ≡ true → length self.now.marks ≡ length filed.now }
    {
        self.index.len() == filed.len()
    }

    /// The mark that is asked for where the place of a line is looked for: 0 where no observation can have the place,
    /// since the line says none, or one that is later than all that is filed.
    #[inline]
    pub(crate) fn mark_asked(&self, line: &Line) -> u32
        ensures { result ≡ asked self.now.latest line.now }
    {
        match &line.read {
            Ok(s) => {
                if self.end_before(s.time) {
                    0
                } else {
                    mark_of(&place_key(s))
                }
            }
            Err(_) => 0,
        }
    }

    /// Whether the index has a mark that is asked for; 0 is none.
    #[inline]
    pub(crate) fn has_mark(&self, mark: u32) -> bool
        ensures { result ≡ has_mark self.now.marks mark }
    {
        mark != 0 && self.index.has(mark)
    }

    /// Whether a live observation has this station, time and position.
    #[inline]
    pub(crate) fn has_live(
        &self,
        filed: &[Observation],
        station: Short,
        time: Instant,
        ra: Ra,
        dec: Dec,
    ) -> bool
        requires { IsIndexed filed.now self.now }
        ensures { result ≡ has_live filed.now station time ra dec }
    {
        // A line that comes in the order of the times is told from all that is filed by its time alone.
        if self.end_before(time) {
            return false;
        }
        self.has(filed, &key_at(&station, time, ra, dec))
    }

    /// Whether a live observation has the place.
    #[inline]
    pub(crate) fn has(&self, filed: &[Observation], key: &PlaceKey) -> bool
        requires { IsIndexed filed.now self.now }
        ensures { result ≡ list_any (counts_at key.now) filed.now }
    {
        let waiting = &filed[self.index.len()..];
        if self.is_waiting(waiting, key) {
            return true;
        }
        self.index
            .find(mark_of(key), |place| is_live_in(filed, place, key))
            .is_some()
    }

    /// Whether a live observation of those that wait has the place.
    #[inline]
    fn is_waiting(&self, waiting: &[Observation], key: &PlaceKey) -> bool
        requires { self.now.ascends ≡ true → AscendFrom 0 waiting.now }
        ensures { result ≡ list_any (counts_at key.now) waiting.now }
    {
        if self.ascends {
            has_by_time(waiting, key)
        } else {
            waiting.iter().any(|o| is_live_at(o, key))
        }
    }
}

/// A number from 1 that a place makes, by which it is looked for.
#[inline]
fn mark_of(key: &PlaceKey) -> u32
    ensures { result ≡ mark_of key.now }
{
    let position = mixed(key.ra, key.dec.cast_unsigned());
    ((mixed(0, mixed(key.time.cast_unsigned(), position)) >> 32) as u32).max(1)
}

/// One observation more comes into the index: with its mark where it is live, else without one. It takes no memory:
/// there is room.
#[inline]
fn enter(index: &mut MarkIndex, o: &Observation)
    requires { 0 < index.old.room }
    ensures marks { index.new.marks ≡ index.old.marks ++ mark_in o.now ∷ [] }
    ensures room { index.new.room + 1 ≡ index.old.room }
{
    if o.live {
        index.push(mark_of(&place_key(&o.sighting)));
    } else {
        index.push_unmarked();
    }
}

/// What the index has for an observation: the mark of its place where it is live, else 0 for none.
#[inline]
fn mark_in(o: &Observation) -> u32
    ensures { result ≡ mark_in o.now }
{
    if o.live {
        mark_of(&place_key(&o.sighting))
    } else {
        0
    }
}

/// What the index has for each of these observations, and zeros after that.
fn marks_in(waiting: &[Observation]) -> [u32; BLOCK]
    requires { length waiting.now ≤ BLOCK }
    ensures length { length result ≡ BLOCK }
    ensures marks { take (length waiting.now) result ≡ map mark_in waiting.now }
{
    let mut marks = [0; BLOCK];
    for place in 0..waiting.len() {
        marks[place] = mark_in(&waiting[place]);
    }
    marks
}

/// Observations more come into the index. It takes no memory: there is room.
fn mark_all(index: &mut MarkIndex, waiting: &[Observation])
    requires { length waiting.now ≤ index.old.room }
    ensures marks { index.new.marks ≡ index.old.marks ++ map mark_in waiting.now }
    ensures room { index.new.room + length waiting.now ≡ index.old.room }
{
    if waiting.len() <= BLOCK {
        let marks = marks_in(waiting);
        index.push_all(&marks[..waiting.len()]);
        return;
    }
    enter_all(index, waiting);
}

/// Observations more come into the index, one after another. It takes no memory: there is room.
fn enter_all(index: &mut MarkIndex, waiting: &[Observation])
    requires { length waiting.now ≤ index.old.room }
    ensures marks { index.new.marks ≡ index.old.marks ++ map mark_in waiting.now }
    ensures room { index.new.room + length waiting.now ≡ index.old.room }
{
    for o in waiting {
        enter(index, o);
    }
}

/// Whether a live observation of these, which ascend in time, has the place.
#[inline]
fn has_by_time(waiting: &[Observation], key: &PlaceKey) -> bool
    requires { AscendFrom 0 waiting.now }
    ensures { result ≡ list_any (counts_at key.now) waiting.now }
{
    match waiting.binary_search_by_key(&key.time, |o| o.sighting.time.ns()) {
        Ok(place) => is_live_at(&waiting[place], key),
        Err(_) => false,
    }
}

/// Whether the observation is live, and has the place.
#[inline]
fn is_live_at(o: &Observation, key: &PlaceKey) -> bool
    ensures { result ≡ counts_at key.now o.now }
{
    o.live && place_key(&o.sighting) == *key
}

/// Whether the observation at a place of the file is live, and has the place that the key says.
#[inline]
fn is_live_in(filed: &[Observation], place: usize, key: &PlaceKey) -> bool
    requires { place < length filed.now }
    ensures { (d : Observation) → result ≡ counts_at key.now (slice_index_or filed.now place d) }
{
    is_live_at(&filed[place], key)
}
