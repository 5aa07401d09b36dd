//! The earlier lines of a batch that a line is judged beside.

ghost use Rattle.std.specs.Prelude.{◌≡◌, ◌∷◌, [], List, reverse, IfOk, IfSome, OnOk};
ghost use Rattle.obs_record.specs.declared.sighting.Sighting.{Sighting as Sighting};
ghost use Rattle.batch_rules.specs.PlaceTests.{has_time, rule_beside};
ghost use Rattle.batch_rules.specs.Earlier.{Finds, HasTimes, pointed_sightings};

use crate::index::Index;
use crate::times::Times;
use item_list::NoMemory;
use obs_record::{RuleCode, Sighting};
use obs_time::Instant;
use std::alloc::Global;
use std::marker::Model;

/// Observations of earlier lines, the newest first, and a time that none of them is after.
///
/// Few lines of a batch have the time of another one, and without that they break no rule beside it. So the times are
/// kept from when the first line comes that isn't later than all before it, and places and moments from when one comes
/// whose time is known.
#[derive(Drop)]
pub(crate) struct Earlier<'a> {
    passed: Vec<&'a Sighting>,
    latest: i64,
    times: Option<Times>,
    index: Option<Index>,
}

impl<'a> Model for Earlier<'a> {
    ghost use Rattle.std.specs.Prelude.{List, reverse, IfSome};
    ghost use Rattle.obs_record.specs.declared.sighting.Sighting.{Sighting};
    ghost use Rattle.batch_rules.specs.PlaceTests.{AreUpTo};
    ghost use Rattle.batch_rules.specs.Earlier.{Finds, HasTimes, pointed_sightings};

    ghost Value = { List Sighting };

    ghost view = { λ e. reverse (pointed_sightings e.passed.items) };

    ghost invariant = { λ e.
        AreUpTo e.latest (reverse (pointed_sightings e.passed.items))
        × IfSome e.times (λ times. HasTimes times (reverse (pointed_sightings e.passed.items)))
        × IfSome e.index (λ index. Finds index (reverse (pointed_sightings e.passed.items))) };
}

// The times of observations, with room for as many as their vector has.
fn times_of(alloc: Global, passed: &Vec<&Sighting>) -> Result<Times, NoMemory>
    ensures { IfOk result (λ times. HasTimes times (reverse (pointed_sightings passed.now.items))) }
{
    let mut times = Times::with_capacity(alloc, passed.capacity())?;
    for s in passed {
        times.insert(*s)?;
    }
    Ok(times)
}

// The index of observations, with room for as many as their vector has.
fn index_of(alloc: Global, passed: &Vec<&Sighting>) -> Result<Index, NoMemory>
    ensures { IfOk result (λ index. Finds index (reverse (pointed_sightings passed.now.items))) }
{
    let mut index = Index::with_capacity(alloc, passed.capacity())?;
    for s in passed {
        index.insert(*s)?;
    }
    Ok(index)
}

// One observation more among the times, if there are any. Where memory is short there are none from then on.
fn insert_time(times: &mut Option<Times>, s: &Sighting) -> Result<(), NoMemory>
    ensures { (earlier : List Sighting) → IfSome times.old (λ times. HasTimes times earlier) →
        IfSome times.new (λ times. HasTimes times (s.now ∷ earlier)) }
{
    let Some(found) = times else {
        return Ok(());
    };
    let done = found.insert(s);
    if done.is_err() {
        *times = None;
    }
    done
}

// One observation more in an index, if there is one. Where memory is short there is none from then on, since what it
// finds would be neither the old observations nor the new ones.
fn insert(index: &mut Option<Index>, s: &Sighting) -> Result<(), NoMemory>
    ensures { (earlier : List Sighting) → IfSome index.old (λ index. Finds index earlier) →
        IfSome index.new (λ index. Finds index (s.now ∷ earlier)) }
{
    let Some(found) = index else {
        return Ok(());
    };
    let done = found.insert(s);
    if done.is_err() {
        *index = None;
    }
    done
}

// One observation more among the times and in an index, each if it is there.
fn note(times: &mut Option<Times>, index: &mut Option<Index>, s: &Sighting) -> Result<(), NoMemory>
    ensures times { (earlier : List Sighting) → IfSome times.old (λ times. HasTimes times earlier) →
        IfSome times.new (λ times. HasTimes times (s.now ∷ earlier)) }
    ensures index { (earlier : List Sighting) → IfSome index.old (λ index. Finds index earlier) →
        IfSome index.new (λ index. Finds index (s.now ∷ earlier)) }
{
    let timed = insert_time(times, s);
    insert(index, s)?;
    timed
}

impl<'a> Earlier<'a> {
    /// None yet, with room for this many.
    pub(crate) fn with_capacity(alloc: Global, capacity: usize) -> Result<Earlier<'a>, NoMemory>
        ensures { IfOk result (λ earlier. earlier ≡ []) }
    {
        Ok(Earlier {
            passed: Vec::with_capacity(alloc, capacity)?,
            latest: i64::MIN,
            times: None,
            index: None,
        })
    }

    // Whether one of them was observed at this time. Their times are kept from then on.
    fn has_time(&mut self, time: Instant) -> Result<bool, NoMemory>
        ensures has { IfOk result (λ has. has ≡ has_time self.old time) }
        ensures same { self.new ≡ self.old }
    {
        if let Some(times) = &self.times {
            return Ok(times.has(time));
        }
        let times = times_of(*self.passed.allocator(), &self.passed)?;
        let has = times.has(time);
        self.times = Some(times);
        Ok(has)
    }

    // The rule that an observation breaks beside them, which are indexed from then on.
    fn broken_by(&mut self, s: &Sighting) -> Result<Option<RuleCode>, NoMemory>
        ensures rule { IfOk result (λ rule. rule ≡ rule_beside self.old s.now) }
        ensures same { self.new ≡ self.old }
    {
        if let Some(index) = &self.index {
            return Ok(index.broken_by(s));
        }
        let index = index_of(*self.passed.allocator(), &self.passed)?;
        let rule = index.broken_by(s);
        self.index = Some(index);
        Ok(rule)
    }

    /// The rule that an observation breaks beside them. They are indexed where one of them has its time.
    #[tactic(auto, using(crate::proofs::Beside::none_beside, crate::proofs::Beside::none_at))]
    pub(crate) fn beside(&mut self, s: &Sighting) -> Result<Option<RuleCode>, NoMemory>
        ensures rule { IfOk result (λ rule. rule ≡ rule_beside self.old s.now) }
        ensures same { self.new ≡ self.old }
    {
        if self.latest < s.time.ns() {
            return Ok(None);
        }
        if !self.has_time(s.time)? {
            return Ok(None);
        }
        self.broken_by(s)
    }

    /// One more, the newest.
    pub(crate) fn push(&mut self, s: &'a Sighting) -> Result<(), NoMemory>
        ensures { OnOk result (self.new ≡ s.now ∷ self.old) }
    {
        self.passed.push(s)?;
        self.latest = self.latest.max(s.time.ns());
        note(&mut self.times, &mut self.index, s)
    }

    /// The observations, the oldest first.
    pub(crate) fn passed(self) -> Vec<&'a Sighting>
        ensures { pointed_sightings result.items ≡ reverse self.entry }
    {
        let Earlier { passed, .. } = self;
        passed
    }
}
