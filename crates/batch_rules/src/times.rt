//! Earlier lines of a batch, told apart by their times.

ghost use Rattle.std.specs.Prelude.{◌≡◌, ◌<◌, ◌∷◌, [], ℤ, List, length, slice_index_or, IfOk, OnOk};
ghost use Rattle.std.specs.Ordering.{int_eq};
ghost use Rattle.obs_record.specs.declared.sighting.Sighting.{Sighting as Sighting};
ghost use Rattle.batch_rules.specs.Marks.{time_mark};
ghost use Rattle.batch_rules.specs.PlaceTests.{has_time};
ghost use Rattle.batch_rules.specs.Earlier.{HasTimes};

use item_list::NoMemory;
use mark_index::MarkIndex;
use obs_record::Sighting;
use obs_time::Instant;
use place_keys::mixed;
use std::alloc::Global;
use std::marker::Model;

/// The times of observations, in nanoseconds since 1970.
#[derive(Drop)]
pub(crate) struct Times {
    times: Vec<i64>,
    // The marks of the times, in their order.
    index: MarkIndex,
}

impl Model for Times {
    ghost use Rattle.std.specs.Prelude.{◌≡◌, ℤ, List, map};
    ghost use Rattle.batch_rules.specs.Marks.{time_mark};

    ghost Value = { List ℤ };

    ghost view = { λ t. t.times.items };

    ghost invariant = { λ t. t.index.marks ≡ map time_mark t.times.items };
}

// A number from 1 that a time makes, by which it is looked for.
fn mark_of(time: Instant) -> u32
    ensures { result ≡ time_mark time }
{
    ((mixed(0, time.ns().cast_unsigned()) >> 32) as u32).max(1)
}

// Whether the time at a place is this one.
fn is_same(times: &[i64], place: usize, time: Instant) -> bool
    requires { place < length times.now }
    ensures { (d : ℤ) → result ≡ int_eq (slice_index_or times.now place d) time }
{
    times[place] == time.ns()
}

impl Times {
    /// Those of no observations, with room for this many, so that they don't grow while they come.
    pub(crate) fn with_capacity(alloc: Global, capacity: usize) -> Result<Times, NoMemory>
        ensures { IfOk result (λ times. HasTimes times []) }
    {
        let mut index = MarkIndex::new(alloc)?;
        index.reserve(capacity)?;
        Ok(Times {
            times: Vec::with_capacity(alloc, capacity)?,
            index,
        })
    }

    /// Whether one of them was observed at this time.
    pub(crate) fn has(&self, time: Instant) -> bool
        ensures { (earlier : List Sighting) → HasTimes self.now earlier → result ≡ has_time earlier time }
    {
        let times = self.times.as_slice();
        self.index
            .find(mark_of(time), |place| is_same(times, place, time))
            .is_some()
    }

    /// One observation more.
    ///
    /// # Errors
    ///
    /// Memory was refused.
    pub(crate) fn insert(&mut self, s: &Sighting) -> Result<(), NoMemory>
        ensures { OnOk result ((earlier : List Sighting) → HasTimes self.old earlier →
            HasTimes self.new (s.now ∷ earlier)) }
    {
        self.index.reserve(1)?;
        self.times.push(s.time.ns())?;
        self.index.push(mark_of(s.time));
        Ok(())
    }
}
