//! Earlier lines of a batch, found by their places and moments.

ghost use Rattle.std.specs.Prelude.{◌≡◌, ◌∷◌, [], List, IfOk, OnOk};
ghost use Rattle.obs_record.specs.declared.sighting.Sighting.{Sighting as Sighting};
ghost use Rattle.batch_rules.specs.PlaceTests.{rule_beside};
ghost use Rattle.batch_rules.specs.Earlier.{Finds};

use crate::places::{MomentKey, moment_key};
use indexmap::IndexSet;
use item_list::NoMemory;
use obs_record::{RuleCode, Sighting};
use place_keys::{PlaceKey, place_key};
use std::alloc::Global;

/// The places of observations, and their groups and times.
#[derive(Drop)]
pub(crate) struct Index {
    places: IndexSet<PlaceKey>,
    moments: IndexSet<MomentKey>,
}

impl Index {
    /// That of no observations, with room for this many, so that it doesn't grow while they come.
    pub(crate) fn with_capacity(alloc: Global, capacity: usize) -> Result<Index, NoMemory>
        ensures { IfOk result (λ index. Finds index []) }
    {
        Ok(Index {
            places: IndexSet::with_capacity(alloc, capacity)?,
            moments: IndexSet::with_capacity(alloc, capacity)?,
        })
    }

    /// The rule that an observation breaks beside those that are found: B4 where one of them has its station, time and
    /// position, B5 where one of them has its station, time and name, and another position.
    #[tactic(auto, using(crate::proofs::Beside::told_B5, crate::proofs::Beside::told_none))]
    pub(crate) fn broken_by(&self, s: &Sighting) -> Option<RuleCode>
        ensures { (earlier : List Sighting) → Finds self.now earlier → result ≡ rule_beside earlier s.now }
    {
        if self.places.contains(&place_key(s)) {
            return Some(RuleCode::B4);
        }
        // None of them has its position, so that one of its name at its time has another one.
        if self.moments.contains(&moment_key(s)) {
            return Some(RuleCode::B5);
        }
        None
    }

    /// One observation more. Without memory the index may have its place and not its moment.
    pub(crate) fn insert(&mut self, s: &Sighting) -> Result<(), NoMemory>
        ensures { OnOk result ((earlier : List Sighting) → Finds self.old earlier → Finds self.new (s.now ∷ earlier)) }
    {
        self.places.insert(place_key(s))?;
        self.moments.insert(moment_key(s))?;
        Ok(())
    }
}
