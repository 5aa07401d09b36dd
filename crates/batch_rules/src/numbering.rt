//! The numbers of groups that have an accepted line, in the order of their first ones.

ghost use Rattle.std.specs.Prelude.{◌≡◌, ◌<◌, [], List, length, IfOk, OnOk};
ghost use Rattle.std.specs.List.{position_or_len};
ghost use Rattle.indexmap.specs.IndexSet.{insert_key};
ghost use Rattle.obs_record.specs.declared.sighting.Sighting.{Sighting};
ghost use Rattle.batch_rules.specs.declared.keys.GroupKey.{GroupKey as Key};
ghost use Rattle.batch_rules.specs.KeyTests.{same_key};
ghost use Rattle.batch_rules.specs.Groups.{group_key};
ghost use Rattle.batch_rules.specs.Points.{place_of};
ghost use Rattle.batch_rules.specs.Numbered.{IsNumbered};

use item_list::NoMemory;
use std::alloc::{AllocError, Global};
use std::marker::Model;

/// The number of each group that has one, and how many have one.
#[derive(Drop)]
pub(crate) struct Numbering {
    numbers: Vec<Option<u32>>,
    count: u32,
}

impl Model for Numbering {
    ghost use Rattle.batch_rules.specs.Numbered.{KeptNumbers};

    ghost Value = { KeptNumbers };

    ghost view = { λ n. record { numbers = n.numbers.items; count = n.count } };
}

impl Numbering {
    /// That of this many groups, none of which has a number.
    ///
    /// # Errors
    ///
    /// Memory was refused.
    pub(crate) fn of_none(alloc: Global, groups: usize) -> Result<Numbering, NoMemory>
        ensures { IfOk result (λ numbering. (keys : List Key) → length keys ≡ groups → IsNumbered keys [] numbering) }
    {
        Ok(Numbering {
            numbers: vec![in alloc; None; groups]?,
            count: 0,
        })
    }

    /// The number of the group at a place, which is the next one where it has none yet.
    ///
    /// # Errors
    ///
    /// There are more groups than a number has. It counts as out of memory: no memory holds so many.
    pub(crate) fn number(&mut self, group: usize) -> Result<u32, NoMemory>
        requires { group < length self.old.numbers }
        ensures number { IfOk result (λ number. (keys firsts : List Key) (s : Sighting) →
            IsNumbered keys firsts self.old → place_of keys s < length keys → group ≡ place_of keys s →
            number ≡ position_or_len (same_key (group_key s)) firsts) }
        ensures numbered { OnOk result ((keys firsts : List Key) (s : Sighting) →
            IsNumbered keys firsts self.old → place_of keys s < length keys → group ≡ place_of keys s →
            IsNumbered keys (insert_key same_key firsts (group_key s)) self.new) }
        ensures many { length self.new.numbers ≡ length self.old.numbers }
    {
        if let Some(number) = self.numbers[group] {
            return Ok(number);
        }
        let number = self.count;
        let Some(count) = number.checked_add(1) else {
            return Err(AllocError);
        };
        self.numbers[group] = Some(number);
        self.count = count;
        Ok(number)
    }

    /// How many groups have a number.
    pub(crate) fn count(&self) -> u32
        ensures { result ≡ self.now.count }
    {
        self.count
    }
}
