//! Keys of groups, and the place of each.

ghost use Rattle.std.specs.Prelude.{◌≡◌, ◌<◌, ◌++◌, ◌∷◌, [], true, false, length, slice_index_or};
ghost use Rattle.std.specs.Prelude.{IfOk, IfSome, IfNone, OnOk};
ghost use Rattle.std.specs.List.{list_any, position_or_len};
ghost use Rattle.indexmap.specs.IndexSet.{insert_key};
ghost use Rattle.batch_rules.specs.declared.keys.GroupKey.{GroupKey as Key};
ghost use Rattle.batch_rules.specs.KeyTests.{same_key};
ghost use Rattle.batch_rules.specs.Marks.{key_mark};
ghost use Rattle.batch_rules.specs.Numbers.{StandsIn};

use crate::keys::{GroupKey, key_mark};
use item_list::NoMemory;
use mark_index::MarkIndex;
use std::alloc::{AllocError, Global};
use std::marker::Model;

/// Keys of groups, each once, in the order in which they came.
#[derive(Drop)]
pub(crate) struct GroupKeys {
    keys: Vec<GroupKey>,
    // The marks of the keys, in their order.
    index: MarkIndex,
}

impl Model for GroupKeys {
    ghost use Rattle.std.specs.Prelude.{◌≡◌, ◌≤◌, ◌^◌, List, length, map};
    ghost use Rattle.std.specs.List.{IsDistinct};
    ghost use Rattle.batch_rules.specs.declared.keys.GroupKey.{GroupKey};
    ghost use Rattle.batch_rules.specs.KeyTests.{same_key};
    ghost use Rattle.batch_rules.specs.Marks.{key_mark};

    ghost Value = { List GroupKey };

    ghost view = { λ k. k.keys.items };

    ghost invariant = { λ k.
        (k.index.marks ≡ map key_mark k.keys.items)
        × IsDistinct same_key k.keys.items
        × (length k.keys.items ≤ 2 ^ 32) };
}

// Whether the key at a place is this one.
fn is_same(keys: &[GroupKey], place: usize, key: &GroupKey) -> bool
    requires { place < length keys.now }
    ensures { (d : Key) → result ≡ same_key (slice_index_or keys.now place d) key.now }
{
    keys[place] == *key
}

impl GroupKeys {
    /// No keys, with room for this many.
    ///
    /// # Errors
    ///
    /// Memory was refused.
    pub(crate) fn with_capacity(alloc: Global, capacity: usize) -> Result<GroupKeys, NoMemory>
        ensures { IfOk result (λ keys. keys ≡ []) }
    {
        let mut index = MarkIndex::new(alloc)?;
        index.reserve(capacity)?;
        Ok(GroupKeys {
            keys: Vec::with_capacity(alloc, capacity)?,
            index,
        })
    }

    /// How many keys there are.
    pub(crate) fn len(&self) -> usize
        ensures { result ≡ length self.now }
    {
        self.keys.len()
    }

    // Whether the key is at a place.
    fn is_at(&self, place: usize, key: &GroupKey) -> bool
        ensures { result ≡ true → StandsIn key.now place self.now }
    {
        place < self.keys.len() && is_same(self.keys.as_slice(), place, key)
    }

    // The place of a key with this mark, if it is there.
    fn find(&self, mark: u32, key: &GroupKey) -> Option<u32>
        requires { mark ≡ key_mark key.now }
        ensures there { IfSome result (λ place. StandsIn key.now place self.now) }
        ensures none { IfNone result (list_any (same_key key.now) self.now ≡ false) }
    {
        let keys = self.keys.as_slice();
        match self.index.find(mark, |place| is_same(keys, place, key)) {
            Some(place) => Some(place as u32),
            None => None,
        }
    }

    // Adds a key with this mark, which is not there yet, and gives its place.
    fn add(&mut self, mark: u32, key: GroupKey) -> Result<u32, NoMemory>
        requires mark { mark ≡ key_mark key }
        requires none { list_any (same_key key) self.old ≡ false }
        ensures keys { OnOk result (self.new ≡ self.old ++ key ∷ []) }
        ensures place { IfOk result (λ place. place ≡ length self.old) }
    {
        let place = self.keys.len();
        if place > u32::MAX as usize {
            return Err(AllocError);
        }
        self.index.reserve(1)?;
        self.keys.push(key)?;
        self.index.push(mark);
        Ok(place as u32)
    }

    /// The place of a key, which is added where it is new. It is searched for only where it isn't at the place of the
    /// last one, which is kept.
    ///
    /// # Errors
    ///
    /// Memory was refused. More places than a number has count as out of memory: no memory holds so many.
    pub(crate) fn placed(&mut self, last: &mut u32, key: GroupKey) -> Result<u32, NoMemory>
        ensures keys { OnOk result (self.new ≡ insert_key same_key self.old key) }
        ensures place { IfOk result (λ place. place ≡ position_or_len (same_key key) self.old) }
    {
        if self.is_at(*last as usize, &key) {
            return Ok(*last);
        }
        let mark = key_mark(&key);
        let place = match self.find(mark, &key) {
            Some(place) => place,
            None => self.add(mark, key)?,
        };
        *last = place;
        Ok(place)
    }
}
