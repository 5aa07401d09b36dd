//! The list type that stands in the place of a `Vec` where contracts compare values: contracts
//! see it as the list of its items, and not its capacity or its place in memory.
#![tactic(auto)]

ghost use Rattle.std.specs.Prelude.{◌≡◌, ◌+◌, ◌<◌, ◌≤◌, ◌↔◌, List, [], ◌∷◌, ◌++◌, length, take, IsTrue, IsNone, IfOk};
ghost use Rattle.std.specs.Prelude.{OnOk, OnErr, slice_get, option_copied};
ghost use Rattle.std.specs.Slice.Iter.{iter_rest};
ghost use Rattle.std.specs.Vec.Iter.{into_iter_items};

use std::alloc::{AllocError, Global};
use std::marker::Model;
use std::{slice, vec};

/// Out of memory, the answer that a call which takes memory may always give.
pub type NoMemory = AllocError;

/// A list of items in their order.
#[derive(Debug, Drop)]
pub struct ItemList<T> {
    items: Vec<T>,
}

/// A text, as the list of its bytes.
pub type Bytes = ItemList<u8>;

impl<T> Model for ItemList<T> {
    ghost Value = { List T };

    ghost view = { λ l. l.items.items };
}

impl<T> ItemList<T> {
    /// The empty list. It takes no memory, so it can't be refused.
    pub fn new(alloc: Global) -> Self
        ensures { result ≡ [] }
    {
        ItemList {
            items: Vec::new(alloc),
        }
    }

    /// The empty list with room for this many items.
    ///
    /// # Errors
    ///
    /// Memory was refused.
    pub fn with_capacity(alloc: Global, capacity: usize) -> Result<Self, NoMemory>
        ensures { IfOk result (λ list. list ≡ []) }
    {
        Ok(ItemList {
            items: Vec::with_capacity(alloc, capacity)?,
        })
    }

    /// How many items there are.
    pub fn len(&self) -> u64
        ensures { result ≡ length self.now }
    {
        self.items.len() as u64
    }

    /// Whether there is no item.
    pub fn is_empty(&self) -> bool
        ensures { IsTrue result ↔ (self.now ≡ []) }
    {
        self.items.is_empty()
    }

    /// The item at a place, counted from 0. None exactly from the length on.
    pub fn get(&self, place: u64) -> Option<&T>
        ensures value { option_copied result ≡ slice_get self.now place }
        ensures past { IsNone result ↔ (length self.now ≤ place) }
    {
        self.items.get(place as usize)
    }

    /// All items, as a slice.
    pub fn as_slice(&self) -> &[T]
        ensures { result.now ≡ self.now }
    {
        self.items.as_slice()
    }

    /// The items one after the other.
    pub fn iter(&self) -> slice::Iter<'_, T>
        ensures { iter_rest result ≡ self.now }
    {
        self.items.iter()
    }
}

impl<T: Drop> ItemList<T> {
    /// The items one after the other, each handed over: what one holds can be let go before the next is taken.
    pub fn into_iter(self) -> vec::IntoIter<T>
        ensures { into_iter_items result ≡ self }
    {
        self.items.into_iter()
    }

    /// Keeps this many items from the front, all of them where there are no more.
    pub fn truncate(&mut self, count: u64)
        ensures { self.new ≡ take count self.old }
    {
        self.items.truncate(count as usize);
    }

    /// Puts an item at the end. Where memory is refused the list is as it was, and the item is let go.
    ///
    /// # Errors
    ///
    /// Memory was refused.
    pub fn push(&mut self, item: T) -> Result<(), NoMemory>
        ensures ok { OnOk result (self.new ≡ self.old ++ item ∷ []) }
        ensures err { OnErr result (self.new ≡ self.old) }
    {
        self.items.push(item)?;
        Ok(())
    }
}

impl<T: Copy> ItemList<T> {
    /// Puts copies of the items at the end, in their order. Where memory is refused the list is as it was.
    ///
    /// # Errors
    ///
    /// Memory was refused.
    pub fn extend_from_slice(&mut self, items: &[T]) -> Result<(), NoMemory>
        ensures ok { OnOk result (self.new ≡ self.old ++ items.now) }
        ensures err { OnErr result (self.new ≡ self.old) }
    {
        self.items.extend_from_slice(items)
    }

    /// A list of copies of the items.
    ///
    /// # Errors
    ///
    /// Memory was refused.
    pub fn from_slice(alloc: Global, items: &[T]) -> Result<Self, NoMemory>
        ensures { IfOk result (λ list. list ≡ items.now) }
    {
        Ok(ItemList {
            items: Vec::from_slice(alloc, items)?,
        })
    }
}
