//! What was filed, and an index of the numbers that its callers have used.

ghost use Rattle.std.specs.Prelude.{◌≡◌, ◌<◌, ◌≤◌, ◌∷◌, [], ◌++◌, length, IfOk, OnOk, IfSome, IfNone, Some, None};
ghost use Rattle.std.specs.Prelude.{option_map, option_copied, reverse};
ghost use Rattle.ordered_list.specs.Orders.{found};
ghost use Rattle.ordered_list.specs.Contents.{UsesOne};
ghost use Rattle.act_model.specs.History.{Kept, numbered_entry};
ghost use Rattle.desk_core.specs.Filed.{history_of, done_reply, AreAnswered, IsFiledAt};
ghost use Rattle.desk_core.specs.Book.{number_key, place_in, place_of};

use crate::filed::{Filed, reply_at};
use act_model::Reply;
use ordered_list::{NoMemory, OrderedList};
use std::alloc::Global;
use std::marker::Model;

/// A number that a caller has used, ordered by the caller and the number, and the place of the entry that has them.
#[derive(Clone, Copy)]
#[derive_where(Debug, PartialEq, Eq, PartialOrd, Ord)]
pub struct UsedNumber {
    /// The caller.
    pub caller: u32,
    /// The number.
    pub number: u64,
    /// The place, counted from 0 at the oldest entry.
    #[derive_where(skip(EqHashOrd))]
    pub place: usize,
}

/// What was filed, the oldest entry first.
///
/// Contracts see the list, and for how many more entries there is room. `new` and `reserve` take memory, and no other
/// call does.
#[derive(Debug, Drop)]
pub struct Book {
    filed: Vec<Filed>,
    numbers: OrderedList<UsedNumber>,
}

impl Model for Book {
    ghost use Rattle.std.specs.Prelude.{◌-◌, min, vec_len, vec_capacity};
    ghost use Rattle.desk_core.specs.Book.{BookValue, IsIndexed};

    ghost Value = { BookValue };

    ghost view = { λ b. record {
      items = b.filed.items;
      room = min (vec_capacity b.filed - vec_len b.filed) b.numbers.room;
    } };

    ghost invariant = { λ b. IsIndexed ⟦<UsedNumber as Ord>⟧.cmp b.numbers.items b.filed.items };
}

impl Book {
    /// Nothing was filed.
    ///
    /// # Errors
    ///
    /// Memory was refused.
    pub fn new(alloc: Global) -> Result<Book, NoMemory>
        ensures { IfOk result (λ book. book.items ≡ []) }
    {
        Ok(Book {
            filed: Vec::new(alloc),
            numbers: OrderedList::new(alloc)?,
        })
    }

    /// What was filed, the oldest entry first.
    pub fn as_slice(&self) -> &[Filed]
        ensures { result.now ≡ self.now.items }
    {
        self.filed.as_slice()
    }

    /// The place of the newest entry that the caller's number stands for, or None for a number that the caller has not
    /// used. It is found by halving.
    pub fn find(&self, caller: u32, number: u64) -> Option<usize>
        ensures within { IfSome result (λ place. place < length self.now.items) }
        ensures found { IfSome result (λ place. (k : Kept)
            × (numbered_entry (history_of self.now.items) caller number ≡ Some k)
            × IsFiledAt self.now.items place k) }
        ensures none { IfNone result (numbered_entry (history_of self.now.items) caller number ≡ None) }
        ensures place { result ≡ place_of self.now.items caller number }
    {
        look_up(&self.numbers, caller, number)
    }

    /// The reply that is kept for the caller's number. None for a number that the caller has not used.
    pub fn kept(&self, caller: u32, number: u64) -> Option<&Reply>
        requires { AreAnswered (reverse self.now.items) }
        ensures { option_copied result
            ≡ option_map done_reply (numbered_entry (history_of self.now.items) caller number) }
    {
        match self.find(caller, number) {
            Some(place) => Some(reply_at(self.as_slice(), place)),
            None => None,
        }
    }

    /// Takes the memory for one more entry. What was filed stays, and no room that there was is given up.
    ///
    /// # Errors
    ///
    /// Memory was refused.
    pub fn reserve(&mut self) -> Result<(), NoMemory>
        ensures room { OnOk result (0 < self.new.room) }
        ensures room_stays { self.old.room ≤ self.new.room }
        ensures items { self.new.items ≡ self.old.items }
    {
        self.filed.reserve(1)?;
        self.numbers.reserve(1)
    }

    /// Files one more entry. It takes no memory: `reserve` has left room.
    pub fn push(&mut self, filed: Filed)
        requires { 0 < self.old.room }
        ensures items { self.new.items ≡ self.old.items ++ filed ∷ [] }
        ensures room { UsesOne self.old.room self.new.room }
    {
        let used = UsedNumber {
            caller: filed.entry.caller,
            number: filed.entry.number,
            place: self.filed.len(),
        };
        self.numbers.insert(used);
        self.filed.push_reserved(filed);
    }
}

/// The place that the index has for the caller's number.
fn look_up(numbers: &OrderedList<UsedNumber>, caller: u32, number: u64) -> Option<usize>
    ensures { result ≡ place_in (found ⟦<UsedNumber as Ord>⟧.cmp (number_key caller number) numbers.now.items) }
{
    let key = UsedNumber {
        caller,
        number,
        place: 0,
    };
    numbers.find(&key).map(|item| item.place)
}
