//! The entries of a register, and an index of the numbers that were used.

ghost use Rattle.std.specs.Prelude.{◌≡◌, ◌<◌, ◌≤◌, ◌^◌, ◌∷◌, [], reverse, IfOk, OnOk, int_lt};
ghost use Rattle.std.specs.Prelude.{if◌then◌else◌};
ghost use Rattle.ordered_list.specs.Orders.{found};
ghost use Rattle.ordered_list.specs.Contents.{UsesOne};
ghost use Rattle.act_model.specs.History.{next_moment, next_receipt};
ghost use Rattle.act_model.specs.Refusals.{entry_size, bytes_used};
ghost use Rattle.comet_core.specs.Book.{number_key, place_in, place_of};

use act_model::Entry;
use obs_time::Instant;
use ordered_list::{NoMemory, OrderedList};
use std::alloc::Global;
use std::marker::Model;

/// A number that was used, by which it is ordered, and the place of the entry that has it.
#[derive(Clone, Copy)]
#[derive_where(Debug, PartialEq, Eq, PartialOrd, Ord)]
pub struct UsedNumber {
    /// The number.
    pub number: u64,
    /// The place, counted from 0 at the oldest entry.
    #[derive_where(skip(EqHashOrd))]
    pub place: usize,
}

/// The entries of a register, all of them the founding officer's.
///
/// Contracts see the list, the newest first, and for how many more entries there is room. `new` and `reserve` take
/// memory, and no other call does.
#[derive(Debug, Drop)]
pub struct Book {
    entries: Vec<Entry>,
    numbers: OrderedList<UsedNumber>,
    // how many bytes of a journal the entries take, or the greatest number of the type
    used: u64,
}

impl Model for Book {
    ghost use Rattle.std.specs.Prelude.{◌-◌, min, reverse, vec_len, vec_capacity};
    ghost use Rattle.comet_core.specs.Book.{BookValue, IsKept};

    ghost Value = { BookValue };

    ghost view = { λ b. record {
      items = reverse b.entries.items;
      room = min (vec_capacity b.entries - vec_len b.entries) b.numbers.room;
    } };

    ghost invariant = { λ b.
        IsKept ⟦<UsedNumber as Ord>⟧.cmp b.numbers.items (reverse b.entries.items) b.used };
}

/// How many bytes of a journal an entry with this body takes.
pub fn entry_size(body: &[u8]) -> u64
    ensures { result ≡ entry_size body.now }
{
    body.len() as u64 + 58
}

/// The place that the index has for a number.
fn look_up(numbers: &OrderedList<UsedNumber>, number: u64) -> Option<usize>
    ensures { result ≡ place_in (found ⟦<UsedNumber as Ord>⟧.cmp (number_key number) numbers.now.items) }
{
    numbers
        .find(&UsedNumber { number, place: 0 })
        .map(|item| item.place)
}

/// The later one of a reading of the clock and the last entry's moment.
fn later_of(reading: Instant, last: Instant) -> Instant
    ensures { result ≡ (if int_lt reading last then last else reading) }
{
    if reading.ns() < last.ns() {
        last
    } else {
        reading
    }
}

/// The moment of the entry that comes next, where these are the entries, the oldest first.
fn next_moment(entries: &[Entry], reading: Instant) -> Instant
    ensures { result ≡ next_moment (reverse entries.now) reading }
{
    match entries.last() {
        None => reading,
        Some(last) => later_of(reading, last.moment),
    }
}

impl Book {
    /// No entries.
    ///
    /// # Errors
    ///
    /// Memory was refused.
    pub fn new(alloc: Global) -> Result<Book, NoMemory>
        ensures { IfOk result (λ book. book.items ≡ []) }
    {
        Ok(Book {
            entries: Vec::new(alloc),
            numbers: OrderedList::new(alloc)?,
            used: 2,
        })
    }

    /// The entries, the oldest first.
    pub fn as_slice(&self) -> &[Entry]
        ensures { reverse result.now ≡ self.now.items }
    {
        self.entries.as_slice()
    }

    /// The place, counted from 0 at the oldest entry, of the newest entry with this number. None for a number that was
    /// not used. It is found by halving.
    pub fn find(&self, number: u64) -> Option<usize>
        ensures { result ≡ place_of self.now.items number }
    {
        look_up(&self.numbers, number)
    }

    /// How many bytes of a journal the entries take, where that is a number of the type.
    pub fn used(&self) -> u64
        ensures { bytes_used self.now.items < 2 ^ 64 → result ≡ bytes_used self.now.items }
    {
        self.used
    }

    /// The receipt of the entry that comes next.
    pub fn next_receipt(&self) -> u64
        ensures { result ≡ next_receipt self.now.items }
    {
        self.entries.len() as u64 + 1
    }

    /// The moment of the entry that comes next: the reading, but never before the last entry's moment.
    pub fn next_moment(&self, reading: Instant) -> Instant
        ensures { result ≡ next_moment self.now.items reading }
    {
        next_moment(self.entries.as_slice(), reading)
    }

    /// Takes the memory for one more entry. The entries stay, and no room that there was is given up.
    ///
    /// # Errors
    ///
    /// Memory was refused.
    pub fn reserve(&mut self) -> Result<(), NoMemory>
        ensures room { OnOk result (0 < self.new.room) }
        ensures room_stays { self.old.room ≤ self.new.room }
        ensures items { self.new.items ≡ self.old.items }
    {
        self.entries.reserve(1)?;
        self.numbers.reserve(1)
    }

    /// Adds an entry of the founding officer. It takes no memory: `reserve` has left room.
    pub fn push(&mut self, entry: Entry)
        requires founder { entry.caller ≡ 0 }
        requires room { 0 < self.old.room }
        ensures items { self.new.items ≡ entry ∷ self.old.items }
        ensures room { UsesOne self.old.room self.new.room }
    {
        self.used = self.used.saturating_add(entry_size(entry.body.as_slice()));
        self.numbers.insert(UsedNumber {
            number: entry.number,
            place: self.entries.len(),
        });
        self.entries.push_reserved(entry);
    }
}
