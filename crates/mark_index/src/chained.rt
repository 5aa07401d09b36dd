//! The index.

ghost use Rattle.std.specs.Prelude.{◌≡◌, ℕ, ◌+◌, ◌<◌, ◌≤◌, ◌∷◌, [], ◌++◌, length, true, false, IfOk, OnOk};
ghost use Rattle.std.specs.Prelude.{IfSome, IfNone, slice_index, slice_set, ◌==◌};
ghost use Rattle.std.specs.List.{list_any};

use crate::table::{Slot, has_tag, slot_of, with_tag};
use item_list::NoMemory;
use std::alloc::{AllocError, Global};
use std::marker::Model;

/// For this many entries memory is taken at least.
const LEAST_ROOM: usize = 16;

/// The marks of a list's entries, and where each is.
#[derive(Debug, Drop)]
pub struct MarkIndex {
    // The mark of each entry; 0 where it has none.
    marks: Vec<u32>,
    // For each entry with a mark the number of the one before it in its slot, counted from 1; 0 where there is none.
    befores: Vec<u32>,
    // The newest entry of each slot, and the tags of the marks that came to it.
    slots: Vec<Slot>,
}

impl Model for MarkIndex {
    ghost use Rattle.std.specs.Prelude.{◌-◌, ◌^◌, min, vec_len, vec_capacity};
    ghost use Rattle.mark_index.specs.Marked.{Marked, AreChained};

    ghost Value = { Marked };

    ghost view = { λ index. record {
      marks = index.marks.items;
      room = min (2 ^ 32 - 1 - vec_len index.marks) (min (vec_capacity index.marks - vec_len index.marks)
          (vec_capacity index.befores - vec_len index.befores));
    } };

    ghost invariant = { λ index. AreChained index.marks.items index.befores.items index.slots.items };
}

impl MarkIndex {
    /// The index of an empty list.
    ///
    /// # Errors
    ///
    /// Memory was refused.
    pub fn new(alloc: Global) -> Result<MarkIndex, NoMemory>
        ensures { IfOk result (λ index. index.marks ≡ []) }
    {
        MarkIndex::with_capacity(alloc, 0)
    }

    /// The index of an empty list, with room for this many entries.
    ///
    /// # Errors
    ///
    /// Memory was refused, or they are 2^32 or more.
    fn with_capacity(alloc: Global, capacity: usize) -> Result<MarkIndex, NoMemory>
        ensures marks { IfOk result (λ index. index.marks ≡ []) }
        ensures room { IfOk result (λ index. capacity ≤ index.room) }
    {
        if capacity > u32::MAX as usize {
            return Err(AllocError);
        }
        Ok(MarkIndex {
            marks: Vec::with_capacity(alloc, capacity)?,
            befores: Vec::with_capacity(alloc, capacity)?,
            slots: vec![in alloc; Slot { head: 0, tags: 0 }; (capacity / 2).next_power_of_two()]?,
        })
    }

    /// How many entries there are.
    #[inline]
    pub fn len(&self) -> usize
        ensures { result ≡ length self.now.marks }
    {
        self.marks.len()
    }

    // For how many more entries there is room.
    #[inline]
    fn room(&self) -> usize
        ensures { result ≡ self.now.room }
    {
        let marks = self.marks.capacity() - self.marks.len();
        let befores = self.befores.capacity() - self.befores.len();
        (u32::MAX as usize - self.marks.len()).min(marks.min(befores))
    }

    /// Takes the memory for this many more entries. Where there is too little, the index grows to four times its size,
    /// if the memory is there, since each mark is put into the new tables.
    ///
    /// # Errors
    ///
    /// Memory was refused, or they are 2^32 entries or more.
    #[inline]
    pub fn reserve(&mut self, more: usize) -> Result<(), NoMemory>
        ensures marks { self.new.marks ≡ self.old.marks }
        ensures room { OnOk result (more ≤ self.new.room) }
        ensures room_stays { self.old.room ≤ self.new.room }
    {
        if more <= self.room() {
            return Ok(());
        }
        self.grow(more)
    }

    // Makes the tables anew, with room for this many more entries: there is too little.
    fn grow(&mut self, more: usize) -> Result<(), NoMemory>
        requires { self.old.room < more }
        ensures marks { self.new.marks ≡ self.old.marks }
        ensures room { OnOk result (more ≤ self.new.room) }
        ensures room_stays { self.old.room ≤ self.new.room }
    {
        let least = self.len().saturating_add(more);
        let capacity = least
            .max(self.marks.capacity().saturating_mul(4))
            .max(LEAST_ROOM);
        let alloc = *self.marks.allocator();
        let mut grown = match MarkIndex::with_capacity(alloc, capacity) {
            Ok(grown) => grown,
            Err(_) => MarkIndex::with_capacity(alloc, least)?,
        };
        grown.push_all(self.marks.as_slice());
        *self = grown;
        Ok(())
    }

    /// The entries more, each with its mark, or with 0 for none, one right after another: what each needs of the memory
    /// comes while others are put in. It takes no memory: there is room.
    pub fn push_all(&mut self, marks: &[u32])
        requires { length marks.now ≤ self.old.room }
        ensures marks { self.new.marks ≡ self.old.marks ++ marks.now }
        ensures room { self.new.room + length marks.now ≡ self.old.room }
    {
        for mark in marks {
            if *mark == 0 {
                self.push_unmarked();
            } else {
                self.push(*mark);
            }
        }
    }

    /// One entry more, with a mark. It takes no memory: there is room.
    #[inline]
    pub fn push(&mut self, mark: u32)
        requires room { 0 < self.old.room }
        requires some { 0 < mark }
        ensures marks { self.new.marks ≡ self.old.marks ++ mark ∷ [] }
        ensures room { self.new.room + 1 ≡ self.old.room }
    {
        let slot = slot_of(mark, self.slots.len());
        let found = self.slots[slot];
        self.befores.push_reserved(found.head);
        self.marks.push_reserved(mark);
        self.slots[slot] = Slot {
            head: self.marks.len() as u32,
            tags: with_tag(found.tags, mark),
        };
    }

    /// One entry more that has no mark, so that no search comes to it. It takes no memory: there is room.
    #[inline]
    pub fn push_unmarked(&mut self)
        requires { 0 < self.old.room }
        ensures marks { self.new.marks ≡ self.old.marks ++ 0 ∷ [] }
        ensures room { self.new.room + 1 ≡ self.old.room }
    {
        self.befores.push_reserved(0);
        self.marks.push_reserved(0);
    }

    /// Takes an entry's mark from it, if it has one. It keeps its place, and no search comes to it any more. The way to
    /// it is along its slot's chain, from the newest entry on.
    pub fn unmark(&mut self, place: usize)
        requires { place < length self.old.marks }
        ensures marks { self.new.marks ≡ slice_set self.old.marks place 0 }
        ensures room { self.new.room ≡ self.old.room }
    {
        let mark = self.marks[place];
        if mark == 0 {
            return;
        }
        let slot = slot_of(mark, self.slots.len());
        // The entry after it in its slot, which is to lead to the one before it; None where it is the newest.
        let mut after = None;
        let mut number = self.slots[slot].head;
        while number as usize > place + 1 {
            let newer = (number - 1) as usize;
            after = Some(newer);
            number = self.befores[newer];
        }
        match after {
            Some(newer) => self.befores[newer] = self.befores[place],
            None => self.slots[slot].head = self.befores[place],
        }
        self.marks[place] = 0;
    }

    /// Whether an entry has this mark.
    #[inline]
    pub fn has(&self, mark: u32) -> bool
        requires { 0 < mark }
        ensures { result ≡ list_any (λ own. own == mark) self.now.marks }
    {
        has_tag(self.slots[slot_of(mark, self.slots.len())].tags, mark) && self.is_in_chain(mark)
    }

    // Whether an entry has this mark, along the chain of the mark's slot. It doesn't stand in line with its callers, so
    // that a loop over many marks, of which few are there, is short.
    #[inline(never)]
    fn is_in_chain(&self, mark: u32) -> bool
        requires { 0 < mark }
        ensures { result ≡ list_any (λ own. own == mark) self.now.marks }
    {
        self.find_in_chain(mark, |_| true).is_some()
    }

    /// The place of an entry with this mark that passes a test; None exactly where none does.
    #[inline]
    pub fn find<F: Fn(usize) -> bool>(&self, mark: u32, is_it: F) -> Option<usize>
        requires some { 0 < mark }
        requires callable { (place : ℕ) → place < length self.now.marks → F.pre is_it place }
        ensures within { IfSome result (λ place. place < length self.now.marks) }
        ensures marked { IfSome result (λ place. slice_index self.now.marks place ≡ mark) }
        ensures found { IfSome result (λ place. F.post is_it place true) }
        ensures none { IfNone result ((place : ℕ) → place < length self.now.marks
            → slice_index self.now.marks place ≡ mark → F.post is_it place false) }
    {
        if has_tag(self.slots[slot_of(mark, self.slots.len())].tags, mark) {
            self.find_in_chain(mark, is_it)
        } else {
            None
        }
    }

    // The place of an entry with this mark that passes a test, along the chain of the mark's slot.
    fn find_in_chain<F: Fn(usize) -> bool>(&self, mark: u32, is_it: F) -> Option<usize>
        requires some { 0 < mark }
        requires callable { (place : ℕ) → place < length self.now.marks → F.pre is_it place }
        ensures within { IfSome result (λ place. place < length self.now.marks) }
        ensures marked { IfSome result (λ place. slice_index self.now.marks place ≡ mark) }
        ensures found { IfSome result (λ place. F.post is_it place true) }
        ensures none { IfNone result ((place : ℕ) → place < length self.now.marks
            → slice_index self.now.marks place ≡ mark → F.post is_it place false) }
    {
        let mut number = self.slots[slot_of(mark, self.slots.len())].head;
        while number > 0 {
            let place = (number - 1) as usize;
            if self.marks[place] == mark && is_it(place) {
                return Some(place);
            }
            number = self.befores[place];
        }
        None
    }
}
