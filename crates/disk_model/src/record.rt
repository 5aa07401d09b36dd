//! What a disk in memory keeps of its writes, cuts and syncs.

ghost use Rattle.std.specs.Prelude.{◌≡◌, ◌+◌, ◌<◌, ◌≤◌, [], ◌∷◌, List, ℕ, length, vec_capacity, IfOk};
ghost use Rattle.disk_model.specs.Entries.{deed_of, IsWithin};
ghost use Rattle.disk_model.specs.Memory.{Wrote, Cut, Synced, Deed, record_size, with_deed, file_after, IsImage};
ghost use Rattle.disk_model.specs.Memory.{last_synced};

use crate::NoMemory;
use crate::file::{tear, tear_cut, write_over};
use std::alloc::Global;
use std::marker::Model;

// A write, a cut or a sync, and whether it was done. A write's bytes stand in the record's pool.
#[derive(Clone, Copy, Debug, PartialEq, Eq)]
pub enum Entry {
    Wrote {
        at: u64,
        start: usize,
        count: usize,
        done: bool,
    },
    Cut {
        len: u64,
        done: bool,
    },
    Synced {
        done: bool,
    },
}

// What each deed counts in a record, in bytes.
const DEED_BYTES: usize = 32;

// The writes, cuts and syncs of a disk in memory, in memory that it has from the start.
#[derive(Debug, Drop)]
pub struct Record {
    entries: Vec<Entry>,
    pool: Vec<u8>,
    capacity: usize,
}

impl Model for Record {
    ghost use Rattle.std.specs.Prelude.{◌≤◌, ◌/◌, vec_capacity};
    ghost use Rattle.disk_model.specs.Memory.{RecordState};
    ghost use Rattle.disk_model.specs.Entries.{deeds_of, IsKept};

    ghost Value = { RecordState };

    ghost view = { λ r. record { deeds = deeds_of r.pool.items r.entries.items; capacity = r.capacity } };

    ghost invariant = { λ r.
        IsKept r.pool.items r.entries.items r.capacity
        × (r.capacity ≤ vec_capacity r.pool)
        × (r.capacity / 32 ≤ vec_capacity r.entries) };
}

impl Record {
    /// # Errors
    ///
    /// Memory was refused.
    pub fn new(alloc: Global, capacity: usize) -> Result<Record, NoMemory>
        ensures { IfOk result (λ r. r ≡ record { deeds = []; capacity = capacity }) }
    {
        Ok(Record {
            entries: Vec::with_capacity(alloc, capacity / DEED_BYTES)?,
            pool: Vec::with_capacity(alloc, capacity)?,
            capacity,
        })
    }

    pub fn capacity(&self) -> usize
        ensures { result ≡ self.now.capacity }
    {
        self.capacity
    }

    // How much the record holds, in bytes.
    pub fn size(&self) -> usize
        ensures { result ≡ record_size self.now.deeds }
    {
        DEED_BYTES * self.entries.len() + self.pool.len()
    }

    pub fn add_write(&mut self, at: u64, bytes: &[u8], done: bool)
        requires room { 32 + length bytes.now + record_size self.old.deeds ≤ self.old.capacity }
        requires within { 0 < length bytes.now → at + length bytes.now ≤ self.old.capacity }
        ensures { self.new ≡ with_deed self.old (Wrote at bytes.now done) }
    {
        let entry = Entry::Wrote {
            at,
            start: self.pool.len(),
            count: bytes.len(),
            done,
        };
        self.entries.push_reserved(entry);
        self.pool.extend_from_slice(bytes).unwrap();
    }

    pub fn add_cut(&mut self, len: u64, done: bool)
        requires { 32 + record_size self.old.deeds ≤ self.old.capacity }
        ensures { self.new ≡ with_deed self.old (Cut len done) }
    {
        self.entries.push_reserved(Entry::Cut { len, done });
    }

    pub fn add_sync(&mut self, done: bool)
        requires { 32 + record_size self.old.deeds ≤ self.old.capacity }
        ensures { self.new ≡ with_deed self.old (Synced done) }
    {
        self.entries.push_reserved(Entry::Synced { done });
    }

    // Plays the deeds again, on a file and on what a crash leaves of it, both as they were at first. The pick says what
    // is lost: of each deed since the last sync that was done, its next digit in base 5.
    pub fn replay(&self, pick: u64, file: &mut Vec<u8>, image: &mut Vec<u8>)
        requires same { file.old.items ≡ image.old.items }
        requires fits { length image.old.items ≤ self.now.capacity }
        requires file_room { self.now.capacity ≤ vec_capacity file.old }
        requires image_room { self.now.capacity ≤ vec_capacity image.old }
        ensures image { IsImage image.old.items self.now.deeds image.new.items }
        ensures all_lost { pick ≡ 0 → image.new.items ≡ last_synced image.old.items self.now.deeds }
        ensures fits { length image.new.items ≤ self.now.capacity }
        ensures file_capacity { vec_capacity file.old ≤ vec_capacity file.new }
        ensures image_capacity { vec_capacity image.old ≤ vec_capacity image.new }
    {
        let mut digits = pick;
        for entry in &self.entries {
            play(entry, &self.pool, self.capacity, digits, file, image);
            digits = next_digits(entry, digits, pick);
        }
    }

    // Forgets all deeds.
    pub fn start_again(&mut self)
        ensures { self.new ≡ record self.old { deeds = [] } }
    {
        self.entries.clear();
        self.pool.clear();
    }
}

// Does a deed again on a file. What a crash leaves of it is in the image, by the last digit.
fn play(
    entry: &Entry,
    pool: &[u8],
    capacity: usize,
    digits: u64,
    file: &mut Vec<u8>,
    image: &mut Vec<u8>,
)
    requires within { IsWithin (length pool.now) capacity entry.now }
    requires file_fits { length file.old.items ≤ capacity }
    requires image_fits { length image.old.items ≤ capacity }
    requires file_room { capacity ≤ vec_capacity file.old }
    requires image_room { capacity ≤ vec_capacity image.old }

    ensures file { (first : List ℕ) (past : List Deed) → file.old.items ≡ file_after first past →
        file.new.items ≡ file_after first (deed_of pool.now entry.now ∷ past) }
    ensures image { (first : List ℕ) (past : List Deed) →
        file.old.items ≡ file_after first past → IsImage first past image.old.items →
        IsImage first (deed_of pool.now entry.now ∷ past) image.new.items }
    ensures lost { (first : List ℕ) (past : List Deed) →
        digits ≡ 0 → file.old.items ≡ file_after first past → image.old.items ≡ last_synced first past →
        image.new.items ≡ last_synced first (deed_of pool.now entry.now ∷ past) }
    ensures file_fits { length file.new.items ≤ capacity }
    ensures image_fits { length image.new.items ≤ capacity }
    ensures file_capacity { vec_capacity file.old ≤ vec_capacity file.new }
    ensures image_capacity { vec_capacity image.old ≤ vec_capacity image.new }
{
    match *entry {
        Entry::Wrote {
            at,
            start,
            count,
            done,
        } => {
            let bytes = &pool[start..start + count];
            tear(image, at as usize, bytes, digits % 5);
            if done {
                write_over(file, at as usize, bytes);
            }
        }
        Entry::Cut { len, done } => {
            tear_cut(image, len as usize, digits % 5);
            if done {
                file.truncate(len as usize);
            }
        }
        Entry::Synced { done } => {
            if done {
                image.clear();
                image.extend_from_slice(file).unwrap();
            }
        }
    }
}

// The digits for the next deed. Those of a pick begin again after a sync that was done.
fn next_digits(entry: &Entry, digits: u64, pick: u64) -> u64
    ensures { pick ≡ 0 → digits ≡ 0 → result ≡ 0 }
{
    match entry {
        Entry::Synced { done: true } => pick,
        _ => digits / 5,
    }
}
