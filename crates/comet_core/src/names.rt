//! The packed names of comets, and the designation that each leads to.

ghost use Rattle.std.specs.Prelude.{◌≡◌, ℕ, ◌<◌, ◌≤◌, ◌%◌, ◌^◌, [], List, length, slice_index_or, Some, None, IfOk};
ghost use Rattle.std.specs.Prelude.{OnOk, IfSome, IfNone, if◌then◌else◌, bytes_eq};
ghost use Rattle.std.specs.Simd.Lanes.{number_l};
ghost use Rattle.ordered_list.specs.Contents.{UsesOne};
ghost use Rattle.comet_core.specs.Names.{object_of, text_mark, StandsAt};

use item_list::NoMemory;
use mark_index::MarkIndex;
use packed_names::Designation;
use place_keys::mixed;
use std::alloc::Global;
use std::marker::Model;
use std::simd::prelude::*;

/// The packed name of a comet, and the designation beside which it was given.
#[derive(Clone, Copy, Debug)]
pub struct KnownName {
    /// The packed name.
    pub text: [u8; 8],
    /// The designation.
    pub object: Designation,
}

/// The packed names of comets, each with its designation, found by their marks.
///
/// Contracts see the names, each of them once, and for how many more there is room. `new` and `reserve` take memory,
/// and no other call does.
#[derive(Debug, Drop)]
pub struct Names {
    names: Vec<KnownName>,
    // The marks of the names, in their order.
    index: MarkIndex,
}

impl Model for Names {
    ghost use Rattle.std.specs.Prelude.{◌≡◌, ◌-◌, min, map, vec_len, vec_capacity};
    ghost use Rattle.comet_core.specs.Names.{NamesValue, AreOnce, name_mark};

    ghost Value = { NamesValue };

    ghost view = { λ n. record {
      names = n.names.items;
      room = min (vec_capacity n.names - vec_len n.names) n.index.room;
    } };

    ghost invariant = { λ n. (n.index.marks ≡ map name_mark n.names.items) × AreOnce n.names.items };
}

/// The bytes of a packed name as a number.
#[inline(always)]
fn number_of(text: &[u8; 8]) -> u64
    ensures { result ≡ number_l 256 text.now % 2 ^ 64 }
{
    u64x1::from_le_bytes(u8x8::from_slice(&text[..])).to_array()[0]
}

/// A number from 1 that a packed name makes, by which it is looked for.
fn text_mark(text: &[u8; 8]) -> u32
    ensures mark { result ≡ text_mark text.now }
    ensures some { 0 < result }
{
    ((mixed(0, number_of(text)) >> 32) as u32).max(1)
}

/// Whether the name at a place is this one.
fn is_named(names: &[KnownName], place: usize, text: &[u8; 8]) -> bool
    requires { place < length names.now }
    ensures { (d : KnownName) → result ≡ bytes_eq (slice_index_or names.now place d).text text.now }
{
    names[place].text.as_slice() == text.as_slice()
}

impl Names {
    /// No names.
    ///
    /// # Errors
    ///
    /// Memory was refused.
    pub fn new(alloc: Global) -> Result<Names, NoMemory>
        ensures { IfOk result (λ names. names.names ≡ []) }
    {
        Ok(Names {
            names: Vec::new(alloc),
            index: MarkIndex::new(alloc)?,
        })
    }

    /// The place of a name.
    fn place_of(&self, text: &[u8; 8]) -> Option<usize>
        ensures there { IfSome result (λ place. StandsAt self.now.names place text.now) }
        ensures none { IfNone result (object_of self.now.names text.now ≡ None) }
    {
        let names = self.names.as_slice();
        match self
            .index
            .find(text_mark(text), |place| is_named(names, place, text))
        {
            Some(place) => Some(place),
            None => None,
        }
    }

    /// The designation of a name.
    pub fn find(&self, text: &[u8; 8]) -> Option<Designation>
        ensures { result ≡ object_of self.now.names text.now }
    {
        match self.place_of(text) {
            Some(place) => Some(self.names[place].object),
            None => None,
        }
    }

    /// Takes the memory for one more name. The names stay, and no room that there was is given up.
    ///
    /// # Errors
    ///
    /// Memory was refused.
    pub fn reserve(&mut self) -> Result<(), NoMemory>
        ensures room { OnOk result (0 < self.new.room) }
        ensures room_stays { self.old.room ≤ self.new.room }
        ensures names { self.new.names ≡ self.old.names }
    {
        self.names.reserve(1)?;
        self.index.reserve(1)
    }

    /// Puts a name with its designation, in place of the one that the name had. It takes no memory: `reserve` has left
    /// room.
    pub fn set(&mut self, known: KnownName)
        requires { 0 < self.old.room }
        ensures finds { (text : List ℕ) → object_of self.new.names text
            ≡ (if bytes_eq known.text text then Some known.object else object_of self.old.names text) }
        ensures room { UsesOne self.old.room self.new.room }
    {
        match self.place_of(&known.text) {
            Some(place) => self.names[place] = known,
            None => {
                self.index.push(text_mark(&known.text));
                self.names.push_reserved(known);
            }
        }
    }
}
