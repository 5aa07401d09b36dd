//! The comets of a register, and what each is found by.

ghost use Rattle.std.specs.Prelude.{◌≡◌, ◌≢◌, ◌<◌, ◌≤◌, ◌∷◌, [], length, reverse, None, IfOk, OnOk};
ghost use Rattle.ordered_list.specs.Contents.{UsesOne};
ghost use Rattle.ordered_list.specs.Orders.{found};
ghost use Rattle.packed_names.specs.declared.name.Designation.{Designation};
ghost use Rattle.comet_names.specs.declared.comet.Comet.{Comet};
ghost use Rattle.comet_names.specs.Ranges.{IsComet};
ghost use Rattle.comet_model.specs.Comets.{count_in, comet_of};
ghost use Rattle.comet_model.specs.Translation.{object_named};
ghost use Rattle.comet_core.specs.Comets.{count_key, count_by, object_key, comet_by};
ghost use Rattle.comet_core.specs.Names.{object_of};

use crate::index::{Count, KnownObject};
use crate::names::{KnownName, Names};
use comet_model::NamedComet;
use comet_names::{Comet, CometKind, pack_comet};
use item_list::NoMemory;
use ordered_list::OrderedList;
use packed_names::{Designation, HalfMonth};
use std::alloc::Global;
use std::marker::Model;

/// The comets of a register.
///
/// Contracts see the list, the newest first, and for how many more comets there is room. `new` and `reserve` take
/// memory, and no other call does.
#[derive(Debug, Drop)]
pub struct Comets {
    named: Vec<NamedComet>,
    counts: OrderedList<Count>,
    objects: OrderedList<KnownObject>,
    names: Names,
}

impl Model for Comets {
    ghost use Rattle.std.specs.Prelude.{◌-◌, min, reverse, vec_len, vec_capacity};
    ghost use Rattle.comet_core.specs.Comets.{CometsValue, AreKept};

    ghost Value = { CometsValue };

    ghost view = { λ c. record {
      items = reverse c.named.items;
      room = min (vec_capacity c.named - vec_len c.named) (min c.counts.room (min c.objects.room c.names.room));
    } };

    ghost invariant = { λ c.
        AreKept ⟦<Count as Ord>⟧.cmp ⟦<KnownObject as Ord>⟧.cmp (reverse c.named.items) c.counts.items
        c.objects.items c.names.names };
}

/// How many comets an index has in a half-month.
fn count_in(counts: &OrderedList<Count>, half: HalfMonth) -> u32
    ensures { result ≡ count_by (found ⟦<Count as Ord>⟧.cmp (count_key half 0) counts.now.items) }
{
    match counts.find(&Count { half, comets: 0 }) {
        Some(count) => count.comets,
        None => 0,
    }
}

/// The name that an index has of a designation.
fn comet_of(objects: &OrderedList<KnownObject>, object: Designation) -> Option<Comet>
    ensures { (comet : Comet) → result ≡ comet_by (found ⟦<KnownObject as Ord>⟧.cmp (object_key object comet)
        objects.now.items) }
{
    // what stands beside the designation plays no part in the search
    let comet = Comet {
        kind: CometKind::C,
        half: HalfMonth { year: 0, index: 0 },
        number: 0,
    };
    objects
        .find(&KnownObject { object, comet })
        .map(|known| known.comet)
}

/// The designation that an index has of a packed name. None for a text that isn't of eight bytes.
fn object_named(names: &Names, name: &[u8]) -> Option<Designation>
    ensures found { length name.now ≡ 8 → result ≡ object_of names.now.names name.now }
    ensures none { length name.now ≢ 8 → result ≡ None }
{
    let text: &[u8; 8] = name.as_array()?;
    names.find(text)
}

impl Comets {
    /// No comets.
    ///
    /// # Errors
    ///
    /// Memory was refused.
    pub fn new(alloc: Global) -> Result<Comets, NoMemory>
        ensures { IfOk result (λ comets. comets.items ≡ []) }
    {
        Ok(Comets {
            named: Vec::new(alloc),
            counts: OrderedList::new(alloc)?,
            objects: OrderedList::new(alloc)?,
            names: Names::new(alloc)?,
        })
    }

    /// The comets, the oldest first.
    pub fn as_slice(&self) -> &[NamedComet]
        ensures { reverse result.now ≡ self.now.items }
    {
        self.named.as_slice()
    }

    /// How many comets a half-month has, C and P together. It is found by halving.
    pub fn count_in(&self, half: HalfMonth) -> u32
        ensures { result ≡ count_in half self.now.items }
    {
        count_in(&self.counts, half)
    }

    /// The name that a designation has. It is found by halving.
    pub fn comet_of(&self, object: Designation) -> Option<Comet>
        ensures { result ≡ comet_of object self.now.items }
    {
        comet_of(&self.objects, object)
    }

    /// The designation beside which the comet with this packed name has it. It is found by the name's mark.
    pub fn object_named(&self, name: &[u8]) -> Option<Designation>
        ensures { result ≡ object_named self.now.items name.now }
    {
        object_named(&self.names, name)
    }

    /// Takes the memory for one more comet. The comets stay, and no room that there was is given up.
    ///
    /// # Errors
    ///
    /// Memory was refused.
    pub fn reserve(&mut self) -> Result<(), NoMemory>
        ensures room { OnOk result (0 < self.new.room) }
        ensures room_stays { self.old.room ≤ self.new.room }
        ensures items { self.new.items ≡ self.old.items }
    {
        self.named.reserve(1)?;
        self.counts.reserve(1)?;
        self.objects.reserve(1)?;
        self.names.reserve()
    }

    /// Adds a comet of a half-month that isn't full. It takes no memory: `reserve` has left room.
    pub fn push(&mut self, named: NamedComet)
        requires comet { IsComet named.comet }
        requires free { count_in named.comet.half self.old.items < 99 }
        requires room { 0 < self.old.room }
        ensures items { self.new.items ≡ named ∷ self.old.items }
        ensures room { UsesOne self.old.room self.new.room }
    {
        packed_names::laws::orders();
        let half = named.comet.half;
        let comets = self.count_in(half) + 1;
        self.counts.insert(Count { half, comets });
        self.objects.insert(KnownObject {
            object: named.object,
            comet: named.comet,
        });
        self.names.set(KnownName {
            text: pack_comet(named.comet),
            object: named.object,
        });
        self.named.push_reserved(named);
    }
}
