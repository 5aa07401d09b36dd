//! The callers on the roster, and an index of their keys.

ghost use Rattle.std.specs.Prelude.{◌≡◌, ◌<◌, ◌≤◌, ◌∷◌, [], ◌++◌, length, reverse, IfOk, OnOk};
ghost use Rattle.ordered_list.specs.Contents.{UsesOne};
ghost use Rattle.act_model.specs.declared.roster.TheConstants.{CALLERS};
ghost use Rattle.act_model.specs.Roster.{caller_of, enrolled_as, founding_officer, with_enrolled};

use crate::known_key::KnownKey;
use act_model::{Caller, Deed, Key, Member, Rank};
use item_list::NoMemory;
use ordered_list::OrderedList;
use std::alloc::Global;
use std::marker::Model;

/// The callers that were enrolled, in their order.
///
/// Contracts see the list, and for how many more callers there is room. `new` and `reserve` take memory, and no other
/// call does.
#[derive(Debug, Drop)]
pub struct Roster {
    members: Vec<Member>,
    keys: OrderedList<KnownKey>,
}

impl Model for Roster {
    ghost use Rattle.std.specs.Prelude.{◌-◌, min, vec_len, vec_capacity};
    ghost use Rattle.desk_core.specs.Roster.{RosterValue, IsIndexed};

    ghost Value = { RosterValue };

    ghost view = { λ r. record {
      items = r.members.items;
      room = min (vec_capacity r.members - vec_len r.members) r.keys.room;
    } };

    ghost invariant = { λ r. IsIndexed ⟦<KnownKey as Ord>⟧.cmp r.keys.items r.members.items };
}

/// The founding officer, who is caller 0.
fn founding() -> Caller
    ensures { result ≡ founding_officer }
{
    Caller {
        number: 0,
        rank: Rank::Officer,
    }
}

impl Roster {
    /// Nobody was enrolled.
    ///
    /// # Errors
    ///
    /// Memory was refused.
    pub fn new(alloc: Global) -> Result<Roster, NoMemory>
        ensures { IfOk result (λ roster. roster.items ≡ []) }
    {
        Ok(Roster {
            members: Vec::new(alloc),
            keys: OrderedList::new(alloc)?,
        })
    }

    /// The allocator that the roster takes its memory from.
    pub fn allocator(&self) -> Global {
        *self.members.allocator()
    }

    /// The callers, in the order in which they were enrolled.
    pub fn as_slice(&self) -> &[Member]
        ensures { result.now ≡ self.now.items }
    {
        self.members.as_slice()
    }

    /// The enrolled caller with the key. It is found by halving.
    pub fn enrolled_as(&self, key: &Key) -> Option<Caller>
        ensures { result ≡ enrolled_as (reverse self.now.items) key.now }
    {
        let item = KnownKey {
            key: *key,
            caller: founding(),
        };
        self.keys.find(&item).map(|known| known.caller)
    }

    /// The caller with the key: the founding officer, or one that was enrolled.
    pub fn caller_of(&self, founder: &Key, key: &Key) -> Option<Caller>
        ensures { result ≡ caller_of founder.now (reverse self.now.items) key.now }
    {
        if key.is(founder) {
            return Some(founding());
        }
        self.enrolled_as(key)
    }

    /// Takes the memory for one more caller. The callers stay, and no room that there was is given up.
    ///
    /// # Errors
    ///
    /// Memory was refused.
    pub fn reserve(&mut self) -> Result<(), NoMemory>
        ensures room { OnOk result (0 < self.new.room) }
        ensures room_stays { self.old.room ≤ self.new.room }
        ensures items { self.new.items ≡ self.old.items }
    {
        self.members.reserve(1)?;
        self.keys.reserve(1)
    }

    /// Puts the caller of an enrolment on the roster. It takes no memory: `reserve` has left room.
    pub fn enrol(&mut self, deed: &Deed)
        requires few { length self.old.items < CALLERS }
        requires room { 0 < self.old.room }
        ensures items { reverse self.new.items ≡ with_enrolled deed.now (reverse self.old.items) }
        ensures room { UsesOne self.old.room self.new.room }
    {
        if let Deed::Enrolled(member) = deed {
            self.add(*member);
        }
    }

    /// Adds a caller, who gets the next number.
    fn add(&mut self, member: Member)
        requires few { length self.old.items < CALLERS }
        requires room { 0 < self.old.room }
        ensures items { self.new.items ≡ self.old.items ++ member ∷ [] }
        ensures room { UsesOne self.old.room self.new.room }
    {
        let caller = Caller {
            number: self.members.len() as u32 + 1,
            rank: member.rank,
        };
        let known = KnownKey {
            key: member.key,
            caller,
        };
        self.keys.insert(known);
        self.members.push_reserved(member);
    }
}
