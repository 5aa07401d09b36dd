//! The rows of the half-months.

ghost use Rattle.std.specs.Prelude.{◌≡◌, ◌↔◌, ◌+◌, ◌<◌, ◌≤◌, [], ◌∷◌, map, IsSome, IsNone, IsFalse, IfSome, IfOk};
ghost use Rattle.std.specs.List.{Contains};
ghost use Rattle.ordered_list.specs.Contents.{UsesOne};
ghost use Rattle.packed_names.specs.Ranges.{IsHalfMonth, IsProvisional, IsDesignation, limit_of};
ghost use Rattle.packed_names.specs.declared.name.Designation.TheVariants as designations;
ghost use Rattle.designate_core.specs.Takes.{given_in, is_begun, next_in, next_of, discovery_of, designations_given};
ghost use Rattle.designate_core.specs.Takes.RowAct.{Opened, Took};

use crate::count::{Count, given_in};
use crate::discovery::{Discovery, discovery_of};
use crate::row_entry::RowEntry;
use item_list::NoMemory;
use ordered_list::OrderedList;
use packed_names::{Designation, HalfMonth, Provisional, limit};
use std::alloc::Global;
use std::marker::Model;

/// The designations that were given, by half-months: each half-month has a row of them, with the orders 1, 2, 3 and so
/// on, to at most its limit. The first of them, as many as its opening count, were given elsewhere.
///
/// Contracts see the list of all openings and takes, the newest first, and for how many more of them memory is there.
#[derive(Debug, Drop)]
pub struct Rows {
    came: Vec<RowEntry>,
    counts: OrderedList<Count>,
    discoveries: OrderedList<Discovery>,
}

impl Model for Rows {
    ghost use Rattle.std.specs.Prelude.{◌-◌, min, reverse, vec_len, vec_capacity};
    ghost use Rattle.designate_core.specs.Takes.{RowsValue};

    ghost Value = { RowsValue };

    ghost use Rattle.designate_core.specs.RowEntries.{acts_of};
    ghost use Rattle.designate_core.specs.Indexes.{IsKept};

    ghost view = { λ r. record {
      acts = acts_of r.came.items;
      spare = min (vec_capacity r.came - vec_len r.came) (min r.counts.room r.discoveries.room);
    } };

    ghost invariant = { λ r.
        IsKept ⟦<Count as Ord>⟧.cmp ⟦<Discovery as Ord>⟧.cmp (reverse r.came.items)
        r.counts.items r.discoveries.items };
}

impl Rows {
    /// Rows in which no designation was given.
    ///
    /// # Errors
    ///
    /// Memory was refused.
    pub fn new(alloc: Global) -> Result<Rows, NoMemory>
        ensures { IfOk result (λ rows. rows.acts ≡ []) }
    {
        Ok(Rows {
            came: Vec::new(alloc),
            counts: OrderedList::new(alloc)?,
            discoveries: OrderedList::new(alloc)?,
        })
    }

    /// Takes the memory for one more opening or take. What was given stays, whatever the answer.
    ///
    /// # Errors
    ///
    /// Memory was refused.
    pub fn reserve(&mut self) -> Result<(), NoMemory>
        ensures room { IfOk result (λ _. 1 ≤ self.new.spare) }
        ensures kept { self.old.spare ≤ self.new.spare }
        ensures acts { self.new.acts ≡ self.old.acts }
    {
        self.came.reserve(1)?;
        self.counts.reserve(1)?;
        self.discoveries.reserve(1)
    }

    /// The designation that is given next in a half-month: its order is one more than the count of those that were
    /// given in it, elsewhere or here. None exactly where that count is the half-month's limit.
    pub fn next(&self, half: HalfMonth) -> Option<Provisional>
        requires { IsHalfMonth half }
        ensures next { result ≡ next_of half self.now.acts }
        ensures full { IsNone result ↔ (given_in half self.now.acts ≡ limit_of half) }
        ensures free { IfSome result (λ _. given_in half self.now.acts < limit_of half) }
        ensures name { IfSome result IsProvisional }
    {
        let given = self.given(half);
        if given < limit(half) {
            Some(Provisional {
                half,
                order: given + 1,
            })
        } else {
            None
        }
    }

    /// Opens a half-month, which isn't begun: this many designations, 1 to its limit, were given in it elsewhere, and
    /// the next order is one more. Other half-months stay. It takes no memory: `reserve` has left room.
    pub fn open(&mut self, half: HalfMonth, given: u32)
        requires unbegun { IsFalse (is_begun half self.old.acts) }
        requires from { 1 ≤ given }
        requires within { given ≤ limit_of half }
        requires room { 1 ≤ self.old.spare }
        ensures acts { self.new.acts ≡ Opened half given ∷ self.old.acts }
        ensures spare { UsesOne self.old.spare self.new.spare }
    {
        packed_names::laws::orders();
        self.counts.insert(Count { half, given });
        self.came.push_reserved(RowEntry::Opened { half, given });
    }

    /// Gives the next designation of a half-month, which isn't full, to the object of this discovery observation. It
    /// takes no memory: `reserve` has left room.
    pub fn take(&mut self, half: HalfMonth, discovery: u64) -> Provisional
        requires half { IsHalfMonth half }
        requires free { given_in half self.old.acts < limit_of half }
        requires room { 1 ≤ self.old.spare }
        ensures given { result ≡ next_in half self.old.acts }
        ensures acts { self.new.acts ≡ Took (record { half = half; discovery = discovery }) ∷ self.old.acts }
        ensures spare { UsesOne self.old.spare self.new.spare }
        ensures name { IsProvisional result }
    {
        packed_names::laws::orders();
        let order = self.given(half) + 1;
        let given = Provisional { half, order };
        self.counts.insert(Count { half, given: order });
        self.discoveries.insert(Discovery {
            designation: Designation::Provisional(given),
            observation: discovery,
        });
        self.came.push_reserved(RowEntry::Took { given, discovery });
        given
    }

    /// Whether a half-month is begun: it was opened, or an object took a designation of it.
    #[tactic(auto, using(crate::proofs::RowLemmas::begun_by_count))]
    pub fn begun(&self, half: HalfMonth) -> bool
        ensures begun { result ≡ is_begun half self.now.acts }
    {
        given_in(&self.counts, half) > 0
    }

    /// How many designations were given in a half-month: its opening count, and those that objects took.
    pub fn given(&self, half: HalfMonth) -> u32
        requires { IsHalfMonth half }
        ensures count { result ≡ given_in half self.now.acts }
        ensures within { result ≤ limit_of half }
    {
        packed_names::laws::orders();
        given_in(&self.counts, half)
    }

    /// The number of the observation by which the object of a designation was discovered. None exactly for designations
    /// that no object took here, the surveys' and those that were given elsewhere among them.
    pub fn find(&self, d: Designation) -> Option<u64>
        ensures discovery { result ≡ discovery_of d self.now.acts }
        ensures given { IsSome result ↔ Contains (map designations.Provisional (designations_given self.now.acts)) d }
        ensures name { IfSome result (λ _. IsDesignation d) }
    {
        packed_names::laws::orders();
        discovery_of(&self.discoveries, d)
    }
}
