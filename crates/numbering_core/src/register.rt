//! The register of verdicts and numbers.

ghost use Rattle.std.specs.Prelude.{◌≡◌, ◌+◌, ◌≤◌, List, [], ◌∷◌, Some, None, IfSome, IfOk};
ghost use Rattle.packed_names.specs.declared.name.Designation.{Designation};
ghost use Rattle.packed_names.specs.Ranges.{IsNumber};
ghost use Rattle.numbering_core.specs.Verdicts.{VerdictAct, verdict_of, verdict_in_force, is_good, ChangedBy, StandFor};
ghost use Rattle.numbering_core.specs.Verdicts.VerdictAct.{Set, Voided};
ghost use Rattle.numbering_core.specs.Numbers.{number_of, named, next_number, IsUnbroken};
ghost use Rattle.numbering_core.specs.Open.{AreOpen};
ghost use Rattle.ordered_list.specs.Orders.{IsStrictlySorted};

use crate::entry::{NumberEntry, VerdictEntry};
use crate::numbering::Numbering;
use crate::verdict::Verdict;
use crate::{lists, open};
use item_list::NoMemory;
use ordered_list::OrderedList;
use packed_names::{Designation, Number};
use std::alloc::Global;
use std::marker::Model;

/// The verdicts in force, and the numbers that were given.
///
/// Contracts see the verdicts, from which `verdict_of` gives the one on each designation, the numbers with the newest
/// first, and for how many more of each memory is there.
#[derive(Debug, Drop)]
pub struct Register {
    verdicts: OrderedList<VerdictEntry>,
    numbered: Vec<Numbering>,
    entries: OrderedList<NumberEntry>,
    // the designations with a good verdict and without a number
    open: OrderedList<Designation>,
}

impl Model for Register {
    ghost use Rattle.std.specs.Prelude.{◌-◌, min, reverse, vec_len, vec_capacity};
    ghost use Rattle.numbering_core.specs.RegisterValue.{RegisterValue};

    ghost Value = { RegisterValue };

    ghost use Rattle.numbering_core.specs.Indexes.{IsKept, verdicts_in};
    ghost use Rattle.numbering_core.specs.Verdicts.{verdict_of};
    ghost use Rattle.numbering_core.specs.Open.{AreOpen};

    ghost view = { λ r. record {
      verdicts = verdicts_in r.verdicts.items;
      numbered = reverse r.numbered.items;
      spare = min r.verdicts.room
          (min (vec_capacity r.numbered - vec_len r.numbered) (min r.entries.room r.open.room));
    } };

    ghost invariant = { λ r.
        IsKept ⟦<NumberEntry as Ord>⟧.cmp (reverse r.numbered.items) r.entries.items
        × AreOpen ⟦<Designation as Ord>⟧.cmp (verdict_of (verdicts_in r.verdicts.items))
        (reverse r.numbered.items) r.open.items };
}

impl Register {
    /// A register without verdicts and numbers.
    ///
    /// # Errors
    ///
    /// Memory was refused.
    pub fn new(alloc: Global) -> Result<Register, NoMemory>
        ensures verdicts { IfOk result (λ register. register.verdicts ≡ []) }
        ensures numbered { IfOk result (λ register. register.numbered ≡ []) }
    {
        Ok(Register {
            verdicts: OrderedList::new(alloc)?,
            numbered: Vec::new(alloc),
            entries: OrderedList::new(alloc)?,
            open: OrderedList::new(alloc)?,
        })
    }

    /// Takes the memory for this many more verdicts and as many more numbers. What is registered stays, whatever the
    /// answer.
    ///
    /// # Errors
    ///
    /// Memory was refused.
    pub fn reserve(&mut self, more: u32) -> Result<(), NoMemory>
        ensures room { IfOk result (λ _. more ≤ self.new.spare) }
        ensures kept { self.old.spare ≤ self.new.spare }
        ensures verdicts { self.new.verdicts ≡ self.old.verdicts }
        ensures numbered { self.new.numbered ≡ self.old.numbered }
    {
        self.verdicts.reserve(more)?;
        self.numbered.reserve(more as usize)?;
        self.entries.reserve(more)?;
        self.open.reserve(more)
    }

    /// Sets the verdict on a principal designation: its uncertainty parameter and its oppositions. An earlier one is no
    /// longer in force. It takes no memory: `reserve` has left room.
    pub fn set(&mut self, p: Designation, u: u8, oppositions: u8)
        requires { 1 ≤ self.old.spare }
        ensures verdicts { ChangedBy (Set p u oppositions) self.old.verdicts self.new.verdicts }
        ensures acts { (acts : List VerdictAct)
            → StandFor self.old.verdicts acts → StandFor self.new.verdicts (Set p u oppositions ∷ acts) }
        ensures numbered { self.new.numbered ≡ self.old.numbered }
        ensures spare { self.old.spare ≤ self.new.spare + 1 }
        ensures no_more { self.new.spare ≤ self.old.spare + 1 }
    {
        packed_names::laws::orders();
        let verdict = Verdict {
            principal: p,
            u,
            oppositions,
        };
        let is_open = open::is_open(&self.entries, verdict);
        open::keep(&mut self.open, p, is_open);
        self.verdicts.insert(VerdictEntry {
            principal: p,
            u,
            oppositions,
        });
    }

    /// Voids the verdict on a designation, where there is one. It takes no memory.
    pub fn void(&mut self, p: Designation)
        ensures verdicts { ChangedBy (Voided p) self.old.verdicts self.new.verdicts }
        ensures acts { (acts : List VerdictAct)
            → StandFor self.old.verdicts acts → StandFor self.new.verdicts (Voided p ∷ acts) }
        ensures numbered { self.new.numbered ≡ self.old.numbered }
        ensures spare { self.old.spare ≤ self.new.spare }
        ensures no_more { self.new.spare ≤ self.old.spare + 1 }
    {
        packed_names::laws::orders();
        open::close(&mut self.open, p);
        let _ = self.verdicts.remove(&VerdictEntry {
            principal: p,
            u: 0,
            oppositions: 0,
        });
    }

    /// Whether a verdict on the designation is in force and is good: U is at most 2, and the oppositions are at least
    /// 4.
    pub fn good(&self, p: Designation) -> bool
        ensures good { result ≡ is_good (verdict_of self.now.verdicts p) }
        ensures acts { (acts : List VerdictAct)
            → StandFor self.now.verdicts acts → result ≡ is_good (verdict_in_force acts p) }
    {
        packed_names::laws::orders();
        lists::is_good(lists::verdict_of(&self.verdicts, p))
    }

    /// The designations that have a good verdict in force and no number, in their order.
    pub fn open(&self) -> &OrderedList<Designation>
        ensures order { IsStrictlySorted ⟦<Designation as Ord>⟧.cmp result.now.items }
        ensures open { AreOpen ⟦<Designation as Ord>⟧.cmp (verdict_of self.now.verdicts) self.now.numbered
            result.now.items }
        ensures acts { (acts : List VerdictAct) → StandFor self.now.verdicts acts
            → AreOpen ⟦<Designation as Ord>⟧.cmp (verdict_in_force acts) self.now.numbered result.now.items }
    {
        open::in_order(&self.open);
        &self.open
    }

    /// The number that is given next: one more than the last. None exactly where no number was given.
    pub fn next(&self) -> Option<u32>
        ensures next { result ≡ next_number self.now.numbered }
        ensures row { IsUnbroken self.now.numbered }
    {
        self.numbered.last().map(|newest| newest.number.0 + 1)
    }

    /// Gives a number to a designation that has none: the next one, or any where none was given. It takes no memory:
    /// `reserve` has left room.
    pub fn take(&mut self, d: Designation, n: Number)
        requires number { IsNumber n.0 }
        requires next { IfSome (next_number self.old.numbered) (λ next. n.0 ≡ next) }
        requires unnumbered { number_of self.old.numbered d ≡ None }
        requires room { 1 ≤ self.old.spare }
        ensures numbered { self.new.numbered ≡ record { designation = d; number = n } ∷ self.old.numbered }
        ensures verdicts { self.new.verdicts ≡ self.old.verdicts }
        ensures spare { self.old.spare ≤ self.new.spare + 1 }
        ensures no_more { self.new.spare ≤ self.old.spare + 1 }
    {
        packed_names::laws::orders();
        open::close(&mut self.open, d);
        self.entries.insert(NumberEntry {
            designation: d,
            number: n,
        });
        self.numbered.push_reserved(Numbering {
            designation: d,
            number: n,
        });
    }

    /// The number of a designation. None exactly where it has none.
    pub fn number_of(&self, d: Designation) -> Option<Number>
        ensures number { result ≡ number_of self.now.numbered d }
        ensures named { IfSome result (λ n. named self.now.numbered n.0 ≡ Some d) }
        ensures range { IfSome result (λ n. IsNumber n.0) }
    {
        packed_names::laws::orders();
        lists::number_of(&self.entries, d)
    }

    /// The designation that a number was given to. None exactly where it was given to none.
    pub fn named(&self, n: Number) -> Option<Designation>
        ensures designation { result ≡ named self.now.numbered n.0 }
        ensures numbered { IfSome result (λ d. number_of self.now.numbered d ≡ Some n) }
    {
        packed_names::laws::orders();
        lists::named(self.numbered.as_slice(), n)
    }
}
