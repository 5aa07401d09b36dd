//! The links of all designations.

ghost use Rattle.std.specs.Prelude.{◌≡◌, ◌≢◌, ◌↔◌, ◌+◌, ◌≤◌, List, [], ◌∷◌, map, All, Some, None, IfSome, IfOk};
ghost use Rattle.std.specs.List.{Contains};
ghost use Rattle.ordered_list.specs.Contents.{UsesOne};
ghost use Rattle.packed_names.specs.declared.name.Designation.{Designation};
ghost use Rattle.identify_core.specs.Acts.{LinkAct, members, principals};
ghost use Rattle.identify_core.specs.Acts.LinkAct.{Given, Joined, Parted};
ghost use Rattle.identify_core.specs.Principals.{principal_of, IsPrincipal, own_members, IsAscending};
ghost use Rattle.identify_core.specs.Principals.{ChangedBy, StandFor};

use crate::entry::PrincipalEntry;
use crate::link::Link;
use crate::{changes, searches};
use item_list::NoMemory;
use ordered_list::OrderedList;
use packed_names::Designation;
use std::alloc::Global;
use std::marker::Model;

/// The links of all designations that were given.
///
/// Contracts see the links, from which `principal_of` gives the principal of each designation, and for how many more
/// memory is there.
#[derive(Debug, Drop)]
pub struct Links {
    links: Vec<Link>,
    entries: OrderedList<PrincipalEntry>,
}

impl Model for Links {
    ghost use Rattle.std.specs.Prelude.{◌-◌, min, vec_len, vec_capacity};
    ghost use Rattle.identify_core.specs.Principals.{LinksValue};

    ghost Value = { LinksValue };

    ghost use Rattle.identify_core.specs.Keeping.{AreLinks};

    ghost view = { λ l. record {
      links = l.links.items;
      spare = min (vec_capacity l.links - vec_len l.links) l.entries.room;
    } };

    ghost invariant = { λ l. AreLinks ⟦<PrincipalEntry as Ord>⟧.cmp l.links.items l.entries.items };
}

impl Links {
    /// Links of no designation.
    ///
    /// # Errors
    ///
    /// Memory was refused.
    pub fn new(alloc: Global) -> Result<Links, NoMemory>
        ensures { IfOk result (λ links. links.links ≡ []) }
    {
        Ok(Links {
            links: Vec::new(alloc),
            entries: OrderedList::new(alloc)?,
        })
    }

    /// Takes the memory for one more designation. The links stay, whatever the answer.
    ///
    /// # Errors
    ///
    /// Memory was refused.
    pub fn reserve(&mut self) -> Result<(), NoMemory>
        ensures room { IfOk result (λ _. 1 ≤ self.new.spare) }
        ensures kept { self.old.spare ≤ self.new.spare }
        ensures links { self.new.links ≡ self.old.links }
    {
        self.reserve_many(1)
    }

    /// Takes the memory for this many more designations. The links stay, whatever the answer.
    ///
    /// # Errors
    ///
    /// Memory was refused.
    pub fn reserve_many(&mut self, more: u32) -> Result<(), NoMemory>
        ensures room { IfOk result (λ _. more ≤ self.new.spare) }
        ensures kept { self.old.spare ≤ self.new.spare }
        ensures links { self.new.links ≡ self.old.links }
    {
        self.links.reserve(more as usize)?;
        self.entries.reserve(more)
    }

    /// Adds a designation that was given, which is its own principal. It takes no memory: `reserve` has left room.
    pub fn add(&mut self, d: Designation)
        requires absent { principal_of self.old.links d ≡ None }
        requires room { 1 ≤ self.old.spare }
        ensures principals { ChangedBy (Given d) self.old.links self.new.links }
        ensures acts { (acts : List LinkAct)
            → StandFor self.old.links acts → StandFor self.new.links (Given d ∷ acts) }
        ensures spare { UsesOne self.old.spare self.new.spare }
    {
        changes::put(
            &mut self.links,
            Link {
                principal: d,
                member: d,
            },
        );
        self.entries.insert(PrincipalEntry {
            designation: d,
            principal: d,
        });
    }

    /// The principal designation of a designation's object, which is its own principal. None exactly where the
    /// designation wasn't given.
    pub fn principal(&self, d: Designation) -> Option<Designation>
        ensures principal { result ≡ principal_of self.now.links d }
        ensures own { IfSome result (IsPrincipal self.now.links) }
    {
        searches::principal_of(&self.entries, d)
    }

    /// The links of all designations with this principal, itself among them, in the order of designations. Empty for
    /// what is no principal.
    pub fn members(&self, p: Designation) -> &[Link]
        ensures principal { All (λ link. link.principal ≡ p) result.now }
        ensures members { (d : Designation)
            → Contains (map (λ link. link.member) result.now) d ↔ (principal_of self.now.links d ≡ Some p) }
        ensures order { IsAscending (map (λ link. link.member) result.now) }
        ensures none { (¬ IsPrincipal self.now.links p) → result.now ≡ [] }
        ensures acts { (acts : List LinkAct)
            → StandFor self.now.links acts → map (λ link. link.member) result.now ≡ members acts p }
    {
        searches::run_of(self.links.as_slice(), p)
    }

    /// The links of all designations, in the order of their principals, and for one principal in the order of its
    /// members. Those that are their own principals (`Link::is_own`) are the principals, in the order of designations.
    pub fn as_slice(&self) -> &[Link]
        ensures links { result.now ≡ self.now.links }
        ensures order { IsAscending (own_members result.now) }
        ensures principals { (acts : List LinkAct)
            → StandFor self.now.links acts → own_members result.now ≡ principals acts }
    {
        self.links.as_slice()
    }

    /// Identifies the object of the principal `s` with that of the principal `p`: every designation whose principal was
    /// `s` gets `p`. It takes no memory.
    pub fn join(&mut self, p: Designation, s: Designation)
        requires principal { IsPrincipal self.old.links p }
        requires secondary { IsPrincipal self.old.links s }
        requires two { p ≢ s }
        ensures principals { ChangedBy (Joined p s) self.old.links self.new.links }
        ensures acts { (acts : List LinkAct)
            → StandFor self.old.links acts → StandFor self.new.links (Joined p s ∷ acts) }
        ensures spare { self.new.spare ≡ self.old.spare }
    {
        changes::give_all(&mut self.links, &mut self.entries, p, s);
    }

    /// Separates `s`, which is no principal, from its object: it becomes its own principal, alone. It takes no memory.
    pub fn part(&mut self, s: Designation)
        requires secondary { ¬ IsPrincipal self.old.links s }
        ensures principals { ChangedBy (Parted s) self.old.links self.new.links }
        ensures acts { (acts : List LinkAct)
            → StandFor self.old.links acts → StandFor self.new.links (Parted s ∷ acts) }
        ensures spare { self.new.spare ≡ self.old.spare }
    {
        if let Some(principal) = searches::principal_of(&self.entries, s) {
            let link = Link {
                principal,
                member: s,
            };
            changes::give(&mut self.links, &mut self.entries, link, s);
        }
    }
}
