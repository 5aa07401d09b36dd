//! The designations, the principals, the verdicts and the numbers that the office keeps.

ghost use Rattle.std.specs.Prelude.{◌≡◌, [], ◌∷◌, List, IfOk, OnOk};
ghost use Rattle.identify_core.specs.Principals.{StandFor as LinksStandFor};
ghost use Rattle.numbering_core.specs.Verdicts.{StandFor as VerdictsStandFor};
ghost use Rattle.act_model.specs.declared.deed.Deed.{Deed};
ghost use Rattle.act_model.specs.Holdings.{holdings};
ghost use Rattle.desk_core.specs.Office.{held_in};
ghost use Rattle.desk_core.specs.Objects.{StandFor, HoldsObjects, HasRoom, UsesObjects};

use act_model::Deed;
use designate_core::Rows;
use identify_core::Links;
use item_list::NoMemory;
use numbering_core::Register;
use object_rules::{link, linked_by, note_rows, note_verdicts, registered_by};
use std::alloc::{AllocError, Global};
use std::marker::Model;
use tracklet_file::TrackletFile;

/// The designations that were given, their principals, the verdicts in force and the numbers.
#[derive(Debug, Drop)]
pub(crate) struct Objects {
    rows: Rows,
    links: Links,
    register: Register,
}

impl Model for Objects {
    ghost use Rattle.desk_core.specs.Objects.{ObjectsValue};

    ghost Value = { ObjectsValue };

    ghost view = { λ o. record {
      acts = o.rows.acts;
      links = o.links.links;
      verdicts = o.register.verdicts;
      numbered = o.register.numbered;
      row_room = o.rows.spare;
      link_room = o.links.spare;
      register_room = o.register.spare;
    } };
}

impl Objects {
    /// Nothing was given, judged or numbered.
    pub(crate) fn new(alloc: Global) -> Result<Objects, NoMemory>
        ensures { IfOk result (StandFor []) }
    {
        Ok(Objects {
            rows: Rows::new(alloc)?,
            links: Links::new(alloc)?,
            register: Register::new(alloc)?,
        })
    }

    /// Takes the room for one more deed.
    pub(crate) fn reserve_for(&mut self, deed: &Deed) -> Result<(), NoMemory>
        ensures room { OnOk result (HasRoom deed.now self.new) }
        ensures acts { self.new.acts ≡ self.old.acts }
        ensures links { self.new.links ≡ self.old.links }
        ensures verdicts { self.new.verdicts ≡ self.old.verdicts }
        ensures numbered { self.new.numbered ≡ self.old.numbered }
    {
        let Ok(linked) = u32::try_from(linked_by(deed)) else {
            return Err(AllocError);
        };
        let Ok(registered) = u32::try_from(registered_by(deed)) else {
            return Err(AllocError);
        };
        self.rows.reserve()?;
        self.links.reserve_many(linked)?;
        self.register.reserve(registered)
    }

    /// Does a deed, where the file of observations is the one before it. It takes no memory: there is room.
    pub(crate) fn note(&mut self, file: &TrackletFile, deed: &Deed)
        requires fits { HoldsObjects deed.now file.now self.old }
        requires room { HasRoom deed.now self.old }
        ensures stand { (past : List Deed) → held_in file.now ≡ holdings past →
            StandFor past self.old → StandFor (deed.now ∷ past) self.new }
        ensures used { UsesObjects deed.now self.old self.new }
    {
        note_verdicts(&mut self.register, file, &self.links, deed);
        link(&mut self.links, deed);
        note_rows(&mut self.rows, deed);
    }

    /// The designations that were given.
    pub(crate) fn rows(&self) -> &Rows
        ensures { result.now.acts ≡ self.now.acts }
    {
        &self.rows
    }

    /// The principals of designations.
    pub(crate) fn links(&self) -> &Links
        ensures { result.now.links ≡ self.now.links }
    {
        &self.links
    }

    /// The verdicts in force and the numbers.
    pub(crate) fn register(&self) -> &Register
        ensures verdicts { result.now.verdicts ≡ self.now.verdicts }
        ensures numbered { result.now.numbered ≡ self.now.numbered }
    {
        &self.register
    }
}
