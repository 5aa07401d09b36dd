//! A walk over an office that writes the catalogue, piece by piece.

ghost use Rattle.std.specs.Prelude.{◌≡◌, ◌≢◌, ◌≤◌, ◌+◌, ℕ, IsTrue, List, [], ◌∷◌, false, length, drop, OnOk, OnErr};
ghost use Rattle.act_model.specs.declared.deed.Deed.{Deed};
ghost use Rattle.act_model.specs.declared.entry.Entry.{Entry};
ghost use Rattle.act_model.specs.Catalogue.{catalogue};
ghost use Rattle.act_model.specs.Deeds.{deeds};
ghost use Rattle.act_model.specs.Holdings.{holdings};
ghost use Rattle.catalogue_export.specs.Walks.{pieces_left, to_write, Steps};

use crate::lines::{object_line, track_line};
use crate::pieces::{front, name_text, object_head, track_head};
use crate::tracks::listed_in;
use crate::writing::push_made;
use act_model::{Ids, Names, Shelf};
use item_list::{Bytes, NoMemory};
use packed_names::Designation;
use std::alloc::Global;

/// Where a walk stands.
#[derive(Clone, Copy, Debug)]
pub(crate) enum Stage {
    /// Before everything.
    Start,
    /// Before the object at this place in the list of principals.
    Objects(u64),
    /// Inside an object, before the designation at a place in its list of names. The next object stands at `next`.
    Names {
        /// The object's principal designation.
        p: Designation,
        /// The place of the object after it.
        next: u64,
        /// The place of the designation.
        at: u64,
    },
    /// Inside an object, before the observation at a place in its list of observations.
    Observations {
        /// The object's principal designation.
        p: Designation,
        /// The place of the object after it.
        next: u64,
        /// The place of the observation.
        at: u64,
    },
    /// After the tracklet with this number.
    Tracks(u64),
    /// Inside a tracklet, before the observation at a place in its list of observations.
    Tracklet {
        /// The tracklet's number.
        t: u64,
        /// The place of the observation.
        at: u64,
    },
    /// After everything.
    Ended,
}

/// A walk: where it stands, and the lists that it took from the office on its way.
#[derive(Debug, Drop)]
pub(crate) struct Walk {
    /// The principal designations of the office, from the first object on.
    principals: Names,
    /// The designations of the present object.
    names: Names,
    /// The live observations of the present object or tracklet.
    observations: Ids,
    stage: Stage,
}

impl Walk {
    /// A walk at its start.
    pub(crate) fn new(alloc: Global) -> Walk
        ensures { (history : List Entry) → to_write history result ≡ catalogue history }
    {
        Walk {
            principals: Names::new(alloc),
            names: Names::new(alloc),
            observations: Ids::new(alloc),
            stage: Stage::Start,
        }
    }

    /// Whether all was written.
    pub(crate) fn is_ended(&self) -> bool
        ensures ended { IsTrue result → (past : List Deed) → pieces_left past self.now ≡ [] }
        ensures others { result ≡ false → self.now.stage ≢ Stage.Ended }
    {
        matches!(self.stage, Stage::Ended)
    }

    /// Writes the next piece, or goes on to where one may stand. Where memory is refused the walk and the text are as
    /// they were.
    pub(crate) fn step<V: Shelf>(
        &mut self,
        alloc: Global,
        shelf: &V,
        out: &mut Bytes,
    ) -> Result<(), NoMemory>
        requires { self.old.stage ≢ Stage.Ended }
        ensures ok { OnOk result (Steps (V.history shelf.now) self.old self.new out.old out.new) }
        ensures err { OnErr result ((self.new ≡ self.old) × (out.new ≡ out.old)) }
    {
        match self.stage {
            Stage::Start => self.begin(alloc, shelf, out),
            Stage::Objects(at) => self.at_object(alloc, shelf, out, at),
            Stage::Names { p, next, at } => self.at_name(alloc, shelf, out, p, next, at),
            Stage::Observations { p, next, at } => self.at_observation(
                alloc, shelf, out, p, next, at,
            ),
            Stage::Tracks(after) => self.at_track(alloc, shelf, out, after),
            Stage::Tracklet { t, at } => self.in_track(alloc, shelf, out, t, at),
            Stage::Ended => Ok(()),
        }
    }

    fn begin<V: Shelf>(&mut self, alloc: Global, shelf: &V, out: &mut Bytes) -> Result<(), NoMemory>
        requires { self.old.stage ≡ Stage.Start }
        ensures ok { OnOk result (Steps (V.history shelf.now) self.old self.new out.old out.new) }
        ensures err { OnErr result ((self.new ≡ self.old) × (out.new ≡ out.old)) }
    {
        let principals = shelf.principals()?;
        push_made(out, front(alloc, shelf))?;
        self.principals = principals;
        self.stage = Stage::Objects(0);
        Ok(())
    }

    fn at_object<V: Shelf>(
        &mut self,
        alloc: Global,
        shelf: &V,
        out: &mut Bytes,
        at: u64,
    ) -> Result<(), NoMemory>
        requires { self.old.stage ≡ Stage.Objects at }
        ensures ok { OnOk result (Steps (V.history shelf.now) self.old self.new out.old out.new) }
        ensures err { OnErr result ((self.new ≡ self.old) × (out.new ≡ out.old)) }
    {
        let count = self.principals.len();
        match self.principals.get(at) {
            Some(p) if at < count => {
                let p = *p;
                self.enter_object(alloc, shelf, out, p, at + 1)
            }
            _ => {
                self.stage = Stage::Tracks(0);
                Ok(())
            }
        }
    }

    fn enter_object<V: Shelf>(
        &mut self,
        alloc: Global,
        shelf: &V,
        out: &mut Bytes,
        p: Designation,
        next: u64,
    ) -> Result<(), NoMemory>
        requires { (at : ℕ) × (self.old.stage ≡ Stage.Objects at)
            × (drop at self.old.principals ≡ p ∷ drop next self.old.principals) }
        ensures ok { OnOk result (Steps (V.history shelf.now) self.old self.new out.old out.new) }
        ensures err { OnErr result ((self.new ≡ self.old) × (out.new ≡ out.old)) }
    {
        let names = shelf.members(p)?;
        let observations = shelf.live(p)?;
        push_made(out, object_head(alloc, shelf, p, observations.len()))?;
        self.names = names;
        self.observations = observations;
        self.stage = Stage::Names { p, next, at: 0 };
        Ok(())
    }

    fn at_name<V: Shelf>(
        &mut self,
        alloc: Global,
        shelf: &V,
        out: &mut Bytes,
        p: Designation,
        next: u64,
        at: u64,
    ) -> Result<(), NoMemory>
        requires { self.old.stage ≡ Stage.Names p next at }
        ensures ok { OnOk result (Steps (V.history shelf.now) self.old self.new out.old out.new) }
        ensures err { OnErr result ((self.new ≡ self.old) × (out.new ≡ out.old)) }
    {
        let count = self.names.len();
        match self.names.get(at) {
            Some(d) if at < count => {
                push_made(out, name_text(alloc, p, *d))?;
                self.stage = Stage::Names {
                    p,
                    next,
                    at: at + 1,
                };
                Ok(())
            }
            _ => {
                self.stage = Stage::Observations { p, next, at: 0 };
                Ok(())
            }
        }
    }

    fn at_observation<V: Shelf>(
        &mut self,
        alloc: Global,
        shelf: &V,
        out: &mut Bytes,
        p: Designation,
        next: u64,
        at: u64,
    ) -> Result<(), NoMemory>
        requires { self.old.stage ≡ Stage.Observations p next at }
        ensures ok { OnOk result (Steps (V.history shelf.now) self.old self.new out.old out.new) }
        ensures err { OnErr result ((self.new ≡ self.old) × (out.new ≡ out.old)) }
    {
        let count = self.observations.len();
        match self.observations.get(at) {
            Some(k) if at < count => {
                push_made(out, object_line(alloc, shelf, p, *k))?;
                self.stage = Stage::Observations {
                    p,
                    next,
                    at: at + 1,
                };
                Ok(())
            }
            _ => {
                self.stage = Stage::Objects(next);
                Ok(())
            }
        }
    }

    fn at_track<V: Shelf>(
        &mut self,
        alloc: Global,
        shelf: &V,
        out: &mut Bytes,
        after: u64,
    ) -> Result<(), NoMemory>
        requires { self.old.stage ≡ Stage.Tracks after }
        ensures ok { OnOk result (Steps (V.history shelf.now) self.old self.new out.old out.new) }
        ensures err { OnErr result ((self.new ≡ self.old) × (out.new ≡ out.old)) }
    {
        if after < shelf.tracks() {
            return self.enter_track(alloc, shelf, out, after + 1);
        }
        out.extend_from_slice(b"end\n")?;
        self.stage = Stage::Ended;
        Ok(())
    }

    fn enter_track<V: Shelf>(
        &mut self,
        alloc: Global,
        shelf: &V,
        out: &mut Bytes,
        t: u64,
    ) -> Result<(), NoMemory>
        requires { (before : ℕ) × (self.old.stage ≡ Stage.Tracks before) × (t ≡ before + 1)
            × (t ≤ length (holdings (deeds (V.history shelf.now))).tracklets) }
        ensures ok { OnOk result (Steps (V.history shelf.now) self.old self.new out.old out.new) }
        ensures err { OnErr result ((self.new ≡ self.old) × (out.new ≡ out.old)) }
    {
        let observations = listed_in(alloc, shelf, t)?;
        push_made(out, track_head(alloc, shelf, t, !observations.is_empty()))?;
        self.observations = observations;
        self.stage = Stage::Tracklet { t, at: 0 };
        Ok(())
    }

    fn in_track<V: Shelf>(
        &mut self,
        alloc: Global,
        shelf: &V,
        out: &mut Bytes,
        t: u64,
        at: u64,
    ) -> Result<(), NoMemory>
        requires { self.old.stage ≡ Stage.Tracklet t at }
        ensures ok { OnOk result (Steps (V.history shelf.now) self.old self.new out.old out.new) }
        ensures err { OnErr result ((self.new ≡ self.old) × (out.new ≡ out.old)) }
    {
        let count = self.observations.len();
        match self.observations.get(at) {
            Some(k) if at < count => {
                push_made(out, track_line(alloc, shelf, t, *k))?;
                self.stage = Stage::Tracklet { t, at: at + 1 };
                Ok(())
            }
            _ => {
                self.stage = Stage::Tracks(t);
                Ok(())
            }
        }
    }
}
