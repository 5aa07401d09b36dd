//! The register in memory.

ghost use Rattle.std.specs.Prelude.{◌≡◌, ◌<◌, ◌^◌, ◌∷◌, List, [], length, IfOk, IfErr, IfSome, OnOk, true};
ghost use Rattle.ordered_list.specs.Contents.{UsesOne};
ghost use Rattle.act_model.specs.declared.deed.Deed.{Deed};
ghost use Rattle.act_model.specs.Deeds.{deeds};
ghost use Rattle.act_model.specs.Refusals.{bytes_used};
ghost use Rattle.comet_model.specs.Legal.{IsLegal};
ghost use Rattle.comet_model.specs.Requests.{is_act};
ghost use Rattle.comet_model.specs.Step.{outcome};
ghost use Rattle.comet_core.specs.Register.{IsOver, IsNext, IsReadyAt};
ghost use Rattle.comet_core.specs.Preparing.{announcement, Prepares};

use crate::book::Book;
use crate::comets::Comets;
use crate::prepared::{Prep, Prepared};
use act_model::{Key, Shelf};
use comet_model::{CometReply, CometRequest};
use item_list::NoMemory;
use obs_time::Instant;
use std::alloc::Global;
use std::marker::Model;

/// The register in memory: the founding officer's key, and the entries that were accepted, with the comets that they
/// name.
///
/// Contracts see the key, the entries and the comets, the newest first, and for how many more entries there is room.
#[derive(Debug, Drop)]
pub struct Register {
    founder: Key,
    book: Book,
    comets: Comets,
}

impl Model for Register {
    ghost use Rattle.std.specs.Prelude.{min};
    ghost use Rattle.comet_core.specs.Register.{RegisterValue};

    ghost Value = { RegisterValue };

    ghost view = { λ r. record {
      founder = r.founder;
      entries = r.book.items;
      comets = r.comets.items;
      room = min r.book.room r.comets.room;
    } };
}

impl Register {
    /// A register without entries, kept by the founding officer with this key.
    ///
    /// # Errors
    ///
    /// Memory was refused.
    pub fn new(alloc: Global, founder: Key) -> Result<Register, NoMemory>
        ensures founder { IfOk result (λ register. register.founder ≡ founder) }
        ensures entries { IfOk result (λ register. register.entries ≡ []) }
        ensures comets { IfOk result (λ register. register.comets ≡ []) }
    {
        Ok(Register {
            founder,
            book: Book::new(alloc)?,
            comets: Comets::new(alloc)?,
        })
    }

    /// How many entries there are, which is the receipt of the newest one.
    pub fn entries(&self) -> u64
        ensures { result ≡ length self.now.entries }
    {
        self.book.as_slice().len() as u64
    }

    /// Works out what becomes of an act at this moment, beside an office that is read, and takes the memory for it. The
    /// register stays.
    ///
    /// The request has the verb of an act. The reading is the clock's, and may be before the last entry's moment. The
    /// limit is how many bytes the journal may have, if it has one; then the bytes that the entries take are fewer than
    /// 2 ^ 64. Answers `Kept` only where the number was used, with the reply that is kept for it; `Refused` with the
    /// first refusal that the request meets in the register's table, or with `NoMemory` where memory was refused for
    /// reading the body, for a reply or for an entry; else `Ready` with the entry and its answer. A body that is too
    /// large, a verb that names nothing and a number that can't be are refused without memory.
    pub fn prepare<V: Shelf>(
        &mut self,
        alloc: Global,
        shelf: &V,
        limit: Option<u64>,
        request: &CometRequest,
        reading: Instant,
    ) -> Prep
        requires act { is_act request.now.verb ≡ true }
        requires over { IsOver (deeds (V.history shelf.now)) self.old }
        requires space { IfSome limit (λ _. bytes_used self.old.entries < 2 ^ 64) }
        ensures answer { Prepares limit (deeds (V.history shelf.now)) self.old.entries self.old.comets self.new.room
            (outcome self.old.founder limit (deeds (V.history shelf.now)) self.old.entries request.now reading) result }
        ensures announced { IfErr (announcement request.now) (λ refusal. result ≡ Prep.Refused refusal) }
        ensures entries { self.new.entries ≡ self.old.entries }
        ensures comets { self.new.comets ≡ self.old.comets }
        ensures founder { self.new.founder ≡ self.old.founder }
    {
        match self.try_prepare(alloc, shelf, limit, request, reading) {
            Ok(prep) => prep,
            Err(refusal) => Prep::Refused(refusal),
        }
    }

    /// Adds the entry of an act, and gives the act's answer. It takes no memory: the room that `prepare` left is used,
    /// and no more is taken.
    pub fn commit(&mut self, prepared: Prepared) -> CometReply
        requires next { IsNext self.old.comets prepared.named }
        requires room { 0 < self.old.room }
        ensures reply { result ≡ CometReply.Done prepared.answer }
        ensures entries { self.new.entries ≡ prepared.entry ∷ self.old.entries }
        ensures comets { self.new.comets ≡ prepared.named ∷ self.old.comets }
        ensures over { (desk : List Deed) → IsOver desk self.old →
            IsReadyAt desk self.old.entries self.old.comets prepared →
            IsLegal self.old.founder desk (prepared.entry ∷ self.old.entries) → IsOver desk self.new }
        ensures founder { self.new.founder ≡ self.old.founder }
        ensures room { UsesOne self.old.room self.new.room }
    {
        let (entry, named, answer) = prepared.into_parts();
        self.book.push(entry);
        self.comets.push(named);
        CometReply::Done(answer)
    }

    // ---- what is kept, for the crate's own use

    /// The founding officer's key.
    pub(crate) fn founder(&self) -> &Key
        ensures { result.now ≡ self.now.founder }
    {
        &self.founder
    }

    /// The entries.
    pub(crate) fn book(&self) -> &Book
        ensures { result.now.items ≡ self.now.entries }
    {
        &self.book
    }

    /// The comets.
    pub(crate) fn comets(&self) -> &Comets
        ensures { result.now.items ≡ self.now.comets }
    {
        &self.comets
    }

    /// Takes the memory for one more entry. No room that there was is given up.
    pub(crate) fn reserve(&mut self) -> Result<(), NoMemory>
        ensures room { OnOk result (0 < self.new.room) }
        ensures entries { self.new.entries ≡ self.old.entries }
        ensures comets { self.new.comets ≡ self.old.comets }
        ensures founder { self.new.founder ≡ self.old.founder }
    {
        self.book.reserve()?;
        self.comets.reserve()
    }
}
