//! What becomes of an act, worked out question by question, with the memory for it.

ghost use Rattle.std.specs.Prelude.{◌≡◌, ◌+◌, ◌<◌, ◌^◌, true, Some, Ok, Err, IfOk, IfErr, IfSome, IfNone, OnOk};
ghost use Rattle.std.specs.Prelude.{bytes_eq, length, slice_get};
ghost use Rattle.act_model.specs.declared.entry.Entry.{Entry};
ghost use Rattle.act_model.specs.Deeds.{deeds};
ghost use Rattle.act_model.specs.History.{Kept, numbered_entry};
ghost use Rattle.act_model.specs.Refusals.{bytes_used};
ghost use Rattle.act_model.specs.Rows.{first_row};
ghost use Rattle.comet_model.specs.declared.named.NamedComet.{NamedComet};
ghost use Rattle.comet_model.specs.Namings.{naming_of};
ghost use Rattle.comet_model.specs.Refusals.{names, room_rows};
ghost use Rattle.comet_model.specs.Register.{named_by, new_entry};
ghost use Rattle.comet_model.specs.Requests.{is_act};
ghost use Rattle.comet_model.specs.Step.{outcome, kept_reply, names_within, unless_refused, act_step};
ghost use Rattle.comet_core.specs.Book.{place_of};
ghost use Rattle.comet_core.specs.Register.{IsOver, IsReadyAt, IsNext};
ghost use Rattle.comet_core.specs.Preparing.{announcement, IsWithin, IsPrepared};

use crate::book::entry_size;
use crate::prepared::{Prep, Prepared};
use crate::register::Register;
use act_model::{Entry, Shelf, Verb};
use comet_model::{
    CometAsked, CometRefusal, CometReply, CometRequest, NamedComet, Naming, bytes_in, comet_answer,
    half_in, hear, look_up, named_in,
};
use item_list::{Bytes, NoMemory};
use obs_time::Instant;
use std::alloc::Global;

/// Whether the request of these bytes is the one that became the entry at this place.
fn is_resent(entries: &[Entry], place: usize, bytes: &[u8]) -> bool
    requires { place < length entries.now }
    ensures { (entry : Entry) → slice_get entries.now place ≡ Some entry → result ≡ bytes_eq bytes.now entry.body }
{
    bytes == entries[place].body.as_slice()
}

/// The receipt of the entry at this place.
fn receipt_at(entries: &[Entry], place: usize) -> u64
    requires { place < length entries.now }
    ensures { result ≡ place + 1 }
{
    place as u64 + 1
}

/// The comet at this place.
fn comet_at(named: &[NamedComet], place: usize) -> NamedComet
    requires { place < length named.now }
    ensures { (comet : NamedComet) → slice_get named.now place ≡ Some comet → result ≡ comet }
{
    named[place]
}

impl Register {
    /// The name that a naming gives next, or the first refusal that it meets. No memory is taken for it.
    #[tactic(auto, unfolding(comet_model::specs::Refusals::names))]
    fn name<V: Shelf>(&self, shelf: &V, naming: Naming) -> Result<NamedComet, CometRefusal>
        ensures { result ≡ names (deeds (V.history shelf.now)) self.now.comets naming }
    {
        let comets = self.comets();
        match half_in(naming.object, look_up(shelf, naming.object)) {
            Ok(half) => named_in(
                naming,
                half,
                comets.comet_of(naming.object),
                u64::from(comets.count_in(half)),
            ),
            Err(refusal) => Err(refusal),
        }
    }

    /// The refusal of an entry for which a journal with this limit has no room.
    fn full_refusal(&self, limit: Option<u64>, body: &[u8]) -> Option<CometRefusal>
        requires space { IfSome limit (λ _. bytes_used self.now.entries < 2 ^ 64) }
        ensures row { result ≡ first_row (room_rows limit self.now.entries body.now) }
        ensures within { IfNone result (IsWithin limit self.now.entries body.now) }
    {
        let limit = limit?;
        let used = self.book().used();
        let more = entry_size(body);
        if u128::from(used) + u128::from(more) > u128::from(limit) {
            return Some(CometRefusal::JournalFull { used, more, limit });
        }
        None
    }

    /// The name that a naming gives next, where the journal has room for its entry. No memory is taken for it.
    fn name_within<V: Shelf>(
        &self,
        shelf: &V,
        limit: Option<u64>,
        naming: Naming,
        bytes: &[u8],
    ) -> Result<NamedComet, CometRefusal>
        requires over { IsOver (deeds (V.history shelf.now)) self.now }
        requires space { IfSome limit (λ _. bytes_used self.now.entries < 2 ^ 64) }
        ensures exact { result
            ≡ names_within limit (deeds (V.history shelf.now)) self.now.entries bytes.now naming }
        ensures given { IfOk result (λ named.
            names (deeds (V.history shelf.now)) self.now.comets naming ≡ Ok named) }
        ensures within { IfOk result (λ _. IsWithin limit self.now.entries bytes.now) }
    {
        let named = match self.name(shelf, naming) {
            Ok(named) => named,
            Err(refusal) => return Err(refusal),
        };
        match self.full_refusal(limit, bytes) {
            Some(refusal) => Err(refusal),
            None => Ok(named),
        }
    }

    /// The reply to an act under a number that stands for the entry at this place: to the request that became the entry
    /// the entry's own answer, and to another one a refusal.
    ///
    /// # Errors
    ///
    /// Memory was refused.
    fn reply_again<V: Shelf>(
        &self,
        alloc: Global,
        _shelf: &V,
        number: u64,
        place: usize,
        bytes: &[u8],
    ) -> Result<CometReply, NoMemory>
        requires over { IsOver (deeds (V.history _shelf.now)) self.now }
        requires used { Some place ≡ place_of self.now.entries number }
        ensures { IfOk result (λ reply. (k : Kept) → numbered_entry self.now.entries 0 number ≡ Some k →
            reply ≡ kept_reply (deeds (V.history _shelf.now)) bytes.now k) }
    {
        comet_model::laws::each_entry_names();
        let entries = self.book().as_slice();
        let receipt = receipt_at(entries, place);
        if !is_resent(entries, place, bytes) {
            return Ok(CometReply::Refused(CometRefusal::OtherRequest { receipt }));
        }
        let named = comet_at(self.comets().as_slice(), place);
        let text = comet_answer(alloc, receipt, named.comet)?;
        Ok(CometReply::Done(text))
    }

    /// An entry that names this comet, with its answer, and room for it.
    fn ready<V: Shelf>(
        &mut self,
        alloc: Global,
        _shelf: &V,
        entry: Entry,
        named: NamedComet,
    ) -> Result<Prepared, NoMemory>
        requires over { IsOver (deeds (V.history _shelf.now)) self.old }
        requires founder { entry.caller ≡ 0 }
        requires named { named_by (deeds (V.history _shelf.now)) self.old.comets entry ≡ Some named }
        ensures entry { IfOk result (λ ready. ready.entry ≡ entry) }
        ensures at { IfOk result (IsReadyAt (deeds (V.history _shelf.now)) self.old.entries self.old.comets) }
        ensures next { IfOk result (λ ready. IsNext self.old.comets ready.named) }
        ensures room { OnOk result (0 < self.new.room) }
        ensures entries { self.new.entries ≡ self.old.entries }
        ensures comets { self.new.comets ≡ self.old.comets }
        ensures founder { self.new.founder ≡ self.old.founder }
    {
        packed_names::laws::orders();
        comet_model::laws::names_are_comets();
        comet_model::laws::unbroken_names();
        let answer = comet_answer(alloc, self.book().next_receipt(), named.comet)?;
        self.reserve()?;
        Ok(Prepared::new(entry, named, answer))
    }

    /// What becomes of an act under a number that was not used, at this moment.
    pub(crate) fn prepare_new<V: Shelf>(
        &mut self,
        alloc: Global,
        shelf: &V,
        limit: Option<u64>,
        number: u64,
        naming: Naming,
        bytes: &[u8],
        moment: Instant,
    ) -> Result<Prep, CometRefusal>
        requires over { IsOver (deeds (V.history shelf.now)) self.old }
        requires space { IfSome limit (λ _. bytes_used self.old.entries < 2 ^ 64) }
        requires read { naming_of bytes.now ≡ Some naming }
        ensures answer { IsPrepared limit (deeds (V.history shelf.now)) self.old.entries self.old.comets self.new.room
            (unless_refused (names_within limit (deeds (V.history shelf.now)) self.old.entries bytes.now naming)
            (new_entry number bytes.now moment)) result }
        ensures entries { self.new.entries ≡ self.old.entries }
        ensures comets { self.new.comets ≡ self.old.comets }
        ensures founder { self.new.founder ≡ self.old.founder }
    {
        let named = match self.name_within(shelf, limit, naming, bytes) {
            Ok(named) => named,
            Err(refusal) => return Err(refusal),
        };
        let Ok(body) = Bytes::from_slice(alloc, bytes) else {
            return Err(CometRefusal::NoMemory);
        };
        let entry = Entry {
            caller: 0,
            number,
            moment,
            verb: Verb::Enrol,
            body,
        };
        match self.ready(alloc, shelf, entry, named) {
            Ok(prepared) => Ok(Prep::Ready(prepared)),
            Err(_) => Err(CometRefusal::NoMemory),
        }
    }

    /// What becomes of an act that was heard, at this moment.
    fn prepare_naming<V: Shelf>(
        &mut self,
        alloc: Global,
        shelf: &V,
        limit: Option<u64>,
        number: u64,
        naming: Naming,
        bytes: &[u8],
        moment: Instant,
    ) -> Result<Prep, CometRefusal>
        requires over { IsOver (deeds (V.history shelf.now)) self.old }
        requires space { IfSome limit (λ _. bytes_used self.old.entries < 2 ^ 64) }
        requires read { naming_of bytes.now ≡ Some naming }
        ensures answer { IsPrepared limit (deeds (V.history shelf.now)) self.old.entries self.old.comets self.new.room
            (act_step limit (deeds (V.history shelf.now)) self.old.entries number naming bytes.now moment) result }
        ensures entries { self.new.entries ≡ self.old.entries }
        ensures comets { self.new.comets ≡ self.old.comets }
        ensures founder { self.new.founder ≡ self.old.founder }
    {
        let Some(place) = self.book().find(number) else {
            return self.prepare_new(alloc, shelf, limit, number, naming, bytes, moment);
        };
        match self.reply_again(alloc, shelf, number, place, bytes) {
            Ok(reply) => Ok(Prep::Kept(reply)),
            Err(_) => Err(CometRefusal::NoMemory),
        }
    }

    /// What becomes of an act, where a refusal is an error.
    pub(crate) fn try_prepare<V: Shelf>(
        &mut self,
        alloc: Global,
        shelf: &V,
        limit: Option<u64>,
        request: &CometRequest,
        reading: Instant,
    ) -> Result<Prep, CometRefusal>
        requires act { is_act request.now.verb ≡ true }
        requires over { IsOver (deeds (V.history shelf.now)) self.old }
        requires space { IfSome limit (λ _. bytes_used self.old.entries < 2 ^ 64) }
        ensures answer { IsPrepared limit (deeds (V.history shelf.now)) self.old.entries self.old.comets self.new.room
            (outcome self.old.founder limit (deeds (V.history shelf.now)) self.old.entries request.now reading) result }
        ensures announced { IfErr (announcement request.now) (λ refusal. result ≡ Err refusal) }
        ensures entries { self.new.entries ≡ self.old.entries }
        ensures comets { self.new.comets ≡ self.old.comets }
        ensures founder { self.new.founder ≡ self.old.founder }
    {
        let bytes = match bytes_in(&request.body) {
            Ok(bytes) => bytes,
            Err(refusal) => return Err(refusal),
        };
        let heard = match hear(alloc, self.founder(), request, bytes) {
            Ok(heard) => heard,
            Err(refusal) => return Err(refusal),
        };
        let moment = self.book().next_moment(reading);
        match heard.asked {
            CometAsked::Names(naming) => {
                self.prepare_naming(alloc, shelf, limit, heard.number, naming, bytes, moment)
            }
            CometAsked::Register | CometAsked::Translate => unreachable!("an act names a comet"),
        }
    }
}
