//! Entries that come again, as a journal kept them.

ghost use Rattle.std.specs.Prelude.{◌≡◌, ◌<◌, ◌∷◌, ◌↔◌, true, None, IfOk, IsTrue, IsErrOf, OnOk, OnErr};
ghost use Rattle.act_model.specs.declared.entry.Entry.{Entry};
ghost use Rattle.act_model.specs.Deeds.{deeds};
ghost use Rattle.act_model.specs.Rows.{first_row};
ghost use Rattle.comet_model.specs.declared.request.CometVerb.TheVariants.{Comet};
ghost use Rattle.comet_model.specs.Hearing.{size_rows, is_number_of};
ghost use Rattle.comet_model.specs.Legal.{IsAdded};
ghost use Rattle.comet_model.specs.Register.{new_entry};
ghost use Rattle.comet_core.specs.Register.{IsOver, IsNext, IsReadyAt};
ghost use Rattle.comet_core.specs.Replaying.{HasFields, MayFollow};
ghost use Rattle.obs_time.specs.Instants.{IsInstantNs};

use crate::prepared::{Prep, Prepared};
use crate::register::Register;
use act_bodies::BodyFault;
use act_model::{BODY_BYTES, BODY_LINES, Shelf, line_feeds};
use comet_model::{CometRefusal, CometVerb, claimed, read_naming};
use obs_time::Instant;
use std::alloc::Global;
use std::error::Error;
use std::fmt;
use std::fmt::{Display, Formatter};

/// Why an entry was not taken in again.
#[derive(Clone, Copy, Debug, PartialEq, Eq)]
pub enum ReplayFault {
    /// The register would not have made this entry where it stands.
    NotLegal,
    /// Memory was refused.
    NoMemory,
}

impl Display for ReplayFault {
    fn fmt<W: fmt::Write>(&self, f: &mut Formatter<W>) -> fmt::Result {
        f.pad(match self {
            ReplayFault::NotLegal => "the entry is not one that the register would have made there",
            ReplayFault::NoMemory => "out of memory",
        })
    }
}

impl Error for ReplayFault {}

/// The caller's number and the code of the verb that each entry of a register has.
fn is_founders_act(caller: u32, code: u8) -> bool
    ensures { IsTrue result ↔ (caller ≡ 0) × (code ≡ 1) }
{
    caller == 0 && code == 1
}

/// Whether a body is small enough.
fn is_small(body: &[u8]) -> bool
    ensures { IsTrue result ↔ (first_row (size_rows body.now) ≡ None) }
{
    body.len() as u64 <= BODY_BYTES && line_feeds(body) <= BODY_LINES
}

/// Whether an act may have this number.
fn is_act_number(number: u64) -> bool
    ensures { IsTrue result ↔ (is_number_of Comet number ≡ true) }
{
    claimed(CometVerb::Comet, Some(number)).is_ok()
}

/// Why an act that was refused is no entry of a legal register.
fn fault_of(refusal: &CometRefusal) -> ReplayFault
    ensures { result ≡ ReplayFault.NoMemory ↔ refusal.now ≡ CometRefusal.NoMemory }
{
    match refusal {
        CometRefusal::NoMemory => ReplayFault::NoMemory,
        _ => ReplayFault::NotLegal,
    }
}

impl Register {
    /// Whether an act with this number and body may come next at this moment, as far as is seen without the meaning of
    /// its body. No memory is taken for it.
    fn may_follow(&self, number: u64, moment: Instant, body: &[u8]) -> bool
        ensures { IsTrue result ↔ MayFollow self.now.entries (new_entry number body.now moment) }
    {
        is_small(body)
            && is_act_number(number)
            && self.book().find(number).is_none()
            && self.book().next_moment(moment).ns() == moment.ns()
    }

    /// The act with this number and body, ready to become the next entry at this moment, as far as its body lets it.
    fn come_again<V: Shelf>(
        &mut self,
        alloc: Global,
        shelf: &V,
        number: u64,
        moment: Instant,
        body: &[u8],
    ) -> Result<Prepared, ReplayFault>
        requires over { IsOver (deeds (V.history shelf.now)) self.old }
        requires instant { IsInstantNs moment }
        requires follows { MayFollow self.old.entries (new_entry number body.now moment) }
        ensures entry { IfOk result (λ ready. ready.entry ≡ new_entry number body.now moment) }
        ensures added { IfOk result (λ ready.
            IsAdded self.old.founder (deeds (V.history shelf.now)) self.old.entries ready.entry) }
        ensures at { IfOk result (IsReadyAt (deeds (V.history shelf.now)) self.new.entries self.new.comets) }
        ensures next { IfOk result (λ ready. IsNext self.new.comets ready.named) }
        ensures room { OnOk result (0 < self.new.room) }
        ensures not_legal { IsErrOf result ReplayFault.NotLegal → IsAdded self.old.founder
            (deeds (V.history shelf.now)) self.old.entries (new_entry number body.now moment) → ⊥ }
        ensures entries { self.new.entries ≡ self.old.entries }
        ensures comets { self.new.comets ≡ self.old.comets }
        ensures founder { self.new.founder ≡ self.old.founder }
    {
        let naming = match read_naming(alloc, body) {
            Ok(naming) => naming,
            Err(BodyFault::Unread) => return Err(ReplayFault::NotLegal),
            Err(BodyFault::NoMemory) => return Err(ReplayFault::NoMemory),
        };
        match self.prepare_new(alloc, shelf, None, number, naming, body, moment) {
            Ok(Prep::Ready(prepared)) => Ok(prepared),
            Ok(Prep::Kept(_)) => Err(ReplayFault::NotLegal),
            Ok(Prep::Refused(refusal)) => Err(fault_of(&refusal)),
            Err(refusal) => Err(fault_of(&refusal)),
        }
    }

    /// Adds the entry of these fields, if the register would have made it where it stands, beside an office that is
    /// read: its caller is 0, the founding officer, its moment one that a clock gives, in nanoseconds since 1970, its
    /// verb's code 1, and the act under its number and with its body becomes this very entry at that moment. The entry
    /// is worked out as any other. How many bytes a journal may have plays no part.
    ///
    /// # Errors
    ///
    /// `NotLegal` exactly where the register would not have made this entry, and `NoMemory` where memory was refused:
    /// never for an entry that can't come next by its caller, its code, its moment, its number or its body's size. The
    /// register is then as it was.
    pub fn replay<V: Shelf>(
        &mut self,
        alloc: Global,
        shelf: &V,
        caller: u32,
        number: u64,
        moment: i64,
        code: u8,
        body: &[u8],
    ) -> Result<(), ReplayFault>
        requires over { IsOver (deeds (V.history shelf.now)) self.old }
        ensures added { OnOk result ((entry : Entry) × HasFields caller number moment code body.now entry
            × IsAdded self.old.founder (deeds (V.history shelf.now)) self.old.entries entry
            × (self.new.entries ≡ entry ∷ self.old.entries)) }
        ensures not_legal { IsErrOf result ReplayFault.NotLegal → (entry : Entry) →
            HasFields caller number moment code body.now entry →
            IsAdded self.old.founder (deeds (V.history shelf.now)) self.old.entries entry → ⊥ }
        ensures no_memory { IsErrOf result ReplayFault.NoMemory → (entry : Entry)
            × HasFields caller number moment code body.now entry × IsInstantNs entry.moment
            × MayFollow self.old.entries entry }
        ensures as_before { OnErr result (self.new.entries ≡ self.old.entries) }
        ensures over { IsOver (deeds (V.history shelf.now)) self.new }
        ensures founder { self.new.founder ≡ self.old.founder }
    {
        let Some(moment) = Instant::new(moment) else {
            return Err(ReplayFault::NotLegal);
        };
        if !is_founders_act(caller, code) {
            return Err(ReplayFault::NotLegal);
        }
        if !self.may_follow(number, moment, body) {
            return Err(ReplayFault::NotLegal);
        }
        match self.come_again(alloc, shelf, number, moment, body) {
            Ok(prepared) => {
                self.commit(prepared);
                Ok(())
            }
            Err(fault) => Err(fault),
        }
    }
}
