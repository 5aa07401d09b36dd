//! Acts and queries: an act in doubt is mended first, then the act is worked out beside the office, kept in the
//! journal, and added.

ghost use Rattle.std.specs.Prelude.{◌≡◌, ◌⊎◌, ◌≤◌, Bool, true, false, ℕ, pos, List, length, Some, None, IfErr, IfOk};
ghost use Rattle.std.specs.Prelude.{IsSomeAnd};
ghost use Rattle.call_log.specs.Counts.{Rises};
ghost use Rattle.obs_time.specs.Instants.{IsInstantNs};
ghost use Rattle.act_model.specs.declared.request.TheConstants.{BODY_BYTES};
ghost use Rattle.act_model.specs.Conducts.{EitherWay, Extends};
ghost use Rattle.act_model.specs.Deeds.{deeds};
ghost use Rattle.act_model.specs.History.{EachNumberOnce};
ghost use Rattle.mpc_desk.specs.Disks.{disk_words};
ghost use Rattle.mpc_desk.specs.Files.{parcel_of};
ghost use Rattle.comet_model.specs.declared.reply.CometRefusal.{CometRefusal};
ghost use Rattle.comet_model.specs.declared.reply.CometRefusal.TheVariants.{DiskFault};
ghost use Rattle.comet_model.specs.declared.reply.CometReply.TheVariants.{Done, Refused};
ghost use Rattle.comet_model.specs.Conducts.{IsAcknowledged};
ghost use Rattle.comet_model.specs.Requests.{is_act};
ghost use Rattle.comet_model.specs.Step.{Adds, Refuses, outcome};
ghost use Rattle.comet_model.specs.Unbroken.{UnbrokenNames};
ghost use Rattle.comet_core.specs.Preparing.{announcement};
ghost use Rattle.comet_desk.specs.Desks.{IsBeside, IsAtRest, ActsInTurn, TakesTurn, TakesAct};
ghost use Rattle.comet_desk.specs.Events.{IsAct, IsQuery};

use crate::desk::{CometDesk, let_go_act};
use act_model::{Entry, Shelf};
use comet_core::Prep;
use comet_model::{CometRefusal, CometReply, CometRequest};
use disk_model::Disk;
use obs_journal::{AppendFault, NoMemory, Parcel};
use obs_time::Instant;
use std::alloc::Global;

/// The parcel of an entry, whose body is one that a request may have.
///
/// # Errors
///
/// Memory was refused.
fn parcel_of(alloc: Global, entry: &Entry) -> Result<Parcel, NoMemory>
    requires short { length entry.now.body ≤ BODY_BYTES }
    ensures { IfOk result (λ parcel. parcel ≡ parcel_of entry.now) }
{
    Parcel::make(
        alloc,
        entry.caller,
        entry.number,
        entry.moment.ns(),
        entry.verb.code(),
        entry.body.as_slice(),
    )
}

impl<D: Disk> CometDesk<D> {
    /// Takes the turn of an act at this reading of the clock, beside an office that is read. An act in doubt is mended
    /// first; then the request is worked out at the entries that mending left, and its entry is kept in the journal and
    /// added. It takes memory, but none once anything was written.
    ///
    /// The request has the verb `comet`, and the register is one beside the office: the office's history is that of the
    /// last act, or of the opening, or a longer one. Answers `DiskFault` where the disk failed: `untouched` where the
    /// act in doubt could not be mended, or the entry isn't kept; `doubt` exactly where this call's own parcel was left
    /// in doubt. Any other answer is that of the step at the entries after mending, or that memory was refused.
    pub fn act<V: Shelf>(
        &mut self,
        shelf: &V,
        request: &CometRequest,
        reading: Instant,
    ) -> CometReply
        requires act { is_act request.now.verb ≡ true }
        requires beside { IsBeside (deeds (V.history shelf.now)) self.old }

        ensures turn { TakesTurn D.faults (deeds (V.history shelf.now)) self.old request.now (Some reading) result
            self.new }
        // A crash at any moment of the call leaves a file that stands for the entries before it, for these with the act
        // in doubt, or for the entries after mending with the one that the act becomes there.
        ensures inside { ActsInTurn D.moment D.since D.faults (deeds (V.history shelf.now)) (record {
          old = self.old;
          request = request.now;
          reading = reading;
          reply = result;
          new = self.new;
        }) }
        ensures at_rest { IsAtRest D.leaves self.new }

        // An act that is answered is among the settled entries, under its number; and its answer is that entry's.
        ensures acknowledged { (text : List ℕ) → result ≡ Done text →
            IsAcknowledged (deeds (V.history shelf.now)) request.now text self.new.state.settled }
        // The disk failed in this call; and where the answer is that the act is in doubt, it is this request's own.
        ensures cause { (doubt : Bool) → result ≡ Refused (DiskFault doubt) →
            Rises (D.faults self.old.disk) (D.faults self.new.disk) }
        ensures doubt { result ≡ Refused (DiskFault true) → IsSomeAnd self.new.state.doubt (λ entry.
            outcome self.old.founder (Some self.old.limit) (deeds (V.history shelf.now)) self.new.state.settled
            request.now reading ≡ Adds entry) }
        // What is refused without memory is refused so, unless an act in doubt could not be mended.
        ensures announced { IfErr (announcement request.now) (λ refusal. (result ≡ Refused refusal)
            ⊎ ((result ≡ Refused (DiskFault false)) × (self.new.state ≡ self.old.state))) }

        // The register is legal beside the office, with the act in doubt and without; each number acts at most once;
        // the comets of each half-month are numbered without gap or repeat, and no designation has two. What was
        // settled stays.
        ensures beside { IsBeside (deeds (V.history shelf.now)) self.new }
        ensures once { EitherWay EachNumberOnce self.new.state }
        ensures names { UnbrokenNames (deeds (V.history shelf.now)) self.new.state.settled }
        ensures grows { Extends self.old.state.settled self.new.state.settled }

        ensures founder { self.new.founder ≡ self.old.founder }
        ensures limit { self.new.limit ≡ self.old.limit }
        ensures counts { D.faults self.old.disk ≤ D.faults self.new.disk }
        ensures event { IsAct (disk_words D.reads D.leaves D.moment D.since D.faults) (deeds (V.history shelf.now))
            (record {
              old = self.old;
              request = request.now;
              reading = reading;
              reply = result;
              new = self.new;
            }) }
    {
        comet_model::laws::numbers_once();
        comet_model::laws::unbroken_names();
        comet_model::laws::registers_grow();
        self.mend_and_act(shelf, request, reading)
    }

    /// Answers a query, a request whose verb isn't `comet`, from the settled entries and the office that is read. No
    /// device is called. It takes memory.
    ///
    /// The register is one beside the office, as for an act. A refusal is exact: it comes where the request meets it,
    /// and memory is refused in no other's place.
    pub fn ask<V: Shelf>(&self, shelf: &V, request: &CometRequest) -> CometReply
        requires query { is_act request.now.verb ≡ false }
        requires beside { IsBeside (deeds (V.history shelf.now)) self.now }
        ensures turn { TakesTurn D.faults (deeds (V.history shelf.now)) self.now request.now None result self.now }
        ensures refused { (refusal : CometRefusal) →
            outcome self.now.founder (Some self.now.limit) (deeds (V.history shelf.now)) self.now.state.settled
            request.now (pos 0) ≡ Refuses refusal → result ≡ Refused refusal }
        ensures event { IsQuery (disk_words D.reads D.leaves D.moment D.since D.faults) (deeds (V.history shelf.now))
            self.now request.now result }
    {
        self.register.ask(self.alloc, shelf, request)
    }

    /// Mends an act in doubt, and then takes the act.
    fn mend_and_act<V: Shelf>(
        &mut self,
        shelf: &V,
        request: &CometRequest,
        reading: Instant,
    ) -> CometReply
        requires act { is_act request.now.verb ≡ true }
        requires beside { IsBeside (deeds (V.history shelf.now)) self.old }
        ensures turn { TakesTurn D.faults (deeds (V.history shelf.now)) self.old request.now (Some reading) result
            self.new }
        ensures inside { ActsInTurn D.moment D.since D.faults (deeds (V.history shelf.now)) (record {
          old = self.old;
          request = request.now;
          reading = reading;
          reply = result;
          new = self.new;
        }) }
        ensures at_rest { IsAtRest D.leaves self.new }
        ensures acknowledged { (text : List ℕ) → result ≡ Done text →
            IsAcknowledged (deeds (V.history shelf.now)) request.now text self.new.state.settled }
        ensures cause { (doubt : Bool) → result ≡ Refused (DiskFault doubt) →
            Rises (D.faults self.old.disk) (D.faults self.new.disk) }
        ensures doubt { result ≡ Refused (DiskFault true) → IsSomeAnd self.new.state.doubt (λ entry.
            outcome self.old.founder (Some self.old.limit) (deeds (V.history shelf.now)) self.new.state.settled
            request.now reading ≡ Adds entry) }
        ensures announced { IfErr (announcement request.now) (λ refusal. (result ≡ Refused refusal)
            ⊎ ((result ≡ Refused (DiskFault false)) × (self.new.state ≡ self.old.state))) }
        ensures beside { IsBeside (deeds (V.history shelf.now)) self.new }
        ensures founder { self.new.founder ≡ self.old.founder }
        ensures limit { self.new.limit ≡ self.old.limit }
        ensures counts { D.faults self.old.disk ≤ D.faults self.new.disk }
    {
        comet_model::laws::acknowledged_acts_are_kept();
        comet_model::laws::disk_faults_have_a_cause();
        // A reading is a moment of the years 1800 to 2199.
        let _ = reading.ns();
        match self.mend() {
            Ok(_) => self.act_settled(shelf, request, reading),
            Err(_) => CometReply::Refused(CometRefusal::DiskFault { doubt: false }),
        }
    }

    /// Takes an act where nothing is in doubt.
    fn act_settled<V: Shelf>(
        &mut self,
        shelf: &V,
        request: &CometRequest,
        reading: Instant,
    ) -> CometReply
        requires act { is_act request.now.verb ≡ true }
        requires reading { IsInstantNs reading }
        requires settled { self.old.state.doubt ≡ None }
        requires beside { IsBeside (deeds (V.history shelf.now)) self.old }
        ensures takes { TakesAct D.moment D.since D.faults (deeds (V.history shelf.now)) (record {
          old = self.old;
          request = request.now;
          reading = reading;
          reply = result;
          new = self.new;
        }) }
        ensures announced { IfErr (announcement request.now) (λ refusal. result ≡ Refused refusal) }
        ensures beside { IsBeside (deeds (V.history shelf.now)) self.new }
        ensures founder { self.new.founder ≡ self.old.founder }
        ensures limit { self.new.limit ≡ self.old.limit }
        ensures at_rest { IsAtRest D.leaves self.new }
        ensures counts { D.faults self.old.disk ≤ D.faults self.new.disk }
    {
        comet_model::laws::registers_are_legal();
        obs_journal::laws::doubtful_chain();
        let limit = Some(self.limit);
        let prepared = match self
            .register
            .prepare(self.alloc, shelf, limit, request, reading)
        {
            Prep::Kept(reply) => return reply,
            Prep::Refused(refusal) => return CometReply::Refused(refusal),
            Prep::Ready(prepared) => prepared,
        };
        let Ok(parcel) = parcel_of(self.alloc, prepared.entry()) else {
            let_go_act(Some(prepared));
            return CometReply::Refused(CometRefusal::NoMemory);
        };
        match self.journal.append(parcel) {
            Ok(()) => self.register.commit(prepared),
            Err(AppendFault::Untouched) => {
                let_go_act(Some(prepared));
                CometReply::Refused(CometRefusal::DiskFault { doubt: false })
            }
            Err(AppendFault::InDoubt) => {
                self.doubt = Some(prepared);
                CometReply::Refused(CometRefusal::DiskFault { doubt: true })
            }
        }
    }
}
