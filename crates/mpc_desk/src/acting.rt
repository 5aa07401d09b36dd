//! Acts: an act in doubt is mended first, then the act is worked out, kept in the journal, and added.

ghost use Rattle.std.specs.Prelude.{◌≡◌, ◌≤◌, Bool, true, false, ℕ, List, Some, None, IsSomeAnd};
ghost use Rattle.call_log.specs.Counts.{Rises};
ghost use Rattle.obs_time.specs.Instants.{IsInstantNs};
ghost use Rattle.act_model.specs.declared.entry.Entry.{Entry};
ghost use Rattle.act_model.specs.declared.reply.Refusal.TheVariants.{DiskFault};
ghost use Rattle.act_model.specs.declared.reply.Reply.TheVariants.{Done, Refused};
ghost use Rattle.act_model.specs.Conducts.{IsAcknowledged};
ghost use Rattle.act_model.specs.Keepers.{TakesTurn};
ghost use Rattle.act_model.specs.Places.{OnePlace};
ghost use Rattle.act_model.specs.Requests.{is_act};
ghost use Rattle.act_model.specs.Step.{Adds, outcome};
ghost use Rattle.act_model.specs.Turns.{Mends};
ghost use Rattle.act_model.specs.Unbroken.{UnbrokenRows, UnbrokenNumbers};
ghost use Rattle.mpc_desk.specs.Accepted.{AddsLines};
ghost use Rattle.mpc_desk.specs.Desks.{IsAtRest, ActsInTurn, TakesAct, office_of};
ghost use Rattle.mpc_desk.specs.Disks.{disk_words};
ghost use Rattle.mpc_desk.specs.Events.{IsAct, IsQuery};

use crate::chained::{ChainedDesk, let_go_act};
use crate::laws::lines_are_added;
use crate::parcels::parcel_of;
use act_model::{Refusal, Reply, Request};
use desk_core::Prep;
use disk_model::Disk;
use obs_journal::AppendFault;
use obs_time::Instant;

impl<D: Disk> ChainedDesk<D> {
    /// Takes the turn of an act at this reading of the clock. An act in doubt is mended first; then the request is
    /// worked out at the history that mending left, and its entry is kept in the journal and added. It takes memory,
    /// but none once anything was written.
    ///
    /// The request has the verb of an act. Answers `DiskFault` where the disk failed: `untouched` where the act in
    /// doubt could not be mended, or the entry isn't kept; `doubt` exactly where this call's own parcel was left in
    /// doubt. Any other answer is that of the step at the history after mending, or that memory was refused.
    pub fn act(&mut self, request: &Request, reading: Instant) -> Reply
        requires act { is_act request.now.verb ≡ true }
        ensures turn { TakesTurn (office_of D.faults self.old) request.now (Some reading) result
            (office_of D.faults self.new) }
        // A crash at any moment of the call leaves a file that stands for the history before it, for that with the act
        // in doubt, or for the history after mending with the entry that the act becomes there.
        ensures inside { ActsInTurn D.moment D.since D.faults (record {
          old = self.old;
          request = request.now;
          reading = reading;
          reply = result;
          new = self.new;
        }) }
        ensures at_rest { IsAtRest D.leaves self.new }

        // An act that is answered is in the settled history, under its caller's number; and its answer is that entry's.
        ensures acknowledged { (text : List ℕ) → result ≡ Done text → (mended : List Entry) ×
            Mends self.old.state.settled self.old.state.doubt mended ×
            IsAcknowledged self.old.founder mended request.now text self.new.state.settled }
        // The disk failed in this call; and where the answer is that the act is in doubt, it is this request's own.
        ensures cause { (doubt : Bool) → result ≡ Refused (DiskFault doubt) →
            Rises (D.faults self.old.disk) (D.faults self.new.disk) }
        ensures doubt { result ≡ Refused (DiskFault true) → IsSomeAnd self.new.state.doubt (λ entry.
            outcome self.old.founder (Some self.old.limit) self.new.state.settled request.now reading ≡ Adds entry) }

        // In the history that is left each accepted observation stands in exactly one place, the designations of each
        // half-month follow one another without gap or repeat, and so do the numbers.
        ensures places { OnePlace self.new.state.settled }
        ensures rows { UnbrokenRows self.new.state.settled }
        ensures numbers { UnbrokenNumbers self.new.state.settled }
        // Each act that came to it added its own accepted lines to the accepted observations, and took none away.
        ensures lines { AddsLines self.old.state.settled self.new.state.settled }

        ensures founder { self.new.founder ≡ self.old.founder }
        ensures limit { self.new.limit ≡ self.old.limit }
        ensures counts { D.faults self.old.disk ≤ D.faults self.new.disk }
        ensures event { IsAct (disk_words D.reads D.leaves D.moment D.since D.faults) (record {
          old = self.old;
          request = request.now;
          reading = reading;
          reply = result;
          new = self.new;
        }) }
    {
        act_model::laws::one_place();
        act_model::laws::unbroken_rows();
        act_model::laws::unbroken_numbers();
        act_model::laws::histories_grow();
        lines_are_added();
        self.mend_and_act(request, reading)
    }

    /// Answers a query, a request whose verb is that of no act, from the settled history. No device is called. It takes
    /// memory.
    pub fn ask(&self, request: &Request) -> Reply
        requires query { is_act request.now.verb ≡ false }
        ensures turn { TakesTurn (office_of D.faults self.now) request.now None result (office_of D.faults self.now) }
        ensures event { IsQuery (disk_words D.reads D.leaves D.moment D.since D.faults) self.now request.now result }
    {
        self.core.answer(request)
    }

    /// Mends an act in doubt, and then takes the act.
    fn mend_and_act(&mut self, request: &Request, reading: Instant) -> Reply
        requires act { is_act request.now.verb ≡ true }
        ensures turn { TakesTurn (office_of D.faults self.old) request.now (Some reading) result
            (office_of D.faults self.new) }
        ensures inside { ActsInTurn D.moment D.since D.faults (record {
          old = self.old;
          request = request.now;
          reading = reading;
          reply = result;
          new = self.new;
        }) }
        ensures at_rest { IsAtRest D.leaves self.new }
        ensures acknowledged { (text : List ℕ) → result ≡ Done text → (mended : List Entry) ×
            Mends self.old.state.settled self.old.state.doubt mended ×
            IsAcknowledged self.old.founder mended request.now text self.new.state.settled }
        ensures cause { (doubt : Bool) → result ≡ Refused (DiskFault doubt) →
            Rises (D.faults self.old.disk) (D.faults self.new.disk) }
        ensures doubt { result ≡ Refused (DiskFault true) → IsSomeAnd self.new.state.doubt (λ entry.
            outcome self.old.founder (Some self.old.limit) self.new.state.settled request.now reading ≡ Adds entry) }
        ensures founder { self.new.founder ≡ self.old.founder }
        ensures limit { self.new.limit ≡ self.old.limit }
        ensures counts { D.faults self.old.disk ≤ D.faults self.new.disk }
    {
        act_model::laws::acknowledged_acts_are_kept();
        act_model::laws::disk_faults_have_a_cause();
        // A reading is a moment of the years 1800 to 2199.
        let _ = reading.ns();
        match self.mend() {
            Ok(_) => self.act_settled(request, reading),
            Err(_) => Reply::Refused(Refusal::DiskFault { doubt: false }),
        }
    }

    /// Takes an act where nothing is in doubt.
    fn act_settled(&mut self, request: &Request, reading: Instant) -> Reply
        requires act { is_act request.now.verb ≡ true }
        requires reading { IsInstantNs reading }
        requires settled { self.old.state.doubt ≡ None }
        ensures takes { TakesAct D.moment D.since D.faults (record {
          old = self.old;
          request = request.now;
          reading = reading;
          reply = result;
          new = self.new;
        }) }
        ensures founder { self.new.founder ≡ self.old.founder }
        ensures limit { self.new.limit ≡ self.old.limit }
        ensures at_rest { IsAtRest D.leaves self.new }
        ensures counts { D.faults self.old.disk ≤ D.faults self.new.disk }
    {
        act_model::laws::histories_are_legal();
        obs_journal::laws::doubtful_chain();
        let prepared = match self.core.prepare(request, reading, Some(self.limit)) {
            Prep::Kept(reply) => return reply,
            Prep::Refused(refusal) => return Reply::Refused(refusal),
            Prep::Ready(prepared) => prepared,
        };
        let Ok(parcel) = parcel_of(self.alloc, prepared.entry()) else {
            let_go_act(Some(prepared));
            return Reply::Refused(Refusal::NoMemory);
        };
        match self.journal.append(parcel) {
            Ok(()) => self.core.commit(prepared),
            Err(AppendFault::Untouched) => {
                let_go_act(Some(prepared));
                Reply::Refused(Refusal::DiskFault { doubt: false })
            }
            Err(AppendFault::InDoubt) => {
                let_go_act(self.doubt.replace(prepared));
                Reply::Refused(Refusal::DiskFault { doubt: true })
            }
        }
    }
}
