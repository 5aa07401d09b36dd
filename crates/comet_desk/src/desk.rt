//! The register on its disk: how an act in doubt is settled, and how the disk is given back.

ghost use Rattle.std.specs.Prelude.{◌≡◌, ◌≢◌, ◌↔◌, ◌-◌, ◌≤◌, ◌∷◌, List, length, slice_index, Ok, None, IfOk, IfSome};
ghost use Rattle.std.specs.Prelude.{IsSomeAnd, OnErr};
ghost use Rattle.call_log.specs.Counts.{Rises};
ghost use Rattle.obs_journal.specs.Journals.{IsUnwritten};
ghost use Rattle.act_model.specs.declared.deed.Deed.{Deed};
ghost use Rattle.act_model.specs.Refusals.{bytes_used};
ghost use Rattle.act_model.specs.Turns.{Mends};
ghost use Rattle.mpc_desk.specs.Disks.{disk_words};
ghost use Rattle.comet_desk.specs.Desks.{IsNextEntry, IsBeside, IsDesk, IsAtRest, settled_by, named_after};
ghost use Rattle.comet_desk.specs.Events.{IsMending};

use comet_core::{Prepared, Register};
use comet_model::CometReply;
use disk_model::{Disk, Failed};
use obs_journal::{Journal, Settled};
use std::alloc::Global;
use std::marker::Model;

/// The register of comets on a disk, with its journal, whose parcels are chained.
///
/// Contracts see the founding officer's key, how many bytes the journal may have, the settled entries with the newest
/// first, the act in doubt, what these name, and the disk. A call that reads the office is handed it, and asks that the
/// register is one beside it: it is where the office's history is the one of the last act, or of the opening, or a
/// longer one ([`laws::longer`](crate::laws::longer)).
#[derive(Debug, Drop)]
pub struct CometDesk<D: Disk> {
    pub(crate) alloc: Global,
    pub(crate) register: Register,
    pub(crate) journal: Journal<D>,
    pub(crate) limit: u64,
    // the act whose parcel is in doubt
    pub(crate) doubt: Option<Prepared>,
}

impl<D: Disk> Model for CometDesk<D> {
    ghost use Rattle.std.specs.Prelude.{option_map};
    ghost use Rattle.comet_desk.specs.Desks.{CometDeskState, state_of, IsDesk};

    ghost Value = { CometDeskState D };

    ghost view = { λ d. record {
      founder = d.register.founder;
      limit = d.limit;
      state = state_of d.register d.doubt;
      comets = d.register.comets;
      next = option_map (λ ready. ready.named) d.doubt;
      disk = d.journal.disk;
    } };

    ghost invariant = { λ d. IsDesk D.leaves d.register d.journal d.doubt };
}

/// Lets a register go. So deep a type is let go in one place, since the proof of that takes long, and where it stands
/// in a longer function the list of its steps is as long again.
pub(crate) fn let_go(register: Register) {
    drop(register);
}

/// Lets an act that was worked out go, where there is one.
pub(crate) fn let_go_act(act: Option<Prepared>) {
    drop(act);
}

/// Lets a reply go.
fn let_go_reply(reply: CometReply) {
    drop(reply);
}

/// Adds the entry of the act in doubt, where its parcel was kept.
fn settle(register: &mut Register, doubt: Option<Prepared>, settled: Settled)
    requires next { IfSome doubt (IsNextEntry register.old) }
    ensures entries { register.new.entries ≡ settled_by settled doubt register.old.entries }
    ensures comets { register.new.comets ≡ named_after settled doubt register.old.comets }
    ensures founder { register.new.founder ≡ register.old.founder }
{
    match (settled, doubt) {
        (Settled::Added, Some(prepared)) => let_go_reply(register.commit(prepared)),
        (_, doubt) => let_go_act(doubt),
    }
}

impl<D: Disk> CometDesk<D> {
    /// Settles the act in doubt: waits until the journal's file is safe, and reads the gate of the act's parcel. Where
    /// the gate is open the act is added to the entries, else it is dropped. With nothing in doubt no device is called.
    /// Nothing is written, and no memory is taken.
    ///
    /// # Errors
    ///
    /// `Failed` where the disk failed. The doubt stays.
    pub fn mend(&mut self) -> Result<Settled, Failed>
        ensures nothing { (result ≡ Ok Settled.Nothing) ↔ (self.old.state.doubt ≡ None) }
        ensures no_call { self.old.state.doubt ≡ None → self.new ≡ self.old }

        ensures added { result ≡ Ok Settled.Added → IsSomeAnd self.old.state.doubt (λ entry.
            self.new.state.settled ≡ entry ∷ self.old.state.settled) }
        ensures dropped { result ≡ Ok Settled.Dropped → self.new.state.settled ≡ self.old.state.settled }
        ensures settled { IfOk result (λ _. self.new.state.doubt ≡ None) }
        ensures mends { IfOk result (λ _.
            Mends self.old.state.settled self.old.state.doubt self.new.state.settled) }
        ensures added_where_open { result ≡ Ok Settled.Added →
            IfSome (D.reads self.old.disk) (λ file. slice_index file (bytes_used self.old.state.settled - 1) ≡ 1) }
        ensures dropped_where_closed { result ≡ Ok Settled.Dropped →
            IfSome (D.reads self.old.disk) (λ file. slice_index file (bytes_used self.old.state.settled - 1) ≢ 1) }

        ensures still_in_doubt { OnErr result (self.new.state ≡ self.old.state) }
        // What it is beside before it is beside after it.
        ensures beside { (desk : List Deed) → IsBeside desk self.old → IsBeside desk self.new }
        ensures founder { self.new.founder ≡ self.old.founder }
        ensures limit { self.new.limit ≡ self.old.limit }
        ensures at_rest { IsAtRest D.leaves self.new }
        ensures unwritten { IsUnwritten D.reads D.moment D.since self.old.disk self.new.disk }
        ensures counts { D.faults self.old.disk ≤ D.faults self.new.disk }
        ensures cause { OnErr result (Rises (D.faults self.old.disk) (D.faults self.new.disk)) }
        ensures event { IsMending (disk_words D.reads D.leaves D.moment D.since D.faults) self.old result self.new }
    {
        obs_journal::laws::doubtful_chain();
        let settled = match self.journal.mend() {
            Ok(settled) => settled,
            Err(failed) => return Err(failed),
        };
        let doubt = self.doubt.take();
        settle(&mut self.register, doubt, settled);
        Ok(settled)
    }

    /// How many entries are settled, which is the receipt of the newest one.
    pub fn entries(&self) -> u64
        ensures { result ≡ length self.now.state.settled }
    {
        self.register.entries()
    }

    /// Gives the disk back, also with an act in doubt. No device is called.
    pub fn close(self) -> D
        ensures { result ≡ self.disk }
    {
        let CometDesk {
            register,
            journal,
            doubt,
            ..
        } = self;
        let_go(register);
        let_go_act(doubt);
        journal.close()
    }
}
