//! The office on the second disk.

ghost use Rattle.std.specs.Prelude.{◌≡◌, ◌≢◌, ◌↔◌, ◌-◌, ◌≤◌, ◌∷◌, length, slice_index, Ok, Some, None, IfOk, IfSome};
ghost use Rattle.std.specs.Prelude.{IsSome, IsSomeAnd, OnErr, option_map};
ghost use Rattle.call_log.specs.Counts.{Rises};
ghost use Rattle.obs_journal.specs.Journals.{IsUnwritten};
ghost use Rattle.act_model.specs.declared.entry.Entry.{Entry};
ghost use Rattle.act_model.specs.Refusals.{bytes_used};
ghost use Rattle.act_model.specs.Turns.{Mends};
ghost use Rattle.desk_core.specs.Office.{Office};
ghost use Rattle.mpc_desk.specs.Desks.{IsNext, IsDesk, IsAtRest, settled_by};
ghost use Rattle.mpc_desk.specs.Disks.{disk_words};
ghost use Rattle.mpc_desk.specs.Events.{IsMending};

use act_model::Reply;
use desk_core::{Core, Prepared};
use disk_model::{Disk, Failed};
use obs_journal::{Journal, Settled};
use std::alloc::Global;
use std::marker::Model;

/// The office on the second disk, with its journal, whose parcels are chained. Acts, queries and mendings call no other
/// disk.
///
/// Contracts see the founding officer's key, how many bytes the journal may have, the settled history with the newest
/// entry first, the act in doubt, and the disk.
#[derive(Debug, Drop)]
pub struct ChainedDesk<D: Disk> {
    pub(crate) alloc: Global,
    pub(crate) core: Core,
    pub(crate) journal: Journal<D>,
    pub(crate) limit: u64,
    // the act whose parcel is in doubt
    pub(crate) doubt: Option<Prepared>,
}

impl<D: Disk> Model for ChainedDesk<D> {
    ghost use Rattle.mpc_desk.specs.Desks.{DeskState, state_of, IsDesk};

    ghost Value = { DeskState D };

    ghost view = { λ d. record {
      founder = d.core.founder;
      limit = d.limit;
      state = state_of d.core d.doubt;
      disk = d.journal.disk;
    } };

    ghost invariant = { λ d. IsDesk D.leaves d.core d.journal d.doubt };
}

/// Lets an office go. So deep a type is let go in one place, since the proof of that takes long, and where it stands in
/// a longer function the list of its steps is as long again.
pub(crate) fn let_go(core: Core) {
    drop(core);
}

/// Lets an act that was worked out go, where there is one.
pub(crate) fn let_go_act(act: Option<Prepared>) {
    drop(act);
}

/// Lets a reply go.
fn let_go_reply(reply: Reply) {
    drop(reply);
}

/// Adds the entry of the act in doubt, where its parcel was kept.
fn settle(core: &mut Core, doubt: Option<Prepared>, settled: Settled)
    requires next { IfSome doubt (IsNext core.old) }
    ensures history { core.new.history ≡ settled_by settled doubt core.old.history }
    ensures founder { core.new.founder ≡ core.old.founder }
{
    match (settled, doubt) {
        (Settled::Added, Some(prepared)) => let_go_reply(core.commit(prepared)),
        (_, doubt) => let_go_act(doubt),
    }
}

impl<D: Disk> ChainedDesk<D> {
    /// Settles the act in doubt: waits until the journal's file is safe, and reads the gate of the act's parcel. Where
    /// the gate is open the act is added to the history, else it is dropped. With nothing in doubt no device is called.
    /// Nothing is written, and no memory is taken.
    ///
    /// # Errors
    /// `Failed` where the disk failed. The doubt stays.
    pub fn mend(&mut self) -> Result<Settled, Failed>
        ensures nothing { (result ≡ Ok Settled.Nothing) ↔ (self.old.state.doubt ≡ None) }
        ensures no_call { self.old.state.doubt ≡ None → self.new ≡ self.old }

        ensures added { result ≡ Ok Settled.Added → IsSomeAnd self.old.state.doubt (λ entry.
            self.new.state.settled ≡ entry ∷ self.old.state.settled) }
        ensures dropped { result ≡ Ok Settled.Dropped → self.new.state.settled ≡ self.old.state.settled }
        ensures settled { IfOk result (λ _. self.new.state.doubt ≡ None) }
        ensures mends { IfOk result (λ _.
            Mends self.old.state.settled self.old.state.doubt self.new.state.settled) }
        ensures added_where_open { result ≡ Ok Settled.Added →
            IfSome (D.reads self.old.disk) (λ file. slice_index file (bytes_used self.old.state.settled - 1) ≡ 1) }
        ensures dropped_where_closed { result ≡ Ok Settled.Dropped →
            IfSome (D.reads self.old.disk) (λ file. slice_index file (bytes_used self.old.state.settled - 1) ≢ 1) }

        ensures still_in_doubt { OnErr result (self.new.state ≡ self.old.state) }
        ensures founder { self.new.founder ≡ self.old.founder }
        ensures limit { self.new.limit ≡ self.old.limit }
        ensures at_rest { IsAtRest D.leaves self.new }
        ensures unwritten { IsUnwritten D.reads D.moment D.since self.old.disk self.new.disk }
        ensures counts { D.faults self.old.disk ≤ D.faults self.new.disk }
        ensures cause { OnErr result (Rises (D.faults self.old.disk) (D.faults self.new.disk)) }
        ensures event { IsMending (disk_words D.reads D.leaves D.moment D.since D.faults) self.old result self.new }
    {
        obs_journal::laws::doubtful_chain();
        let settled = match self.journal.mend() {
            Ok(settled) => settled,
            Err(failed) => return Err(failed),
        };
        let doubt = self.doubt.take();
        settle(&mut self.core, doubt, settled);
        Ok(settled)
    }

    /// The office, with its settled history.
    pub fn core(&self) -> &Core
        ensures history { result.now.history ≡ self.now.state.settled }
        ensures founder { result.now.founder ≡ self.now.founder }
    {
        &self.core
    }

    /// Gives the disk back, also with an act in doubt. No device is called.
    pub fn close(self) -> D
        ensures { result ≡ self.disk }
    {
        let ChainedDesk {
            journal,
            core,
            doubt,
            ..
        } = self;
        let_go(core);
        let_go_act(doubt);
        journal.close()
    }
}
