//! The office on its two disks.

ghost use Rattle.std.specs.Prelude.{◌≡◌, true, false};
ghost use Rattle.act_model.specs.Requests.{is_act};
ghost use Rattle.mpc_desk.specs.Disks.{disk_words};
ghost use Rattle.mpc_desk.specs.Events.{IsAct, IsQuery, IsMending, IsClosed};
ghost use Rattle.mpc_desk.specs.Pairs.{FilePair, AreLeft, RestBoth, disks_of};

use crate::chained::ChainedDesk;
use act_model::{Reply, Request};
use desk_core::Core;
use disk_model::{Disk, Failed};
use obs_journal::Settled;
use obs_time::Instant;
use std::marker::Model;

/// The office on its two disks: the desk on the second one, and the first one, which opening alone calls.
///
/// Contracts see the first disk, and the desk.
#[derive(Debug, Drop)]
pub struct Desk<D: Disk> {
    pub(crate) first: D,
    pub(crate) chained: ChainedDesk<D>,
}

impl<D: Disk> Model for Desk<D> {
    ghost use Rattle.mpc_desk.specs.Pairs.{PairState};

    ghost Value = { PairState D };

    ghost view = { λ d. record { first = d.first; chained = d.chained } };
}

impl<D: Disk> Desk<D> {
    /// The first disk, and the desk on the second one, which goes on without it.
    pub fn apart(self) -> (D, ChainedDesk<D>)
        ensures first { result.0 ≡ self.first }
        ensures chained { result.1 ≡ self.chained }
    {
        let Desk { first, chained } = self;
        (first, chained)
    }

    /// Takes the turn of an act, as [`ChainedDesk::act`] does. The first disk isn't called. It takes memory.
    pub fn act(&mut self, request: &Request, reading: Instant) -> Reply
        requires act { is_act request.now.verb ≡ true }
        ensures acts { IsAct (disk_words D.reads D.leaves D.moment D.since D.faults) (record {
          old = self.old.chained;
          request = request.now;
          reading = reading;
          reply = result;
          new = self.new.chained;
        }) }
        ensures first { self.new.first ≡ self.old.first }
        // Whatever the first file is, the two stand for the settled history, or for that with the act in doubt.
        ensures at_rest { (files : FilePair) →
            AreLeft (disk_words D.reads D.leaves D.moment D.since D.faults) (disks_of self.new) files →
            RestBoth self.new.chained.state files }
    {
        obs_journal::laws::one_chain();
        self.chained.act(request, reading)
    }

    /// Answers a query from the settled history, as [`ChainedDesk::ask`] does. No device is called. It takes memory.
    pub fn ask(&self, request: &Request) -> Reply
        requires query { is_act request.now.verb ≡ false }
        ensures asks { IsQuery (disk_words D.reads D.leaves D.moment D.since D.faults) self.now.chained request.now
            result }
    {
        self.chained.ask(request)
    }

    /// Settles the act in doubt, as [`ChainedDesk::mend`] does. The first disk isn't called.
    ///
    /// # Errors
    /// `Failed` where the second disk failed. The doubt stays.
    pub fn mend(&mut self) -> Result<Settled, Failed>
        ensures mends { IsMending (disk_words D.reads D.leaves D.moment D.since D.faults) self.old.chained result
            self.new.chained }
        ensures first { self.new.first ≡ self.old.first }
    {
        self.chained.mend()
    }

    /// The office, with its settled history.
    pub fn core(&self) -> &Core
        ensures history { result.now.history ≡ self.now.chained.state.settled }
        ensures founder { result.now.founder ≡ self.now.chained.founder }
    {
        self.chained.core()
    }

    /// Gives the two disks back, also with an act in doubt. No device is called.
    pub fn close(self) -> (D, D)
        ensures { IsClosed self result.0 result.1 }
    {
        let (first, chained) = self.apart();
        (first, chained.close())
    }
}
