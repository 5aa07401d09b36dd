//! The desk as a keeper of the office.

ghost use Rattle.std.specs.Prelude.{◌≡◌, true, false, length, Some, None};
ghost use Rattle.act_model.specs.Keepers.{TakesTurn};
ghost use Rattle.act_model.specs.Requests.{is_act};
ghost use Rattle.mpc_desk.specs.Desks.{office_of};

use crate::chained::ChainedDesk;
use crate::desk::Desk;
use act_model::{Keeper, Reply, Request};
use disk_model::Disk;
use obs_time::Instant;

impl<D: Disk> Keeper for ChainedDesk<D> {
    ghost office = { λ desk. office_of D.faults desk };

    fn act(&mut self, request: &Request, reading: Instant) -> Reply {
        ChainedDesk::act(self, request, reading)
    }

    fn ask(&self, request: &Request) -> Reply {
        ChainedDesk::ask(self, request)
    }

    fn entries(&self) -> u64 {
        self.core().entries()
    }
}

impl<D: Disk> Keeper for Desk<D> {
    ghost office = { λ desk. office_of D.faults desk.chained };

    fn act(&mut self, request: &Request, reading: Instant) -> Reply {
        Desk::act(self, request, reading)
    }

    fn ask(&self, request: &Request) -> Reply {
        Desk::ask(self, request)
    }

    fn entries(&self) -> u64 {
        self.core().entries()
    }
}
