//! The office in memory as a keeper of the office.

ghost use Rattle.std.specs.Prelude.{◌≡◌, true, false, length, Some, None};
ghost use Rattle.act_model.specs.Keepers.{TakesTurn};
ghost use Rattle.act_model.specs.Requests.{is_act};
ghost use Rattle.plain_keeper.specs.Plain.{plain_office};

use crate::plain::PlainKeeper;
use act_model::{Keeper, Reply, Request};
use obs_time::Instant;

impl Keeper for PlainKeeper {
    ghost office = { plain_office };

    fn act(&mut self, request: &Request, reading: Instant) -> Reply {
        PlainKeeper::act(self, request, reading)
    }

    fn ask(&self, request: &Request) -> Reply {
        PlainKeeper::ask(self, request)
    }

    fn entries(&self) -> u64 {
        self.core().entries()
    }
}
