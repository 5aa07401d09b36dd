//! The office in memory as a keeper.

ghost use Rattle.std.specs.Prelude.{◌≡◌, ◌≢◌, [], Bool, true, false, IfOk, Some, None};
ghost use Rattle.act_model.specs.Keepers.{TakesTurn};
ghost use Rattle.act_model.specs.Requests.{is_act};
ghost use Rattle.act_model.specs.Roster.{IsFounder};
ghost use Rattle.act_model.specs.Turns.{Answers};
ghost use Rattle.plain_keeper.specs.Plain.{plain_office};

use act_model::{Key, Refusal, Reply, Request};
use desk_core::{Core, Prep};
use item_list::NoMemory;
use obs_time::Instant;
use std::alloc::Global;
use std::marker::Model;

/// The office in memory alone: it has no disk, its history has no limit, and no act is ever in doubt.
///
/// Contracts see its core: the founding officer's key, and the settled history with the newest entry first.
#[derive(Debug, Drop)]
pub struct PlainKeeper {
    core: Core,
}

impl Model for PlainKeeper {
    ghost use Rattle.desk_core.specs.Office.{Office};

    ghost Value = { Office };

    ghost view = { λ keeper. keeper.core };
}

impl PlainKeeper {
    /// An office without entries, founded by the officer with this key. The key begins with a plus and has at most 33
    /// bytes. It takes memory.
    ///
    /// # Errors
    ///
    /// Memory was refused.
    pub fn new(alloc: Global, founder: Key) -> Result<PlainKeeper, NoMemory>
        requires { IsFounder founder }
        ensures founder { IfOk result (λ keeper. keeper.founder ≡ founder) }
        ensures empty { IfOk result (λ keeper. keeper.history ≡ []) }
    {
        let core = Core::new(alloc, founder)?;
        Ok(PlainKeeper { core })
    }

    /// The office, with its history.
    pub fn core(&self) -> &Core
        ensures { result.now ≡ self.now }
    {
        &self.core
    }

    /// Takes the turn of an act at this reading of the clock. The request has the verb of an act. The answer and the
    /// history after it are those of the step without a limit; or memory was refused, which changes nothing. It takes
    /// memory, and never answers `DiskFault`.
    pub fn act(&mut self, request: &Request, reading: Instant) -> Reply
        requires act { is_act request.now.verb ≡ true }
        ensures answers { Answers self.old.founder None self.old.history request.now reading result self.new.history }
        ensures turn { TakesTurn (plain_office self.old) request.now (Some reading) result (plain_office self.new) }
        ensures no_disk { (doubt : Bool) → result ≢ Reply.Refused (Refusal.DiskFault doubt) }
        ensures founder { self.new.founder ≡ self.old.founder }
    {
        act_model::laws::disk_faults_have_a_cause();
        // A reading is a moment of the years 1800 to 2199.
        let _ = reading.ns();
        self.act_stepwise(request, reading)
    }

    /// Answers a query, a request whose verb is that of no act, from the history. It takes memory, and never answers
    /// `DiskFault`.
    pub fn ask(&self, request: &Request) -> Reply
        requires query { is_act request.now.verb ≡ false }
        ensures turn { TakesTurn (plain_office self.now) request.now None result (plain_office self.now) }
        ensures no_disk { (doubt : Bool) → result ≢ Reply.Refused (Refusal.DiskFault doubt) }
    {
        act_model::laws::disk_faults_have_a_cause();
        self.core.answer(request)
    }

    /// Works an act out and adds its entry.
    fn act_stepwise(&mut self, request: &Request, reading: Instant) -> Reply
        requires act { is_act request.now.verb ≡ true }
        ensures answers { Answers self.old.founder None self.old.history request.now reading result self.new.history }
        ensures founder { self.new.founder ≡ self.old.founder }
    {
        let prepared = match self.core.prepare(request, reading, None) {
            Prep::Kept(reply) => return reply,
            Prep::Refused(refusal) => return Reply::Refused(refusal),
            Prep::Ready(prepared) => prepared,
        };
        self.core.commit(prepared)
    }
}
