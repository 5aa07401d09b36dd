//! What tests ask of an office, and the office in memory that is lent to them.

ghost use Rattle.std.specs.Prelude.{◌≡◌, true};
ghost use Rattle.act_model.specs.Requests.{is_act};
ghost use Rattle.act_model.specs.Roster.{IsFounder};

use crate::paging::{Paged, exported, pages_of};
use act_model::{Key, Reply, Request};
pub use desk_core::ReplayFault;
use desk_core::{Core, Prep};
use obs_time::Instant;
use std::alloc::Global;

/// Which answer `prepare` gave; a query's answer counts as refused.
#[derive(Clone, Copy, PartialEq, Eq)]
pub enum Kind {
    Kept,
    Refused,
    Ready,
}

/// An office that is asked.
pub trait Office: Drop {
    /// The answer to a request, with its kind; an act that is ready is added.
    fn take(&mut self, request: &Request, reading: Instant) -> (Kind, Reply);

    /// Takes an entry in again, from its caller, its number, its moment, the number of its verb and its body.
    fn replay(
        &mut self,
        caller: u32,
        number: u64,
        moment: i64,
        verb: u8,
        body: &[u8],
    ) -> Result<(), ReplayFault>;

    /// How many entries it has.
    fn entries(&self) -> u64;

    /// The pages of its catalogue up to the first one without bytes, but at most so many; None where memory was
    /// refused, here and below.
    fn pages(&self, alloc: Global, most: u64) -> Option<Paged>;

    /// What it writes as its catalogue into a sink with room for so many bytes, and how many it says that it wrote.
    fn exported(&self, alloc: Global, room: usize) -> Option<(u64, Vec<u8>)>;
}

impl Office for Core {
    fn take(&mut self, request: &Request, reading: Instant) -> (Kind, Reply) {
        if request.verb.is_act() {
            return act(self, request, reading);
        }
        (Kind::Refused, self.answer(request))
    }

    fn replay(
        &mut self,
        caller: u32,
        number: u64,
        moment: i64,
        verb: u8,
        body: &[u8],
    ) -> Result<(), ReplayFault> {
        Core::replay(self, caller, number, moment, verb, body)
    }

    fn entries(&self) -> u64 {
        Core::entries(self)
    }

    fn pages(&self, alloc: Global, most: u64) -> Option<Paged> {
        pages_of(alloc, self, most)
    }

    fn exported(&self, alloc: Global, room: usize) -> Option<(u64, Vec<u8>)> {
        exported(alloc, self, room)
    }
}

/// The answer to an act, with its kind; one that is ready is added.
fn act(core: &mut Core, request: &Request, reading: Instant) -> (Kind, Reply)
    requires { is_act request.now.verb ≡ true }
{
    match core.prepare(request, reading, None) {
        Prep::Kept(reply) => (Kind::Kept, reply),
        Prep::Refused(refusal) => (Kind::Refused, Reply::Refused(refusal)),
        Prep::Ready(prepared) => (Kind::Ready, core.commit(prepared)),
    }
}

/// What is done with an office.
pub trait Visit {
    /// What is told of it.
    type Told;

    /// Does it.
    fn visit<O: Office>(&self, alloc: Global, office: O) -> Self::Told;
}

/// The founding officer of each office.
fn founder() -> Key
    ensures { IsFounder result }
{
    Key::new(b"+founder-1")
}

/// What a visit tells of an office without entries; None where memory was refused.
pub fn visit_office<V: Visit>(alloc: Global, visit: &V) -> Option<V::Told> {
    match Core::new(alloc, founder()) {
        Ok(core) => Some(visit.visit(alloc, core)),
        Err(_) => None,
    }
}
