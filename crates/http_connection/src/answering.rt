//! One request, answered in a turn of its own.

ghost use Rattle.std.specs.Prelude.{◌≡◌};
ghost use Rattle.intake_lock.specs.declared.view.Item.{Item};
ghost use Rattle.act_model.specs.Clocks.{clock_of};
ghost use Rattle.http_connection.specs.Calls.{Asks, TakesCall};

use crate::laws::call_laws;
use act_model::{Keeper, Reply, Request, laws as office_laws};
use desk_io::Clock;
use intake_lock::{Pass, Turn, TurnLock};
use std::alloc::Global;
use std::marker::Model;
use std::sync::Wait;

/// A lock for whoever answers one request after another. It offers that and nothing else, so that no turn can be held
/// while a connection is read or written to.
#[derive(Drop)]
pub(crate) struct OneByOne<'a, V: Keeper> {
    lock: &'a TurnLock<V>,
}

impl<'a, V: Keeper> Model for OneByOne<'a, V> {
    ghost use Rattle.intake_lock.specs.Passes.{LockState};

    ghost Value = { LockState };

    ghost view = { λ o. o.lock.now };
}

impl<'a, V: Keeper> OneByOne<'a, V> {
    /// The lock, of which no more than this can be used.
    pub(crate) fn new(lock: &'a TurnLock<V>) -> OneByOne<'a, V>
        ensures { result ≡ lock.now }
    {
        OneByOne { lock }
    }

    /// Answers one request, as `answer_one`.
    pub(crate) fn answer<C: Clock, R: Wait>(
        &self,
        rt: &R,
        alloc: Global,
        pass: Pass,
        request: &Request,
        clock: &mut C,
    ) -> (Pass, Reply)
        requires { pass.lock ≡ self.now.id }
        ensures pass { (result.0.lock ≡ pass.lock) × (result.0.id ≡ pass.id) × (result.0.view.role ≡ pass.view.role) }
        ensures call { (item : Item) × (item.request ≡ request.now) × (item.reply ≡ result.1)
            × TakesCall pass.view result.0.view (clock_of C.reading C.last clock.old)
            (clock_of C.reading C.last clock.new) item }
    {
        answer_one(rt, alloc, self.lock, pass, request, clock)
    }
}

// Asks the keeper of the turn. A request whose verb is an act takes one reading of the clock, whatever its answer, and
// any other takes none.
fn take_turn<V: Keeper, C: Clock>(turn: &mut Turn<V>, request: &Request, clock: &mut C) -> Reply
    ensures call { Asks
        (record { office = turn.old.office; items = turn.old.items; clock = clock_of C.reading C.last clock.old })
        (record { office = turn.new.office; items = turn.new.items; clock = clock_of C.reading C.last clock.new })
        request.now result }
    ensures lock { (turn.new.lock ≡ turn.old.lock) × (turn.new.id ≡ turn.old.id) }
    ensures view { turn.new.view ≡ turn.old.view }
{
    if request.verb.is_act() {
        let reading = clock.now();
        turn.act(request, reading)
    } else {
        turn.ask(request)
    }
}

/// Answers one request: waits for the turn, asks the keeper, and gives the turn back.
///
/// The pass that comes back is the same root or branch, and has one call more: the request's, with the reply that is
/// given. A request whose verb is an act takes one reading of the clock, whatever its answer, and any other takes none.
pub fn answer_one<V: Keeper, C: Clock, R: Wait>(
    rt: &R,
    _alloc: Global,
    lock: &TurnLock<V>,
    pass: Pass,
    request: &Request,
    clock: &mut C,
) -> (Pass, Reply)
    requires { pass.lock ≡ lock.now.id }
    ensures pass { (result.0.lock ≡ pass.lock) × (result.0.id ≡ pass.id) × (result.0.view.role ≡ pass.view.role) }
    // One call more, at a place of the one history that isn't before what the pass had seen, and true of what it has
    // seen. It is answered that the disk failed only where the keeper's count of faults rose in it.
    ensures call { (item : Item) × (item.request ≡ request.now) × (item.reply ≡ result.1)
        × TakesCall pass.view result.0.view (clock_of C.reading C.last clock.old)
        (clock_of C.reading C.last clock.new) item }
{
    call_laws();
    office_laws::disk_faults_have_a_cause();
    let mut turn = lock.enter(rt, pass);
    let reply = take_turn(&mut turn, request, clock);
    (lock.leave(turn), reply)
}
