//! Tests of passes of the turn lock: entering, noting, leaving, splitting, joining and closing.

ghost use Rattle.std.specs.Prelude.{◌≡◌, true, false, [], None, Some};
ghost use Rattle.act_model.specs.Requests.{is_act};
ghost use Rattle.intake_lock.specs.declared.view.Role.TheVariants.{Root, Branch};
ghost use Rattle.intake_lock.specs.Passes.{LockState, PassState};

use act_model::{Body, Keeper, Key, Refusal, Reply, Request, Verb};
use intake_lock::{Pass, TurnLock};
use obs_time::Instant;
use std::alloc::Global;
use std::sync::Wait;
use std::test::*;
use std::thread::{Threads, join};

// A keeper that never has memory, counts the acts that it was asked for, and takes so many steps for each: with a
// million a turn takes so long that whoever waits for the next one parks.
#[derive(Drop)]
struct Forgetful {
    founder: Key,
    acts: u64,
    steps: u32,
    draw: u64,
}

// So many steps, each a draw after the one before.
fn work(steps: u32, first: u64) -> u64 {
    let mut draw = first;
    for _ in 0..steps {
        draw = draw.wrapping_mul(6_364_136_223_846_793_005).wrapping_add(1);
    }
    draw
}

impl Keeper for Forgetful {
    ghost use Rattle.std.specs.Prelude.{[], None};

    ghost office = { λ k. record {
      founder = k.founder;
      limit = None;
      state = record { settled = []; doubt = None };
      faults = 0;
      stamps = None;
    } };

    fn act(&mut self, _request: &Request, _reading: Instant) -> Reply {
        self.acts = self.acts.wrapping_add(1);
        self.draw = work(self.steps, self.draw);
        Reply::Refused(Refusal::NoMemory)
    }

    fn ask(&self, _request: &Request) -> Reply {
        Reply::Refused(Refusal::NoMemory)
    }

    fn entries(&self) -> u64 {
        0
    }
}

fn an_act() -> Request
    ensures { is_act result.verb ≡ true }
{
    Request {
        key: Key::new(b"+founder-1"),
        number: Some(1),
        verb: Verb::Retract,
        body: Body::NoRoom,
    }
}

fn a_query() -> Request
    ensures { is_act result.verb ≡ false }
{
    Request {
        key: Key::new(b"+founder-1"),
        number: Some(0),
        verb: Verb::Tally,
        body: Body::NoRoom,
    }
}

// Enters so many times, each time with an act and a query.
fn take_turns<R: Wait>(
    rt: &R,
    lock: &TurnLock<Forgetful>,
    pass: Pass,
    count: u64,
    reading: Instant,
) -> Pass
    requires { pass.lock ≡ lock.now.id }
    ensures lock { result.lock ≡ pass.lock }
    ensures role { result.view.role ≡ pass.view.role }
{
    let mut mine = pass;
    for _ in 0..count {
        let mut turn = lock.enter(rt, mine);
        turn.act(&an_act(), reading);
        turn.ask(&a_query());
        mine = lock.leave(turn);
    }
    mine
}

// How many acts the keeper was asked for, where two threads enter ten times each.
fn acts_of_two<R: Threads + Wait + Sync>(
    rt: &R,
    alloc: Global,
    keeper: Forgetful,
    reading: Instant,
) -> Option<u64> {
    let Ok((lock, root)) = TurnLock::new(alloc, keeper) else {
        return None;
    };
    let Ok((root, branch)) = lock.split(root) else {
        return None;
    };
    let shared = &lock;
    let (root, branch) = join(
        rt,
        move || -> Pass
            requires { root.lock ≡ shared.now.id }
            ensures { (result.lock ≡ root.lock) × (result.view.role ≡ root.view.role) }
        { take_turns(rt, shared, root, 10, reading) },
        move || -> Pass
            requires { branch.lock ≡ shared.now.id }
            ensures { (result.lock ≡ branch.lock) × (result.view.role ≡ branch.view.role) }
        { take_turns(rt, shared, branch, 10, reading) },
    );
    let root = lock.join(root, branch);
    let keeper = lock.close(root);
    Some(keeper.acts)
}

// The acts of two threads, with so many steps an act.
fn acts_with<R: Threads + Wait + Sync>(rt: &R, alloc: Global, steps: u32) -> Option<u64> {
    let reading = Instant::new(0)?;
    let keeper = Forgetful {
        founder: Key::new(b"+founder-1"),
        acts: 0,
        steps,
        draw: 0,
    };
    acts_of_two(rt, alloc, keeper, reading)
}

#[test]
fn threads_take_turns(rt: HostRuntime) {
    for steps in [0, 1_000_000] {
        let acts = acts_with(&rt, rt.alloc(), steps);
        assert_eq!(rt; acts, Some(20));
    }
}
