//! Two threads that enrol callers at one office in memory, in turns.

ghost use Rattle.std.specs.Prelude.{◌≡◌};

use act_model::{Keeper, Verb};
use intake_lock::{Pass, TurnLock};
use std::alloc::Global;
use std::sync::Wait;
use testkit_desks::{
    Turns, enrolment, new_clock, number_asked, number_of_reply, take_turn, told_of_office,
};

// Ten turns, in each of which a caller is enrolled, under the numbers from this one on. How many of them had a greater
// receipt than the one before; 0 where memory was refused.
fn take_ten_turns<V: Keeper, R: Wait>(
    rt: &R,
    alloc: Global,
    lock: &TurnLock<V>,
    pass: Pass,
    first: u64,
) -> (Pass, u64)
    requires { pass.lock ≡ lock.now.id }
    ensures { (result.0.lock ≡ pass.lock) × (result.0.view.role ≡ pass.view.role) }
{
    let Some(mut clock) = new_clock() else {
        return (pass, 0);
    };
    let mut mine = pass;
    let mut rises = 0u64;
    let mut last = 0u64;
    'turns: for more in 0..10u64 {
        let Some(request) = enrolment(alloc, first.wrapping_add(more)) else {
            return (mine, 0);
        };
        let (next, reply) = take_turn(rt, alloc, lock, mine, &request, &mut clock);
        let receipt = number_of_reply(&reply);
        mine = next;
        rises = rises.saturating_add(u64::from(receipt > last));
        last = receipt;
    }
    (mine, rises)
}

// Ten turns of each thread, under the numbers from 1 on and from 11 on; how many entries the office has after them, by
// its tally, and how often the receipts of each thread rose.
#[derive(Clone, Copy)]
struct TenTurns;

impl Turns for TenTurns {
    type Told = (u64, Option<u64>, Option<u64>);

    fn take<V: Keeper, R: Wait>(
        &self,
        rt: &R,
        alloc: Global,
        lock: &TurnLock<V>,
        pass: Pass,
        thread: u64,
    ) -> (Pass, u64) {
        let first = if thread == 1 { 1 } else { 11 };
        take_ten_turns(rt, alloc, lock, pass, first)
    }

    fn tell<K: Keeper>(
        &self,
        alloc: Global,
        keeper: &K,
        came: &[u64],
    ) -> (u64, Option<u64>, Option<u64>) {
        let entries = number_asked(alloc, keeper, Verb::Tally, b"");
        (entries, came.first().copied(), came.get(1).copied())
    }
}

// Each thread enrols ten callers. Each act is one entry, and each thread's receipts rise.
#[test]
fn enrolments_of_two_threads(rt: HostRuntime) {
    let told = told_of_office(&rt, rt.alloc(), &TenTurns);
    assert_eq!(rt; told, Some((20, Some(10), Some(10))));
}
