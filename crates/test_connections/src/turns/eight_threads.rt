//! Threads that take turns at one desk, over a second disk whose syncs fail now and then.
//!
//! All is over any keeper: the type of a desk makes each proof that it stands in dear.

ghost use Rattle.std.specs.Prelude.{◌≡◌};

use act_model::{Keeper, Reply, Request, Verb};
use intake_lock::{Pass, TurnLock};
use std::alloc::Global;
use std::sync::Wait;
use testkit_desks::{
    THREADS, Turns, asked, enrolment, new_clock, number_asked, request, take_turn, told_of_desk,
};

// How often each thread enters, each fourth time for the tally and else with an act.
const TURNS: u64 = 200;

// Room for the journal, and for what its disk notes of its calls.
const CAPACITY: usize = 1_048_576;

// The calls of the second disk that fail. Opening takes the first nine and an act four more, of which each second one
// is a sync. After the last of them every act is done.
const FAILS: [u64; 16] = [
    11, 13, 25, 59, 61, 63, 105, 251, 253, 257, 405, 505, 755, 1_007, 1_505, 2_005,
];

// The number of a thread's act, both counted from 1.
fn number_of(thread: u64, act: u64) -> u64 {
    thread.wrapping_mul(1_000).wrapping_add(act)
}

// What a thread asks in a turn, after so many of its acts were done: its next act, or the tally.
fn next_request(alloc: Global, thread: u64, turn: u64, done: u64) -> Option<Request> {
    if turn % 4 == 3 {
        return request(alloc, 0, Verb::Tally, b"");
    }
    enrolment(alloc, number_of(thread, done.saturating_add(1)))
}

// Whether an act was done.
fn is_done(request: &Request, reply: &Reply) -> bool {
    request.verb.is_act() && matches!(reply, Reply::Done(_))
}

// All turns of a thread. How many of its acts were done; 0 where memory was refused.
fn take_turns<V: Keeper, R: Wait>(
    rt: &R,
    alloc: Global,
    lock: &TurnLock<V>,
    pass: Pass,
    thread: u64,
) -> (Pass, u64)
    requires { pass.lock ≡ lock.now.id }
    ensures { (result.0.lock ≡ pass.lock) × (result.0.view.role ≡ pass.view.role) }
{
    let Some(mut clock) = new_clock() else {
        return (pass, 0);
    };
    let mut mine = pass;
    let mut done = 0u64;
    'turns: for turn in 0..TURNS {
        let Some(request) = next_request(alloc, thread, turn, done) else {
            return (mine, 0);
        };
        let (next, reply) = take_turn(rt, alloc, lock, mine, &request, &mut clock);
        mine = next;
        done = done.saturating_add(u64::from(is_done(&request, &reply)));
    }
    (mine, done)
}

// The receipt of an act in the history; 0 where none has its number, or memory was refused.
fn receipt_of<V: Keeper>(alloc: Global, desk: &V, number: u64) -> u64 {
    match format!(in alloc; "{number}") {
        Ok(digits) => number_asked(alloc, desk, Verb::Receipt, digits.as_bytes()),
        Err(_) => 0,
    }
}

// Marks the entry of a receipt. False where there is no such entry, or another act has it.
fn mark(marks: &mut [bool], receipt: u64) -> bool {
    match marks.get_mut((receipt as usize).wrapping_sub(1)) {
        Some(mark) => {
            let is_first = !*mark;
            *mark = true;
            is_first
        }
        None => false,
    }
}

// Marks the entry of a thread's act, which must be in the history.
fn mark_act<V: Keeper>(alloc: Global, desk: &V, number: u64, marks: &mut [bool]) -> bool {
    mark(marks, receipt_of(alloc, desk, number))
}

// Marks the entries of a thread's acts that were done. The first that has no entry of its own, 0 where there is none.
fn wrong_act<V: Keeper>(
    alloc: Global,
    desk: &V,
    thread: u64,
    done: u64,
    marks: &mut [bool],
) -> u64 {
    for act in 1..=done {
        if !mark_act(alloc, desk, number_of(thread, act), marks) {
            return act;
        }
    }
    0
}

// Marks the entry of the act after those that were done, where its fault left it in the history.
fn mark_next<V: Keeper>(
    alloc: Global,
    desk: &V,
    thread: u64,
    done: u64,
    marks: &mut [bool],
) -> bool {
    let number = number_of(thread, done.saturating_add(1));
    let receipt = receipt_of(alloc, desk, number);
    receipt == 0 || mark(marks, receipt)
}

// Marks the entries of a thread's acts. Whether it has done more than 100, and each has an entry of its own.
fn mark_thread<V: Keeper>(
    alloc: Global,
    desk: &V,
    thread: u64,
    done: u64,
    marks: &mut [bool],
) -> bool {
    done > 100
        && wrong_act(alloc, desk, thread, done, marks) == 0
        && mark_next(alloc, desk, thread, done, marks)
}

// Marks the entries of the acts of all threads. The first thread whose acts don't stand once each, counted from 1; 0
// where there is none.
fn wrong_thread<V: Keeper>(alloc: Global, desk: &V, counts: &[u64], marks: &mut [bool]) -> u64 {
    for (place, done) in counts.iter().enumerate() {
        let thread = (place as u64).wrapping_add(1);
        if !mark_thread(alloc, desk, thread, *done, marks) {
            return thread;
        }
    }
    0
}

// Whether each entry was marked.
fn are_all(marks: &[bool]) -> bool {
    marks.iter().all(|mark| *mark)
}

// Whether each act that was done stands in the history once, and nothing else does but acts that were in doubt.
fn stands_once<V: Keeper>(alloc: Global, desk: &V, counts: &[u64]) -> bool {
    let mut marks = Vec::new(alloc);
    if marks.resize(desk.entries() as usize, false).is_err() {
        return false;
    }
    wrong_thread(alloc, desk, counts, marks.as_mut_slice()) == 0 && are_all(&marks)
}

// Whether the tally of a history of so many entries has them, and nothing else.
fn is_tally(alloc: Global, reply: Option<Reply>, entries: u64) -> bool {
    let want = format!(in alloc;
        "entries {entries}\nisolated 0\nobjects 0\nretracted 0\naccepted 0\n"
    );
    match (reply, want) {
        (Some(Reply::Done(text)), Ok(want)) => text.as_slice() == want.as_bytes(),
        _ => false,
    }
}

fn has_tally<V: Keeper>(alloc: Global, desk: &V) -> bool {
    is_tally(alloc, asked(alloc, desk, Verb::Tally, b""), desk.entries())
}

// Whether the history is that of as many acts as the threads have done.
fn is_history<V: Keeper>(alloc: Global, desk: &V, counts: &[u64]) -> bool {
    counts.len() as u64 == THREADS && stands_once(alloc, desk, counts) && has_tally(alloc, desk)
}

// The turns of all threads, and whether the history after them is that of their acts.
#[derive(Clone, Copy)]
struct ManyTurns;

impl Turns for ManyTurns {
    type Told = bool;

    fn take<V: Keeper, R: Wait>(
        &self,
        rt: &R,
        alloc: Global,
        lock: &TurnLock<V>,
        pass: Pass,
        thread: u64,
    ) -> (Pass, u64) {
        take_turns(rt, alloc, lock, pass, thread)
    }

    fn tell<K: Keeper>(&self, alloc: Global, keeper: &K, came: &[u64]) -> bool {
        is_history(alloc, keeper, came)
    }
}

#[test]
fn turns_of_many_threads(rt: HostRuntime) {
    let are_kept = told_of_desk(&rt, rt.alloc(), CAPACITY, &FAILS, &ManyTurns);
    assert_eq!(rt; are_kept, Some(true));
}
