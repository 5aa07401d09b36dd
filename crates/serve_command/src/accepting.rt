//! Links that come through a door, each attended in a thread of its own.

ghost use Rattle.std.specs.Prelude.{◌≡◌, ◌+◌, ◌-◌, ◌<◌, ◌≤◌, [], ◌∷◌, ◌++◌, vec_len, vec_capacity, IfOk, IfErr};
ghost use Rattle.desk_io.specs.Doors.{Gives};
ghost use denote.Param.Send.{IsSend, IsSync};
ghost use Rattle.intake_lock.specs.Views.{stem, branch};
ghost use Rattle.act_model.specs.Clocks.{clock_of};
ghost use Rattle.serve_command.specs.Links.{link_words, link_start, IsLinkAttended};
ghost use Rattle.serve_command.specs.Gathering.{door_of, Stops, IsRootFor, IsSamePass, gather_start, gather_end};
ghost use Rattle.serve_command.specs.Gathering.{Gathers};

use crate::attending::attend_link;
use crate::ends::LinkEnd;
use crate::gates::Gate;
use act_model::Keeper;
use desk_io::{Clock, Next};
use intake_lock::{Pass, TurnLock, laws as lock_laws};
use std::alloc::Global;
use std::sync::Wait;
use std::thread::{Threads, join};

/// Why no further link was taken.
#[derive(Clone, Copy, Debug, PartialEq, Eq)]
pub enum Stop {
    /// As many links came as were wanted.
    Full,
    /// The door was shut.
    Shut,
    /// The door failed.
    Failed,
    /// Memory was refused.
    NoMemory,
}

/// What there is when all links were attended: the root's pass, the door, the ends of the links, of which the first
/// one's stands last, and why no further link was taken.
#[derive(Drop)]
pub(crate) struct Gathered<T, I, O> {
    pub root: Pass,
    pub gate: T,
    pub ends: Vec<LinkEnd<I, O>>,
    pub stop: Stop,
}

impl<T, I, O> Gathered<T, I, O> {
    // The same with the end of a link that came before the others.
    fn with_end(self, end: LinkEnd<I, O>) -> Gathered<T, I, O>
        requires { vec_len self.ends < vec_capacity self.ends }
        ensures same { (result.root ≡ self.root) × (result.gate ≡ self.gate) × (result.stop ≡ self.stop) }
        ensures ends { result.ends.items ≡ self.ends.items ++ end ∷ [] }
        ensures room { (vec_capacity result.ends ≡ vec_capacity self.ends)
            × (vec_len result.ends ≡ vec_len self.ends + 1) }
    {
        let Gathered {
            root,
            gate,
            mut ends,
            stop,
        } = self;
        ends.push_reserved(end);
        Gathered {
            root,
            gate,
            ends,
            stop,
        }
    }
}

// The next link of a door, where one more is wanted; else why no further one is taken.
fn next_link<T: Gate>(gate: &mut T, left: u64) -> Result<(T::In, T::Out), Stop>
    ensures link { IfOk result (λ link. (0 < left) × Gives (T.links gate.old) (T.links gate.new) (link ∷ [])
        × (T.faults gate.new ≡ T.faults gate.old)) }
    ensures none { IfErr result (λ stop. Gives (T.links gate.old) (T.links gate.new) []
        × Stops left [] (door_of T.links T.faults gate.old) (door_of T.links T.faults gate.new) stop) }
    ensures name { T.name gate.new ≡ T.name gate.old }
{
    if left == 0 {
        return Err(Stop::Full);
    }
    match gate.next() {
        Next::Link(source, sink) => Ok((source, sink)),
        Next::Shut => Err(Stop::Shut),
        Next::Failed => Err(Stop::Failed),
        Next::NoMemory => Err(Stop::NoMemory),
    }
}

// Splits a branch off the root, where as many more may be split as links are left.
fn split_root<V: Keeper>(lock: &TurnLock<V>, root: Pass, left: u64) -> Result<(Pass, Pass), Pass>
    requires lock { root.lock ≡ lock.now.id }
    requires some { 0 < left }
    requires root { IsRootFor left root.view.role }
    ensures stem { IfOk result (λ both. (both.0.lock ≡ root.lock) × (both.0.view ≡ stem root.view)) }
    ensures room { IfOk result (λ both. IsRootFor (left - 1) both.0.view.role) }
    ensures branch { IfOk result (λ both. (both.1.lock ≡ root.lock) × (both.1.view ≡ branch root.view)) }
    ensures back { IfErr result (λ same. same ≡ root) }
{
    lock.split(root)
}

/// Takes up to `left` links of a door, and attends each in this thread, while another one awaits those that come after
/// it.
///
/// Where a thread can't be started, the link is attended at once, and the next one is awaited after it.
pub(crate) fn attend_links<
    V: Keeper + Send,
    T: Gate + Send,
    C: Clock + Send,
    R: Threads + Wait + Sync,
>(
    rt: &R,
    alloc: Global,
    lock: &TurnLock<V>,
    root: Pass,
    mut gate: T,
    mut clock: C,
    ends: Vec<LinkEnd<T::In, T::Out>>,
    left: u64,
) -> Gathered<T, T::In, T::Out>
    requires lock { root.lock ≡ lock.now.id }
    requires root { IsRootFor left root.view.role }
    requires room { vec_len ends + left ≤ vec_capacity ends }
    ensures root { IsSamePass root result.root }
    ensures gate { T.name result.gate ≡ T.name gate }
    ensures room { (vec_capacity result.ends ≡ vec_capacity ends) × (vec_len result.ends ≤ vec_len ends + left) }
    ensures gathers { Gathers (link_words T.In.left T.In.gives T.In.faults T.In.is_open T.Out.taken T.Out.faults
        T.Out.is_open)
        (record {
          view = root.view;
          clock = clock_of C.reading C.last clock;
          door = door_of T.links T.faults gate;
          most = left;
          ends = ends.items;
        })
        (record {
          view = result.root.view;
          door = door_of T.links T.faults result.gate;
          ends = result.ends.items;
          stop = result.stop;
        }) }
{
    lock_laws::beginnings();
    let (source, sink) = match next_link(&mut gate, left) {
        Ok(link) => link,
        Err(stop) => return Gathered {
            root,
            gate,
            ends,
            stop,
        },
    };
    let other = clock.another();
    match split_root(lock, root, left) {
        Ok((root, branch)) => {
            let (gathered, (branch, end)) = join(
                rt,
                move || -> Gathered<T, T::In, T::Out>
                    requires { IsSync R.row × IsSend V.row × IsSend T.row × IsSend C.row × (0 < left)
                        × (root.lock ≡ lock.now.id) × IsRootFor (left - 1) root.view.role
                        × (vec_len ends + (left - 1) ≤ vec_capacity ends) }
                    ensures { IsSamePass root result.root × (T.name result.gate ≡ T.name gate)
                        × (vec_capacity result.ends ≡ vec_capacity ends)
                        × (vec_len result.ends ≤ vec_len ends + (left - 1))
                        × Gathers (link_words T.In.left T.In.gives T.In.faults T.In.is_open T.Out.taken T.Out.faults
                        T.Out.is_open)
                        (gather_start root.view (clock_of C.reading C.last clock) (door_of T.links T.faults gate)
                        (left - 1) ends.items)
                        (gather_end result.root.view (door_of T.links T.faults result.gate) result.ends.items
                        result.stop) }
                { attend_links(rt, alloc, lock, root, gate, clock, ends, left - 1) },
                move || -> (Pass, LinkEnd<T::In, T::Out>)
                    requires { branch.lock ≡ lock.now.id }
                    ensures { IsSamePass branch result.0
                        × IsLinkAttended (link_words T.In.left T.In.gives T.In.faults T.In.is_open T.Out.taken
                        T.Out.faults T.Out.is_open)
                        (link_start source sink branch.view (clock_of C.reading C.last other))
                        result.1 result.0.view }
                { attend_link(rt, alloc, lock, branch, source, sink, other) },
            );
            let Gathered {
                root,
                gate,
                ends,
                stop,
            } = gathered.with_end(end);
            Gathered {
                root: lock.join(root, branch),
                gate,
                ends,
                stop,
            }
        }
        Err(root) => {
            let (root, end) = attend_link(rt, alloc, lock, root, source, sink, other);
            attend_links(rt, alloc, lock, root, gate, clock, ends, left - 1).with_end(end)
        }
    }
}
