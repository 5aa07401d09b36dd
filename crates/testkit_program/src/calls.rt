//! Calls of the program on three disks in memory.
//!
//! What owns disks, a mirror or a door is generic in them: it takes each as the answer of what makes it, so that no
//! function lets a device go of which it knows the type.

use crate::links::{End, Exchanged, Sent, Took, door_of, long_door, wrong_end, wrong_long_end};
use crate::parts::{both, let_go};
use command_ends::Ended as CommandEnded;
use desk_io::{Clock, Door, MemDoor, NoMemory, Sink, Source, TcpDoor};
use disk_model::{Disk, MemDisk};
use mirror_store::{MemMirror, Mirror};
use program_top::top::{single, top};
use program_top::{Ended, LinkEnds, Words};
use std::alloc::Global;
use std::net::{Net, TcpListener, TcpStream};
use std::rt::Clock as HostClock;
use std::sync::Wait;
use std::thread::Threads;
use testkit_sessions::{Call, Devices, Drive, Drives, Found, Wrong, are_left, disks_of, has_ended};

/// `single`, without its clauses.
fn called<S: Source, K: Sink, D: Disk, C: Clock, M: Mirror>(
    alloc: Global,
    words: &Words,
    source: &mut S,
    sink: &mut K,
    disk: D,
    second: D,
    clock: &mut C,
    mirror: &mut M,
    comets: D,
) -> Ended<D> {
    single(
        alloc, words, source, sink, disk, second, clock, mirror, comets,
    )
}

/// `top`, without its clauses.
fn served<
    S: Source,
    K: Sink,
    D: Disk + Send,
    C: Clock + Send,
    G: Door + Send,
    M: Mirror,
    R: Threads + Wait + Sync,
>(
    rt: &R,
    alloc: Global,
    words: &Words,
    source: &mut S,
    sink: &mut K,
    disk: D,
    second: D,
    clock: &mut C,
    door: &mut G,
    mirror: &mut M,
    comets: D,
) -> (Ended<D>, LinkEnds<G::In, G::Out>) {
    top(
        rt, alloc, words, source, sink, disk, second, clock, door, mirror, comets,
    )
}

/// The disks of a call: the office's two, and the register's.
#[derive(Drop)]
struct Disks<D: Disk> {
    office: (D, D),
    comets: D,
}

/// The disks of an office, and of two others the second one as the register's.
///
/// # Errors
///
/// Memory was refused for one of them.
fn disks_beside<D: Disk>(
    office: Result<(D, D), NoMemory>,
    others: Result<(D, D), NoMemory>,
) -> Result<Disks<D>, NoMemory> {
    let (office, (_, comets)) = both(office, others)?;
    Ok(Disks { office, comets })
}

/// Two empty disks.
fn two_disks(alloc: Global) -> Result<(MemDisk, MemDisk), NoMemory> {
    disks_of(alloc, &Drives::EMPTY)
}

fn empty_disks(alloc: Global) -> Result<Disks<MemDisk>, NoMemory> {
    disks_beside(two_disks(alloc), two_disks(alloc))
}

/// The disks after a call that ended so.
///
/// # Errors
///
/// What is wrong with the call.
fn judged<D: Disk>(
    alloc: Global,
    call: &Call,
    ended: Ended<D>,
    devices: &Devices,
) -> Result<Disks<D>, Wrong> {
    let Ended {
        status,
        disk,
        second,
        comets,
        added,
    } = ended;
    let command = CommandEnded {
        status,
        disk,
        second,
        added,
    };
    has_ended(alloc, call, &command, &devices.sink)?;
    Ok(Disks {
        office: (command.disk, command.second),
        comets,
    })
}

/// Calls `single` over these devices.
fn called_on<D: Disk, M: Mirror>(
    alloc: Global,
    devices: &mut Devices,
    disks: Disks<D>,
    mirror: &mut M,
) -> Ended<D> {
    let Disks { office, comets } = disks;
    called(
        alloc,
        &devices.words,
        &mut devices.source,
        &mut devices.sink,
        office.0,
        office.1,
        &mut devices.clock,
        mirror,
        comets,
    )
}

/// Calls `top` over these devices.
fn served_on<D: Disk + Send, M: Mirror, G: Door + Send, R: Threads + Wait + Sync>(
    rt: &R,
    alloc: Global,
    devices: &mut Devices,
    disks: Disks<D>,
    mirror: &mut M,
    door: &mut G,
) -> (Ended<D>, LinkEnds<G::In, G::Out>) {
    let Disks { office, comets } = disks;
    served(
        rt,
        alloc,
        &devices.words,
        &mut devices.source,
        &mut devices.sink,
        office.0,
        office.1,
        &mut devices.clock,
        door,
        mirror,
        comets,
    )
}

/// Calls `single` on these disks with this mirror.
fn call_alone<D: Disk, M: Mirror>(
    alloc: Global,
    call: &Call,
    disks: Result<Disks<D>, NoMemory>,
    mirror: Result<M, NoMemory>,
) -> Result<(), Wrong> {
    let (disks, mut mirror) = both(disks, mirror)?;
    let mut devices = Devices::new(alloc, call)?;
    let ended = called_on(alloc, &mut devices, disks, &mut mirror);
    judged(alloc, call, ended, &devices)?;
    Ok(())
}

/// Calls `single` on three empty disks.
///
/// # Errors
///
/// What is wrong with the call.
pub fn call_single(alloc: Global, call: &Call) -> Result<(), Wrong> {
    call_alone(alloc, call, empty_disks(alloc), MemMirror::new(alloc, &[]))
}

/// Calls `top` on these disks with this mirror, and links that come through this door. Gives the disks back, and how
/// the links ended.
fn call_on<D: Disk + Send, M: Mirror, G: Door + Send, R: Threads + Wait + Sync>(
    rt: &R,
    alloc: Global,
    call: &Call,
    disks: Disks<D>,
    mirror: &mut M,
    door: &mut G,
) -> Result<(Disks<D>, LinkEnds<G::In, G::Out>), Wrong> {
    let mut devices = Devices::new(alloc, call)?;
    let (ended, ends) = served_on(rt, alloc, &mut devices, disks, mirror, door);
    Ok((judged(alloc, call, ended, &devices)?, ends))
}

/// What calls are made over one after another: disks, a mirror and a door.
#[derive(Drop)]
struct Machine<T, M: Mirror, G: Door> {
    disks: T,
    mirror: M,
    door: G,
}

/// A machine of these, where memory was there for each.
fn machine_of<T: Drop, M: Mirror, G: Door>(
    disks: Result<T, NoMemory>,
    mirror: Result<M, NoMemory>,
    door: Result<G, NoMemory>,
) -> Result<Machine<T, M, G>, NoMemory> {
    let ((disks, mirror), door) = both(both(disks, mirror), door)?;
    Ok(Machine {
        disks,
        mirror,
        door,
    })
}

/// A door through which no link comes.
fn shut_door(alloc: Global) -> Result<MemDoor, NoMemory> {
    door_of(alloc, &[], 0)
}

/// Calls `top` over this machine, and gives it back.
fn call_over<D: Disk + Send, M: Mirror, G: Door + Send, R: Threads + Wait + Sync>(
    rt: &R,
    alloc: Global,
    call: &Call,
    machine: Machine<Disks<D>, M, G>,
) -> Result<Machine<Disks<D>, M, G>, Wrong> {
    let Machine {
        disks,
        mut mirror,
        mut door,
    } = machine;
    let (disks, _) = call_on(rt, alloc, call, disks, &mut mirror, &mut door)?;
    Ok(Machine {
        disks,
        mirror,
        door,
    })
}

/// Calls `top` one time after another on three disks, which are empty at first, with a mirror of which the calls with
/// these numbers fail, counted together from 1. No link comes.
///
/// # Errors
///
/// What is wrong with the first call that isn't as wanted.
pub fn call_in_turn<R: Threads + Wait + Sync>(
    rt: &R,
    alloc: Global,
    fails: &[u64],
    calls: &[Call],
) -> Result<(), Wrong> {
    let mirror = MemMirror::new(alloc, fails);
    let mut machine = machine_of(empty_disks(alloc), mirror, shut_door(alloc))?;
    for call in calls {
        machine = call_over(rt, alloc, call, machine)?;
    }
    let_go(machine);
    Ok(())
}

/// Whether the register's disk, which fails at its first call, was called by nobody before, and has its file.
fn is_at_rest<D: Disk>(alloc: Global, drives: &Drives, mark: usize, other: D, comets: D) -> bool {
    let mut comets = comets;
    comets.len().is_err() && are_left(alloc, drives, (other, comets), mark).is_ok()
}

/// Calls `top` over this machine, which has the office's disks, beside the second of two disks as the register's, which
/// must stay as these drives have it. Gives the machine back. No link comes.
fn call_beside<D: Disk + Send, M: Mirror, G: Door + Send, R: Threads + Wait + Sync>(
    rt: &R,
    alloc: Global,
    call: &Call,
    machine: Machine<(D, D), M, G>,
    drives: &Drives,
    beside: Result<(D, D), NoMemory>,
) -> Result<Machine<(D, D), M, G>, Wrong> {
    let (machine, (other, comets)) = both(Ok(machine), beside)?;
    let Machine {
        disks: office,
        mut mirror,
        mut door,
    } = machine;
    let disks = Disks { office, comets };
    let (disks, _) = call_on(rt, alloc, call, disks, &mut mirror, &mut door)?;
    let Disks { office, comets } = disks;
    if is_at_rest(alloc, drives, call.mark, other, comets) {
        return Ok(Machine {
            disks: office,
            mirror,
            door,
        });
    }
    let found = Found::File(3);
    Err(Wrong {
        mark: call.mark,
        found,
    })
}

/// Calls `top` one time after another on the office's two disks, which are empty at first, each time beside a disk of
/// the register that has this file and fails at its first call. No link comes.
///
/// # Errors
///
/// What is wrong with the first call that isn't as wanted, or that called the register's disk, which is file 3.
pub fn call_beside_register<R: Threads + Wait + Sync>(
    rt: &R,
    alloc: Global,
    file: &[u8],
    calls: &[Call],
) -> Result<(), Wrong> {
    let drives = Drives::with_second(Drive {
        fails: &[1],
        ..Drive::kept(file)
    });
    let mirror = MemMirror::new(alloc, &[]);
    let mut machine = machine_of(two_disks(alloc), mirror, shut_door(alloc))?;
    for call in calls {
        let beside = disks_of(alloc, &drives);
        machine = call_beside(rt, alloc, call, machine, &drives, beside)?;
    }
    let_go(machine);
    Ok(())
}

/// Calls `top` on these disks with this mirror, and gives how the links ended that came through this door.
fn ends_on<D: Disk + Send, M: Mirror, G: Door + Send, R: Threads + Wait + Sync>(
    rt: &R,
    alloc: Global,
    call: &Call,
    disks: Result<Disks<D>, NoMemory>,
    mirror: Result<M, NoMemory>,
    door: &mut G,
) -> Result<LinkEnds<G::In, G::Out>, Wrong> {
    let (disks, mut mirror) = both(disks, mirror)?;
    let (_, ends) = call_on(rt, alloc, call, disks, &mut mirror, door)?;
    Ok(ends)
}

/// Calls `top` on three empty disks, with links that come through this door, and gives how they ended.
fn ends_through<G: Door + Send, R: Threads + Wait + Sync>(
    rt: &R,
    alloc: Global,
    call: &Call,
    door: &mut G,
) -> Result<LinkEnds<G::In, G::Out>, Wrong> {
    let mirror = MemMirror::new(alloc, &[]);
    ends_on(rt, alloc, call, empty_disks(alloc), mirror, door)
}

/// Calls `top` on three empty disks, with links that come through this door, and gives the place of the first link that
/// ended otherwise than it is wanted.
///
/// # Errors
///
/// Memory was refused for the door, or what is wrong with the call.
pub(crate) fn call_through<G: Door + Send, R: Threads + Wait + Sync>(
    rt: &R,
    alloc: Global,
    call: &Call,
    door: Result<G, NoMemory>,
    wanted: &[End],
) -> Result<Option<usize>, Wrong>
where
    G::Out: Took,
{
    let mut door = door?;
    let ends = ends_through(rt, alloc, call, &mut door)?;
    Ok(wrong_end(&ends, wanted))
}

/// Calls `top` on three empty disks, with these links through a door in memory, of which the call with the number
/// `fails` fails (for 0 none does), and gives the place of the first link that ended otherwise than it is wanted.
///
/// # Errors
///
/// What is wrong with the call.
pub fn call_over_links<R: Threads + Wait + Sync>(
    rt: &R,
    alloc: Global,
    call: &Call,
    links: &[Sent],
    fails: u64,
    wanted: &[End],
) -> Result<Option<usize>, Wrong> {
    call_through(rt, alloc, call, door_of(alloc, links, fails), wanted)
}

/// Calls `top` on three empty disks, with links that come through this door, and gives the place of the first link that
/// ended otherwise than these are to.
fn call_through_long<G: Door + Send, R: Threads + Wait + Sync>(
    rt: &R,
    alloc: Global,
    call: &Call,
    door: Result<G, NoMemory>,
    links: &[Exchanged],
) -> Result<Option<usize>, Wrong>
where
    G::Out: Took,
{
    let mut door = door?;
    let ends = ends_through(rt, alloc, call, &mut door)?;
    Ok(wrong_long_end(alloc, &ends, links)?)
}

/// Calls `top` on three empty disks, with these links through a door in memory, and gives the place of the first link
/// that ended otherwise.
///
/// # Errors
///
/// What is wrong with the call.
pub fn call_over_long_links<R: Threads + Wait + Sync>(
    rt: &R,
    alloc: Global,
    call: &Call,
    links: &[Exchanged],
) -> Result<Option<usize>, Wrong> {
    call_through_long(rt, alloc, call, long_door(alloc, links), links)
}

/// Calls `top` on three empty disks, with links that come through this door, and gives how many came.
fn count_through<G: Door + Send, R: Threads + Wait + Sync>(
    rt: &R,
    alloc: Global,
    call: &Call,
    door: G,
) -> Result<u64, Wrong> {
    let mut door = door;
    let ends = ends_through(rt, alloc, call, &mut door)?;
    Ok(ends.len())
}

/// Calls `top` on three empty disks, with links that come through port 8017 of this machine, and gives how many came.
///
/// # Errors
///
/// What is wrong with the call.
pub(crate) fn call_over_port<
    R: Threads + Wait + Sync,
    N: Net<Listener = TcpListener, Stream = TcpStream> + HostClock + Copy + Send + Sync,
>(rt: &R, net: N, alloc: Global, call: &Call) -> Result<u64, Wrong> {
    count_through(rt, alloc, call, TcpDoor::new(net, alloc))
}
