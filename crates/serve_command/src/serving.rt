//! The whole service of a door, over one journal.

ghost use Rattle.std.specs.Prelude.{◌≡◌, ◌≤◌, []};
ghost use Rattle.call_log.specs.Counts.{Rises};
ghost use Rattle.act_model.specs.Clocks.{clock_of};
ghost use Rattle.act_model.specs.Roster.{IsFounder};
ghost use Rattle.intake_lock.specs.Rule.{MOST};
ghost use Rattle.mpc_desk.specs.Pairs.{pair};
ghost use Rattle.command_ends.specs.Courses.{sink_words, outside_words, change};
ghost use Rattle.command_ends.specs.Disks.{disk_words};
ghost use Rattle.serve_command.specs.Links.{link_words};
ghost use Rattle.serve_command.specs.Gathering.{door_of};
ghost use Rattle.serve_command.specs.Promises.{KeepsServe, door_words};
ghost use Rattle.serve_command.specs.Runs.{first_fault, Writes, Ends};
ghost use Rattle.serve_command.specs.Summaries.{summary};

use crate::accepting::Stop;
use crate::ends::{LinkEnd, count_of, no_ends};
use crate::keeping::Attended;
use crate::summaries::write_summary;
use crate::watching::attend_watched;
use act_model::{Keeper, Key, laws as office_laws};
use command_ends::{Ended, Status, mend_last, open_desk};
use desk_io::{Clock, Door, Sink};
use disk_model::Disk;
use http_connection::laws as link_laws;
use intake_lock::laws as lock_laws;
use mpc_desk::laws as desk_laws;
use std::alloc::Global;
use std::marker::Brand;
use std::sync::Wait;
use std::thread::Threads;

// The first fault that arose, where the last mending gave this status.
fn first_fault(stop: Option<Stop>, mended: Status) -> Status
    ensures { result ≡ first_fault stop mended }
{
    match stop {
        Some(Stop::Full | Stop::Shut) => mended,
        Some(Stop::Failed) => Status::DoorFault,
        Some(Stop::NoMemory) | None => Status::NoMemory,
    }
}

// Writes the two lines where nothing failed so far.
fn write_lines<K: Sink>(sink: &mut K, so_far: Status, connections: u64, entries: u64) -> Status
    requires { so_far ≡ Status.WriteFault → ⊥ }
    ensures writes { Writes so_far (sink.new ≡ sink.old) (K.taken sink.old) (K.taken sink.new)
        (summary connections entries) result }
    ensures counts { K.faults sink.old ≤ K.faults sink.new }
    ensures cause { result ≡ Status.WriteFault → Rises (K.faults sink.old) (K.faults sink.new) }
    ensures faultless { (result ≡ Status.WriteFault → ⊥) → K.faults sink.new ≡ K.faults sink.old }
    ensures stays { K.is_open sink.new ≡ K.is_open sink.old }
{
    match so_far {
        Status::Done => match write_summary(sink, connections, entries) {
            Ok(()) => Status::Done,
            Err(_) => Status::WriteFault,
        },
        failed => failed,
    }
}

// Opens the desk, attends the links of the door, mends an act in doubt, and writes the two lines.
fn run<D: Disk + Send, K: Sink, C: Clock + Send, G: Door + Send, R: Threads + Wait + Sync>(
    rt: &R,
    alloc: Global,
    founder: Key,
    connections: u64,
    sink: &mut K,
    disk: D,
    second: D,
    clock: &mut C,
    door: &mut G,
) -> (Ended<D>, Vec<LinkEnd<G::In, G::Out>>)
    requires founder { IsFounder founder }
    requires most { connections ≤ MOST }
    // What was attended, added, kept, mended and written at each end, and what a crash at any moment leaves.
    ensures ends { Ends (disk_words D.reads D.leaves D.moment D.since D.faults)
        (link_words G.In.left G.In.gives G.In.faults G.In.is_open G.Out.taken G.Out.faults G.Out.is_open)
        (record {
          founder = founder;
          disks = pair disk second;
          clock = clock_of C.reading C.last clock.old;
          door = door_of G.links G.faults door.old;
          most = connections;
          taken = K.taken sink.old;
        })
        (record {
          disks = pair result.0.disk result.0.second;
          door = door_of G.links G.faults door.new;
          ends = result.1.items;
          taken = K.taken sink.new;
          added = result.0.added;
          status = result.0.status;
        })
        ((sink.new ≡ sink.old) × (clock.new ≡ clock.old) × (door.new ≡ door.old) × (result.1.items ≡ []))
        ((clock.new ≡ clock.old) × (door.new ≡ door.old)) (sink.new ≡ sink.old) }

    // The sink failed where the end is `WriteFault`, and nowhere else.
    ensures write_cause { result.0.status ≡ Status.WriteFault → Rises (K.faults sink.old) (K.faults sink.new) }
    ensures write_faultless { (result.0.status ≡ Status.WriteFault → ⊥) → K.faults sink.new ≡ K.faults sink.old }
    ensures counts { K.faults sink.old ≤ K.faults sink.new }

    // What was open is open.
    ensures stays { K.is_open sink.new ≡ K.is_open sink.old }
{
    lock_laws::beginnings();
    link_laws::added_calls();
    office_laws::acknowledged_acts_are_kept();
    office_laws::histories_grow();
    office_laws::histories_are_legal();
    office_laws::steps_add_one_entry();
    office_laws::kept_replies_stay();
    office_laws::prefixes_are_legal();
    office_laws::legal_numbers_once();
    office_laws::one_place();
    office_laws::unbroken_rows();
    office_laws::unbroken_numbers();
    desk_laws::lines_are_added();
    let (first, desk) = match open_desk(alloc, founder, disk, second) {
        Ok(desk) => desk.apart(),
        Err(ended) => return (ended, no_ends(alloc)),
    };
    let before = desk.entries();
    let Attended {
        keeper: mut desk,
        ends,
        stop,
    } = attend_watched::<Brand, D, C, G, R>(rt, alloc, desk, connections, clock, door);
    let mended = mend_last(&mut desk);
    let entries = desk.entries();
    let status = write_lines(sink, first_fault(stop, mended), count_of(&ends), entries);
    let added = entries - before;
    (
        Ended {
            status,
            disk: first,
            second: desk.close(),
            added,
        },
        ends,
    )
}

/// Serves a door over the office that the two disks stand for: attends `connections` links, or fewer where the door is
/// shut, each in a thread of its own while the next one is awaited. Each link has its own clock and its own turns at
/// the office, and its source and sink are ended when it was left. When all links were left, an act in doubt is mended
/// once, and where nothing has failed so far the sink gets two lines, `connections N` and `entries E`.
///
/// `founder` is the founding officer's key, which begins with a plus and has at most 33 bytes; `connections` is at most
/// 1,000. It answers how the call ended, with the first fault that arose, the disks, by how many entries the settled
/// history grew, and how each link ended. It ends with `Done`, `DiskFault`, `Damaged`, `WriteFault`, `NoMemory` or
/// `DoorFault`.
pub fn serve<D: Disk + Send, K: Sink, C: Clock + Send, G: Door + Send, R: Threads + Wait + Sync>(
    rt: &R,
    alloc: Global,
    founder: Key,
    connections: u64,
    sink: &mut K,
    disk: D,
    second: D,
    clock: &mut C,
    door: &mut G,
) -> (Ended<D>, Vec<LinkEnd<G::In, G::Out>>)
    requires founder { IsFounder founder }
    requires most { connections ≤ MOST }
    // What is promised at each end stands in `specs/Promises.antt`.
    ensures promises { KeepsServe
        (outside_words (sink_words K.taken K.faults K.is_open)
        (disk_words D.reads D.leaves D.moment D.since D.faults) (clock_of C.reading C.last))
        (door_words G.links G.faults
        (link_words G.In.left G.In.gives G.In.faults G.In.is_open G.Out.taken G.Out.faults G.Out.is_open))
        (record {
          sink = change sink.old sink.new;
          disks = change (pair disk second) (pair result.0.disk result.0.second);
          clock = change clock.old clock.new;
          added = result.0.added;
          status = result.0.status;
        }) (change door.old door.new) result.1.items founder connections }
{
    desk_laws::damage();
    run(
        rt,
        alloc,
        founder,
        connections,
        sink,
        disk,
        second,
        clock,
        door,
    )
}
