//! Making a mirror hold the catalogue.

ghost use Rattle.std.specs.Prelude.{◌≡◌, ◌≤◌};
ghost use Rattle.call_log.specs.Counts.{Rises};
ghost use Rattle.mpc_desk.specs.Pairs.{pair};
ghost use Rattle.command_ends.specs.Courses.{sink_words, change};
ghost use Rattle.command_ends.specs.Disks.{disk_words};
ghost use Rattle.command_ends.specs.Reading.{IsSound};
ghost use Rattle.command_ends.specs.declared.status.Status.{Status};
ghost use Rattle.mirror_store.specs.Words.{mirror_words};
ghost use Rattle.mirror_command.specs.Lines.{line_text};
ghost use Rattle.mirror_command.specs.Ends.{Tells, AtHistory, Mirrors};
ghost use Rattle.mirror_command.specs.Promises.{KeepsMirror};

use crate::line::line;
use command_ends::{Ended, Status, end_reading, open_to_read};
use desk_io::{Sink, write_all};
use disk_model::Disk;
use mirror_store::{Mirror, RefreshFault, Refreshed, refresh};
use mpc_desk::{Desk, laws as desk_laws};
use std::alloc::Global;

/// Writes how many rows there are.
fn tell<K: Sink>(sink: &mut K, refreshed: Refreshed) -> Status
    ensures told { Tells (K.taken sink.old) (K.taken sink.new)
        (line_text refreshed.entries refreshed.objects refreshed.sights) result }
    ensures counts { K.faults sink.old ≤ K.faults sink.new }
    ensures cause { result ≡ Status.WriteFault → Rises (K.faults sink.old) (K.faults sink.new) }
    ensures faultless { (result ≡ Status.WriteFault → ⊥) → K.faults sink.new ≡ K.faults sink.old }
    ensures stays { K.is_open sink.new ≡ K.is_open sink.old }
{
    match write_all(sink, line(refreshed).as_slice()) {
        Ok(()) => Status::Done,
        Err(_) => Status::WriteFault,
    }
}

/// Makes a mirror hold the rows of an office, and writes how many they are.
fn mirror_out<K: Sink, D: Disk, M: Mirror>(
    alloc: Global,
    desk: &Desk<D>,
    sink: &mut K,
    mirror: &mut M,
) -> Status
    ensures ends { AtHistory (sink_words K.taken K.faults K.is_open) (mirror_words M.told M.faults)
        (change sink.old sink.new) (change mirror.old mirror.new) desk.now.chained.state.settled result }
    ensures write_counts { K.faults sink.old ≤ K.faults sink.new }
    ensures write_cause { result ≡ Status.WriteFault → Rises (K.faults sink.old) (K.faults sink.new) }
    ensures write_faultless { (result ≡ Status.WriteFault → ⊥) → K.faults sink.new ≡ K.faults sink.old }
    ensures stays { K.is_open sink.new ≡ K.is_open sink.old }
    ensures mirror_counts { M.faults mirror.old ≤ M.faults mirror.new }
    ensures mirror_cause { result ≡ Status.MirrorFault → Rises (M.faults mirror.old) (M.faults mirror.new) }
    ensures mirror_faultless { (result ≡ Status.MirrorFault → ⊥) → M.faults mirror.new ≡ M.faults mirror.old }
{
    match refresh(alloc, desk.core(), mirror) {
        Ok(refreshed) => tell(sink, refreshed),
        Err(RefreshFault::Failed) => Status::MirrorFault,
        Err(RefreshFault::TooMany { count }) => Status::TooMany { count },
        Err(RefreshFault::NoMemory) => Status::NoMemory,
    }
}

/// Opens the office, makes the mirror hold its rows, and closes it.
fn mirror_all<K: Sink, D: Disk, M: Mirror>(
    alloc: Global,
    sink: &mut K,
    disk: D,
    second: D,
    mirror: &mut M,
) -> Ended<D>
    ensures ends { Mirrors (sink_words K.taken K.faults K.is_open)
        (disk_words D.reads D.leaves D.moment D.since D.faults) (mirror_words M.told M.faults)
        (record {
          sink = change sink.old sink.new;
          disks = change (pair disk second) (pair result.disk result.second);
          mirror = change mirror.old mirror.new;
          added = result.added;
        })
        result.status }
    ensures write_counts { K.faults sink.old ≤ K.faults sink.new }
    ensures write_cause { result.status ≡ Status.WriteFault → Rises (K.faults sink.old) (K.faults sink.new) }
    ensures write_faultless { (result.status ≡ Status.WriteFault → ⊥) → K.faults sink.new ≡ K.faults sink.old }
    ensures stays { K.is_open sink.new ≡ K.is_open sink.old }
    ensures mirror_counts { M.faults mirror.old ≤ M.faults mirror.new }
    ensures mirror_cause { result.status ≡ Status.MirrorFault → Rises (M.faults mirror.old) (M.faults mirror.new) }
    ensures mirror_faultless { (result.status ≡ Status.MirrorFault → ⊥) →
        M.faults mirror.new ≡ M.faults mirror.old }
    ensures sound { IsSound (disk_words D.reads D.leaves D.moment D.since D.faults) (pair disk second) result.status }
{
    let desk = match open_to_read(alloc, disk, second) {
        Ok(desk) => desk,
        Err(ended) => return ended,
    };
    let status = mirror_out(alloc, &desk, sink, mirror);
    end_reading(desk, status)
}

/// Makes a mirror hold the catalogue of the office that the two disks stand for, and writes how many rows it holds:
/// `mirror N objects O sights S`, with the office's entries, its objects and the observations that stand. The office is
/// opened with a key that no founding officer has, and nothing is added to it; where the second file isn't in force it
/// is carried over into it. It takes memory.
///
/// Ends with `Done`, `DiskFault`, `Damaged`, `TooMany`, `MirrorFault`, `WriteFault` or `NoMemory`. `DiskFault` and
/// `Damaged` come while the office is opened, before the mirror is called; after every end but `Done` and `WriteFault`
/// the mirror holds what it held before.
pub fn mirror<K: Sink, D: Disk, M: Mirror>(
    alloc: Global,
    sink: &mut K,
    disk: D,
    second: D,
    mirror: &mut M,
) -> Ended<D>
    // What is promised at each end stands in `specs/Promises.antt`.
    ensures promises { KeepsMirror (sink_words K.taken K.faults K.is_open)
        (disk_words D.reads D.leaves D.moment D.since D.faults) (mirror_words M.told M.faults)
        (record {
          sink = change sink.old sink.new;
          disks = change (pair disk second) (pair result.disk result.second);
          mirror = change mirror.old mirror.new;
          added = result.added;
        })
        result.status }
{
    desk_laws::one_history();
    mirror_all(alloc, sink, disk, second, mirror)
}
