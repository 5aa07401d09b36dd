//! Writing out the catalogue.

ghost use Rattle.std.specs.Prelude.{◌≡◌, ◌≤◌};
ghost use Rattle.call_log.specs.Counts.{Rises};
ghost use Rattle.act_model.specs.Catalogue.{catalogue};
ghost use Rattle.mpc_desk.specs.Pairs.{pair};
ghost use Rattle.command_ends.specs.Courses.{sink_words, change};
ghost use Rattle.command_ends.specs.Disks.{disk_words};
ghost use Rattle.command_ends.specs.Reading.{IsSound};
ghost use Rattle.export_command.specs.Exports.{IsWritten, Exports};
ghost use Rattle.export_command.specs.Promises.{KeepsExport};

use catalogue_export::{ExportFault, export as write_catalogue};
use command_ends::{Ended, Status, end_reading, open_to_read};
use desk_io::Sink;
use disk_model::Disk;
use mpc_desk::Desk;
use std::alloc::Global;

/// Writes the catalogue of an office.
fn write_out<K: Sink, D: Disk>(alloc: Global, desk: &Desk<D>, sink: &mut K) -> Status
    ensures written { IsWritten (K.taken sink.old) (K.taken sink.new) (catalogue desk.now.chained.state.settled)
        result }
    ensures counts { K.faults sink.old ≤ K.faults sink.new }
    ensures cause { result ≡ Status.WriteFault → Rises (K.faults sink.old) (K.faults sink.new) }
    ensures faultless { (result ≡ Status.WriteFault → ⊥) → K.faults sink.new ≡ K.faults sink.old }
    ensures stays { K.is_open sink.new ≡ K.is_open sink.old }
{
    match write_catalogue(alloc, desk.core(), sink) {
        Ok(_) => Status::Done,
        Err(ExportFault::WriteFault) => Status::WriteFault,
        Err(ExportFault::NoMemory) => Status::NoMemory,
    }
}

/// Opens the office, writes its catalogue, and closes it.
fn export_all<K: Sink, D: Disk>(alloc: Global, sink: &mut K, disk: D, second: D) -> Ended<D>
    ensures ends { Exports (disk_words D.reads D.leaves D.moment D.since D.faults)
        (record {
          disks = pair disk second;
          disks_after = pair result.disk result.second;
          taken = K.taken sink.old;
          taken_after = K.taken sink.new;
          added = result.added;
        })
        (sink.new ≡ sink.old) result.status }
    ensures write_cause { result.status ≡ Status.WriteFault → Rises (K.faults sink.old) (K.faults sink.new) }
    ensures write_faultless { (result.status ≡ Status.WriteFault → ⊥) → K.faults sink.new ≡ K.faults sink.old }
    ensures counts { K.faults sink.old ≤ K.faults sink.new }
    ensures stays { K.is_open sink.new ≡ K.is_open sink.old }
    ensures sound { IsSound (disk_words D.reads D.leaves D.moment D.since D.faults) (pair disk second) result.status }
{
    let desk = match open_to_read(alloc, disk, second) {
        Ok(desk) => desk,
        Err(ended) => return ended,
    };
    let status = write_out(alloc, &desk, sink);
    end_reading(desk, status)
}

/// Writes the catalogue of the office that the two disks stand for, page by page. The office is opened with a key that
/// no founding officer has, and nothing is added to it; where the second file isn't in force it is carried over into
/// it. It takes memory.
///
/// Ends with `Done`, `DiskFault`, `Damaged`, `WriteFault` or `NoMemory`; `DiskFault` and `Damaged` come while the
/// office is opened, before anything is written.
pub fn export<K: Sink, D: Disk>(alloc: Global, sink: &mut K, disk: D, second: D) -> Ended<D>
    // What is promised at each end stands in `specs/Promises.antt`.
    ensures promises { KeepsExport (sink_words K.taken K.faults K.is_open)
        (disk_words D.reads D.leaves D.moment D.since D.faults) (change sink.old sink.new)
        (change (pair disk second) (pair result.disk result.second)) result.added result.status }
{
    export_all(alloc, sink, disk, second)
}
