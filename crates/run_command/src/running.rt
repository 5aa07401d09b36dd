//! A run: the office is opened, the frames of the source are answered, and what is in doubt is mended.

ghost use Rattle.std.specs.Prelude.{◌≡◌, ◌≤◌};
ghost use Rattle.std.specs.Io.KnownBytes.{Appends};
ghost use Rattle.call_log.specs.Counts.{Rises};
ghost use Rattle.read_ahead.specs.Reading.{Supplies};
ghost use Rattle.act_model.specs.Clocks.{clock_of};
ghost use Rattle.act_model.specs.Roster.{IsFounder};
ghost use Rattle.mpc_desk.specs.Pairs.{pair};
ghost use Rattle.frame_service.specs.Runs.{Run, AwaitsNext};
ghost use Rattle.command_ends.specs.Courses.{source_words, sink_words, outside_words, change};
ghost use Rattle.command_ends.specs.Disks.{disk_words};
ghost use Rattle.run_command.specs.Closing.{Finishes};
ghost use Rattle.run_command.specs.Promises.{KeepsRun};
ghost use Rattle.run_command.specs.Runs.{Ends};

use crate::answering::FrontDesk;
use act_model::{Keeper, Key, laws as office_laws};
use command_ends::{Ended, Status, mend_last, not_begun, open_desk};
use desk_io::{Clock, Sink, Source};
use disk_model::Disk;
use frame_grammar::laws as frame_laws;
use frame_reader::FrameReader;
use frame_service::{Stop, serve};
use mpc_desk::{ChainedDesk, laws as desk_laws};
use std::alloc::Global;

/// What is done when serving has stopped: an act in doubt is mended where the source was read to its end, and the
/// status says how the call ended.
fn finish<D: Disk>(desk: &mut ChainedDesk<D>, stop: Stop) -> Status
    ensures { Finishes (disk_words D.reads D.leaves D.moment D.since D.faults) desk.old stop result desk.new }
{
    match stop {
        Stop::Over => mend_last(desk),
        Stop::NoFrameAt(offset) => Status::BadFrame { offset },
        Stop::ReadFailed => Status::ReadFault,
        Stop::WriteFailed => Status::WriteFault,
    }
}

/// Opens the office, answers the frames, and closes it.
fn run_all<S: Source, K: Sink, D: Disk, C: Clock>(
    alloc: Global,
    founder: Key,
    source: &mut S,
    sink: &mut K,
    disk: D,
    second: D,
    clock: &mut C,
) -> Ended<D>
    requires { IsFounder founder }
    // What was read, answered, written and kept at each end: of the bytes that came, whether the source tells its bytes
    // or not, and of each image that a crash may leave.
    ensures ends { (run : Run)
        × Supplies S.left S.gives (AwaitsNext run.answered) source.old source.new run.came run.more
        × Appends (K.taken sink.old) (K.taken sink.new) run.texts
        × Ends (disk_words D.reads D.leaves D.moment D.since D.faults)
        (record {
          founder = founder;
          disks = pair disk second;
          disks_after = pair result.disk result.second;
          clock = clock_of C.reading C.last clock.old;
          clock_after = clock_of C.reading C.last clock.new;
          run = run;
          added = result.added;
        })
        ((source.new ≡ source.old) × (sink.new ≡ sink.old) × (clock.new ≡ clock.old)) result.status }

    // The source failed where the end is `ReadFault`, and nowhere else; the sink where it is `WriteFault`.
    ensures read_cause { result.status ≡ Status.ReadFault → Rises (S.faults source.old) (S.faults source.new) }
    ensures read_faultless { (result.status ≡ Status.ReadFault → ⊥) → S.faults source.new ≡ S.faults source.old }
    ensures write_cause { result.status ≡ Status.WriteFault → Rises (K.faults sink.old) (K.faults sink.new) }
    ensures write_faultless { (result.status ≡ Status.WriteFault → ⊥) → K.faults sink.new ≡ K.faults sink.old }
    ensures counts { (S.faults source.old ≤ S.faults source.new) × (K.faults sink.old ≤ K.faults sink.new) }
    ensures stays { (S.is_open source.new ≡ S.is_open source.old) × (K.is_open sink.new ≡ K.is_open sink.old) }
{
    office_laws::readings_go_on();
    office_laws::histories_grow();
    office_laws::histories_are_legal();
    office_laws::acknowledged_acts_are_kept();
    office_laws::kept_replies_stay();
    office_laws::numbers_once();
    office_laws::legal_numbers_once();
    office_laws::one_place();
    office_laws::unbroken_rows();
    office_laws::unbroken_numbers();
    office_laws::no_faults();
    desk_laws::lines_are_added();
    let Ok(mut reader) = FrameReader::new(alloc) else {
        return not_begun(Status::NoMemory, disk, second);
    };
    let (first, desk) = match open_desk(alloc, founder, disk, second) {
        Ok(desk) => desk.apart(),
        Err(ended) => return ended,
    };
    let before = desk.entries();
    let mut front = FrontDesk { desk };
    let stop = serve(alloc, &mut front, &mut reader, source, sink, clock);
    let mut desk = front.desk;
    let status = finish(&mut desk, stop);
    let added = desk.entries() - before;
    Ended {
        status,
        disk: first,
        second: desk.close(),
        added,
    }
}

/// Serves the frames of the source with the founding officer's key, on the office that the two disks stand for: the
/// second one where its file is in force, else the first, which is then carried over.
///
/// Over every source, however it cuts its bytes into pieces, the answers are those of one history: the requests of the
/// frames that came, in their order, are answered by a conduct from the history that the disks stood for, each request
/// under a caller's number acts at most once, and the sink takes the texts of the replies and nothing else. A crash at
/// any moment leaves files that stand for a history of that conduct. It takes memory.
///
/// Ends with `Done`, `BadFrame`, `DiskFault`, `Damaged`, `ReadFault`, `WriteFault` or `NoMemory`; the last only before
/// the first read. The key begins with a plus and has at most 33 bytes.
pub fn run<S: Source, K: Sink, D: Disk, C: Clock>(
    alloc: Global,
    founder: Key,
    source: &mut S,
    sink: &mut K,
    disk: D,
    second: D,
    clock: &mut C,
) -> Ended<D>
    requires { IsFounder founder }
    // What is promised at each end stands in `specs/Promises.antt`.
    ensures promises { KeepsRun (source_words S.left S.gives S.faults S.is_open)
        (outside_words (sink_words K.taken K.faults K.is_open)
        (disk_words D.reads D.leaves D.moment D.since D.faults) (clock_of C.reading C.last))
        (change source.old source.new)
        (record {
          sink = change sink.old sink.new;
          disks = change (pair disk second) (pair result.disk result.second);
          clock = change clock.old clock.new;
          added = result.added;
          status = result.status;
        }) founder }
{
    frame_laws::one_session();
    desk_laws::damage();
    run_all(alloc, founder, source, sink, disk, second, clock)
}
