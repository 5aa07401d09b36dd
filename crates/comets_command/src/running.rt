//! A run: the office is opened, the register beside it, the frames of the source are answered, and what is in doubt is
//! mended.

ghost use Rattle.std.specs.Prelude.{◌≡◌, ◌≤◌};
ghost use Rattle.std.specs.Io.KnownBytes.{Appends};
ghost use Rattle.call_log.specs.Counts.{Rises};
ghost use Rattle.read_ahead.specs.Reading.{Supplies};
ghost use Rattle.act_model.specs.Clocks.{clock_of};
ghost use Rattle.mpc_desk.specs.Pairs.{pair};
ghost use Rattle.frame_service.specs.Runs.{Run, AwaitsNext};
ghost use Rattle.command_ends.specs.Courses.{source_words, sink_words, outside_words, change};
ghost use Rattle.command_ends.specs.Disks.{disk_words};
ghost use Rattle.comets_command.specs.Promises.{KeepsComets};
ghost use Rattle.comets_command.specs.Runs.{Ends};

use crate::answering::FrontComets;
use crate::below;
use crate::closing::finish;
use crate::opening::open_register;
use act_model::Key;
use command_ends::{Ended, Status, end_reading, not_begun, open_to_read};
use desk_io::{Clock, Sink, Source};
use disk_model::Disk;
use frame_grammar::laws as frame_laws;
use frame_reader::FrameReader;
use frame_service::serve;
use std::alloc::Global;

/// Opens the office and the register, answers the frames, and closes both.
fn comets_all<S: Source, K: Sink, D: Disk, C: Clock>(
    alloc: Global,
    founder: Key,
    source: &mut S,
    sink: &mut K,
    disk: D,
    second: D,
    comets: D,
    clock: &mut C,
) -> (Ended<D>, D)
    // What was read, answered, written and kept at each end: of the bytes that came, whether the source tells its bytes
    // or not, and of each image that a crash may leave.
    ensures ends { (run : Run)
        × Supplies S.left S.gives (AwaitsNext run.answered) source.old source.new run.came run.more
        × Appends (K.taken sink.old) (K.taken sink.new) run.texts
        × Ends (disk_words D.reads D.leaves D.moment D.since D.faults)
        (record {
          founder = founder;
          disks = change (pair disk second) (pair result.0.disk result.0.second);
          register = change comets result.1;
          clock = change (clock_of C.reading C.last clock.old) (clock_of C.reading C.last clock.new);
          run = run;
          added = result.0.added;
        })
        ((source.new ≡ source.old) × (sink.new ≡ sink.old) × (clock.new ≡ clock.old)) result.0.status }

    // The source failed where the end is `ReadFault`, and nowhere else; the sink where it is `WriteFault`.
    ensures read_cause { result.0.status ≡ Status.ReadFault → Rises (S.faults source.old) (S.faults source.new) }
    ensures read_faultless { (result.0.status ≡ Status.ReadFault → ⊥) →
        S.faults source.new ≡ S.faults source.old }
    ensures write_cause { result.0.status ≡ Status.WriteFault → Rises (K.faults sink.old) (K.faults sink.new) }
    ensures write_faultless { (result.0.status ≡ Status.WriteFault → ⊥) → K.faults sink.new ≡ K.faults sink.old }
    ensures counts { (S.faults source.old ≤ S.faults source.new) × (K.faults sink.old ≤ K.faults sink.new) }
    ensures stays { (S.is_open source.new ≡ S.is_open source.old) × (K.is_open sink.new ≡ K.is_open sink.old) }
{
    below::registers();
    let Ok(mut reader) = FrameReader::new(alloc) else {
        return (not_begun(Status::NoMemory, disk, second), comets);
    };
    let office = match open_to_read(alloc, disk, second) {
        Ok(office) => office,
        Err(ended) => return (ended, comets),
    };
    let register = match open_register(alloc, founder, &office, comets) {
        Ok(register) => register,
        Err((status, comets)) => return (end_reading(office, status), comets),
    };
    let before = register.entries();
    let mut front = FrontComets::new(office, register);
    let stop = serve(alloc, &mut front, &mut reader, source, sink, clock);
    let (office, mut register) = front.apart();
    let status = finish(&mut register, stop);
    let added = register.entries() - before;
    let ended = Ended {
        added,
        ..end_reading(office, status)
    };
    (ended, register.close())
}

/// Serves the frames of the source with the founding officer's key, on the register that the third disk holds, beside
/// the office that the two others stand for. The office is opened to be read, with a key that no founding officer has,
/// and nothing is added to it; where the second file isn't in force the first is carried over into it. Then the
/// register is opened on its disk; where its file isn't in force it has no entries, and is made one that is.
///
/// Over every source, however it cuts its bytes into pieces, the answers are those of one register: the requests of the
/// frames that came, in their order, are answered by a conduct from the entries that the disk held, each numbered
/// request acts at most once, and the sink takes the texts of the replies and nothing else. A crash at any moment
/// leaves files that stand for the office's history, and for a register of that conduct. It takes memory.
///
/// Gives back the register's disk beside the end, whose `added` is by how many entries the register grew. Ends with
/// `Done`, `BadFrame`, `DiskFault`, `Damaged`, `ReadFault`, `WriteFault` or `NoMemory`; the last only before the first
/// read. `Damaged` has the file 1 or 2 for the office's, and 3 for the register's. Where the office can't be opened the
/// register's disk isn't called.
pub fn comets<S: Source, K: Sink, D: Disk, C: Clock>(
    alloc: Global,
    founder: Key,
    source: &mut S,
    sink: &mut K,
    disk: D,
    second: D,
    comets: D,
    clock: &mut C,
) -> (Ended<D>, D)
    // What is promised at each end stands in `specs/Promises.antt`.
    ensures promises { KeepsComets (source_words S.left S.gives S.faults S.is_open)
        (outside_words (sink_words K.taken K.faults K.is_open)
        (disk_words D.reads D.leaves D.moment D.since D.faults) (clock_of C.reading C.last))
        (change source.old source.new)
        (record {
          sink = change sink.old sink.new;
          disks = change (pair disk second) (pair result.0.disk result.0.second);
          clock = change clock.old clock.new;
          added = result.0.added;
          status = result.0.status;
        })
        (change comets result.1) founder }
{
    frame_laws::one_session();
    below::damage();
    comets_all(alloc, founder, source, sink, disk, second, comets, clock)
}
