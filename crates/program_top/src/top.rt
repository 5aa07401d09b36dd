//! The whole program, over any source, sink, three disks, clock, door and mirror.

ghost use Rattle.act_model.specs.Clocks.{clock_of};
ghost use Rattle.command_line.specs.Commands.{command_of};
ghost use Rattle.mpc_desk.specs.Pairs.{pair};
ghost use Rattle.command_ends.specs.Courses.{source_words, sink_words, outside_words, change};
ghost use Rattle.command_ends.specs.Disks.{disk_words};
ghost use Rattle.mirror_store.specs.Words.{mirror_words};
ghost use Rattle.serve_command.specs.Links.{link_words};
ghost use Rattle.serve_command.specs.Promises.{door_words};
ghost use Rattle.program_top.specs.Promises.{PromisesAlone, Promises};

use crate::ends::{Ended, LinkEnds, ended_beside};
use comets_command::comets as serve_comets;
use command_ends::{Status, not_begun};
use command_line::{Command, Words, command_of};
use desk_io::{Clock, Door, Sink, Source};
use disk_model::Disk;
use export_command::export;
use look_command::look;
use mirror_command::mirror as mirror_out;
use mirror_store::Mirror;
use run_command::run;
use serve_command::serve;
use std::alloc::Global;
use std::sync::Wait;
use std::thread::Threads;
use workload_command::workload;

/// All that the program does without threads: each command but `serve`, for which it ends as for words that name no
/// command.
///
/// The office is the one that the first two disks stand for: the second one where its file is in force, else the first
/// one, from which it is then carried over. Over every source, however it cuts its bytes into pieces, the answers of
/// `run` are those of one history: the requests of the frames that came, in their order, are answered by a
/// conduct from the history that the disks stood for, each request under a caller's number acts at most once, and the
/// sink takes the texts of the replies and nothing else. A crash at any moment leaves files that stand for a history
/// of that conduct. `export` writes the catalogue, the written function of the history that the disks stand for.
/// `mirror` makes the mirror hold the rows of that history, whole or not at all. `look` writes the objects that the
/// mirror holds, and its observations of some days, and leaves it and the disks as they are. No other command calls the
/// mirror. `workload` writes the summary of a made-up workload, and calls nothing but the sink. `comets` answers as
/// `run` does, by the register of comets on the third disk, beside the office, whose history stays; no other command
/// calls that disk. What is promised of each stands in `specs/Promises.antt`.
pub fn single<S: Source, K: Sink, D: Disk, C: Clock, M: Mirror>(
    alloc: Global,
    words: &Words,
    source: &mut S,
    sink: &mut K,
    disk: D,
    second: D,
    clock: &mut C,
    mirror: &mut M,
    comets: D,
) -> Ended<D>
    ensures promises { PromisesAlone (source_words S.left S.gives S.faults S.is_open)
        (outside_words (sink_words K.taken K.faults K.is_open)
        (disk_words D.reads D.leaves D.moment D.since D.faults) (clock_of C.reading C.last))
        (mirror_words M.told M.faults)
        (change source.old source.new)
        (record {
          sink = change sink.old sink.new;
          disks = change (pair disk second) (pair result.disk result.second);
          clock = change clock.old clock.new;
          added = result.added;
          status = result.status;
        })
        (change mirror.old mirror.new)
        (change comets result.comets)
        (command_of words.now) }
{
    match command_of(words) {
        Some(Command::Run { key }) => {
            let ended = run(alloc, key, source, sink, disk, second, clock);
            ended_beside(ended, comets)
        }
        Some(Command::Export) => ended_beside(export(alloc, sink, disk, second), comets),
        Some(Command::Mirror) => {
            let ended = mirror_out(alloc, sink, disk, second, mirror);
            ended_beside(ended, comets)
        }
        Some(Command::Look { from, to }) => {
            let ended = not_begun(look(from, to, sink, mirror), disk, second);
            ended_beside(ended, comets)
        }
        Some(Command::Workload { seed, count }) => {
            let status = workload(alloc, seed, count, sink);
            ended_beside(not_begun(status, disk, second), comets)
        }
        Some(Command::Comets { key }) => {
            let (ended, comets) = serve_comets(
                alloc, key, source, sink, disk, second, comets, clock,
            );
            ended_beside(ended, comets)
        }
        Some(Command::Serve { .. }) | None => {
            ended_beside(not_begun(Status::Usage, disk, second), comets)
        }
    }
}

/// All that the program does: the command that the words name.
///
/// For each command but `serve` it is [`single`]. `serve` attends the connections of the door, each in turns of its own
/// at the one office: over every interleaving, each call is true of one history, which is legal, extends the one that
/// the disks stood for, and has no newer entry but what a call for one of the links added. How each link ended is given
/// in the door's order; for every other command there is none. What is promised of each command stands in
/// `specs/Promises.antt`.
pub fn top<
    S: Source,
    K: Sink,
    D: Disk + Send,
    C: Clock + Send,
    G: Door + Send,
    M: Mirror,
    R: Threads + Wait + Sync,
>(
    rt: &R,
    alloc: Global,
    words: &Words,
    source: &mut S,
    sink: &mut K,
    disk: D,
    second: D,
    clock: &mut C,
    door: &mut G,
    mirror: &mut M,
    comets: D,
) -> (Ended<D>, LinkEnds<G::In, G::Out>)
    ensures promises { Promises (source_words S.left S.gives S.faults S.is_open)
        (outside_words (sink_words K.taken K.faults K.is_open)
        (disk_words D.reads D.leaves D.moment D.since D.faults) (clock_of C.reading C.last))
        (mirror_words M.told M.faults)
        (door_words G.links G.faults
        (link_words G.In.left G.In.gives G.In.faults G.In.is_open G.Out.taken G.Out.faults G.Out.is_open))
        (change source.old source.new)
        (record {
          sink = change sink.old sink.new;
          disks = change (pair disk second) (pair result.0.disk result.0.second);
          clock = change clock.old clock.new;
          added = result.0.added;
          status = result.0.status;
        })
        (change mirror.old mirror.new)
        (change comets result.0.comets)
        (record { door = change door.old door.new; ends = result.1 })
        (command_of words.now) }
{
    match command_of(words) {
        Some(Command::Serve { key, connections }) => {
            let (ended, ends) = serve(
                rt,
                alloc,
                key,
                u64::from(connections),
                sink,
                disk,
                second,
                clock,
                door,
            );
            (ended_beside(ended, comets), LinkEnds::new(ends))
        }
        Some(
            Command::Run { .. }
            | Command::Export
            | Command::Mirror
            | Command::Look { .. }
            | Command::Comets { .. }
            | Command::Workload { .. },
        )
        | None => {
            (
                single(
                    alloc, words, source, sink, disk, second, clock, mirror, comets,
                ),
                LinkEnds::new(Vec::new(alloc)),
            )
        }
    }
}
