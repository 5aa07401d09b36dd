//! Calls of the commands `run`, `export` and `mirror`.

use crate::held::{Holds, is_held};
use command_ends::{Ended, Status};
use command_line::{Command, Words, command_of};
use desk_io::{Clock, Sink, Source};
use disk_model::Disk;
use export_command::export;
use mirror_command::mirror as mirror_out;
use mirror_store::Mirror;
use run_command::run;
use std::alloc::Global;
use testkit_sessions::{
    Call, Devices, Drive, Drives, NoMemory, Script, Wrong, are_left, disks_of, has_ended,
};

/// How many bytes the second disk has room for under a session that is large.
const ROOM: usize = 8_388_608;

/// A call, and what the mirror is to hold after it.
pub type Turn<'a> = (Call<'a>, Holds<'a>);

/// The call that all others go through: what the words name.
fn called<S: Source, K: Sink, D: Disk, C: Clock, M: Mirror>(
    alloc: Global,
    words: &Words,
    source: &mut S,
    sink: &mut K,
    disk: D,
    second: D,
    clock: &mut C,
    mirror: &mut M,
) -> Ended<D> {
    match command_of(words) {
        Some(Command::Run { key }) => run(alloc, key, source, sink, disk, second, clock),
        Some(Command::Export) => export(alloc, sink, disk, second),
        Some(Command::Mirror) => mirror_out(alloc, sink, disk, second, mirror),
        _ => Ended {
            status: Status::Usage,
            disk,
            second,
            added: 0,
        },
    }
}

/// Makes a call on these two disks, looks whether it is as wanted, and gives them back.
fn call_on<D: Disk, M: Mirror>(
    alloc: Global,
    call: &Call,
    disks: (D, D),
    mirror: &mut M,
) -> Result<(D, D), Wrong> {
    let mut devices = Devices::new(alloc, call)?;
    let (disk, second) = disks;
    let ended = called(
        alloc,
        &devices.words,
        &mut devices.source,
        &mut devices.sink,
        disk,
        second,
        &mut devices.clock,
        mirror,
    );
    has_ended(alloc, call, &ended, &devices.sink)?;
    Ok((ended.disk, ended.second))
}

/// Makes calls one after another on these disks. After each the mirror is asked what it holds. Gives the disks back.
fn turns_on<D: Disk, M: Mirror>(
    alloc: Global,
    disks: Result<(D, D), NoMemory>,
    mirror: &mut M,
    turns: &[Turn],
) -> Result<(D, D), Wrong> {
    let mut disks = disks?;
    for (call, wanted) in turns {
        disks = call_on(alloc, call, disks, mirror)?;
        is_held(alloc, mirror, wanted, call.mark)?;
    }
    Ok(disks)
}

/// Makes calls one after another on two disks and a mirror. After each the mirror is asked for its objects and then for
/// its observations, which are two calls of it.
///
/// # Errors
///
/// What is wrong with the first of them that isn't as wanted, with what the mirror then holds, or with the files that
/// they left.
pub fn mirror_in_turn<M: Mirror>(
    alloc: Global,
    drives: &Drives,
    mirror: &mut M,
    turns: &[Turn],
) -> Result<(), Wrong> {
    let disks = turns_on(alloc, disks_of(alloc, drives), mirror, turns)?;
    are_left(alloc, drives, disks, turns.len())
}

/// A call of `mirror` that writes this line.
pub fn mirror_of<'a>(mark: usize, line: &'a str) -> Call<'a> {
    Call {
        mark,
        words: &["mirror"],
        ..Call::run(b"", 0, line.as_bytes())
    }
}

/// Makes a call on these disks.
pub(crate) fn call_alone<D: Disk, M: Mirror>(
    alloc: Global,
    call: &Call,
    disks: Result<(D, D), NoMemory>,
    mirror: &mut M,
) -> Result<(), Wrong> {
    call_on(alloc, call, disks?, mirror)?;
    Ok(())
}

/// Makes two calls on these disks, one after the other.
fn call_both<D: Disk, M: Mirror>(
    alloc: Global,
    first: &Call,
    second: &Call,
    disks: Result<(D, D), NoMemory>,
    mirror: &mut M,
) -> Result<(), Wrong> {
    let disks = call_on(alloc, first, disks?, mirror)?;
    call_on(alloc, second, disks, mirror)?;
    Ok(())
}

/// Runs a session on two empty disks, by which the history grows by so many entries; then calls `mirror`, which writes
/// this line and leaves these rows.
///
/// # Errors
///
/// What is wrong with it.
pub fn mirrored_by<M: Mirror>(
    alloc: Global,
    mirror: &mut M,
    script: &Script,
    added: u64,
    line: &str,
    wanted: &Holds,
    mark: usize,
) -> Result<(), Wrong> {
    let run = Call {
        mark,
        ..script.call(added)
    };
    let drives = Drives::with_second(Drive {
        room: ROOM,
        ..Drive::EMPTY
    });
    let mirrors = mirror_of(mark, line);
    call_both(alloc, &run, &mirrors, disks_of(alloc, &drives), mirror)?;
    is_held(alloc, mirror, wanted, mark)
}

/// The same with a session of the founder's five requests and of these transcripts.
///
/// # Errors
///
/// What is wrong with it.
pub fn mirrored_after<M: Mirror>(
    alloc: Global,
    mirror: &mut M,
    transcripts: &[&str],
    added: u64,
    line: &str,
    wanted: &Holds,
    mark: usize,
) -> Result<(), Wrong> {
    let mut script = Script::begun(alloc)?;
    script.add_transcripts(transcripts)?;
    mirrored_by(alloc, mirror, &script, added, line, wanted, mark)
}
