//! Runs of the register on a disk, beside an office on two others.
//!
//! What is generic in the disk here, though each disk is one in memory, meets that large type nowhere: a function that
//! lets it go at a `?` takes a minute to prove.

ghost use Rattle.act_model.specs.Roster.{IsFounder};

use act_model::Key;
use comets_command::comets as serve_comets;
use command_ends::{Ended, Status};
use command_line::{Command, Words, command_of};
use desk_io::{Clock, Sink, Source};
use disk_model::{Disk, MemDisk};
use run_command::run;
use std::alloc::Global;
use testkit_sessions::{
    Call, Devices, Drive, Drives, NoMemory, Wrong, are_left, disks_of, has_ended,
};

/// The three disks of a call: the office's two, and the register's.
#[derive(Drop)]
pub(crate) struct Disks<D: Disk> {
    pub(crate) office: (D, D),
    pub(crate) register: D,
}

/// The disks of a call, and of two others the one beside the register's.
pub(crate) fn disks_beside<D: Disk>(
    office: Result<(D, D), NoMemory>,
    others: Result<(D, D), NoMemory>,
) -> Result<(Disks<D>, D), NoMemory> {
    let office = office?;
    let (other, register) = others?;
    Ok((Disks { office, register }, other))
}

/// Two empty disks for the office and the second of these for the register, and the first.
pub(crate) fn three_disks(
    alloc: Global,
    drives: &Drives,
) -> Result<(Disks<MemDisk>, MemDisk), NoMemory> {
    disks_beside(disks_of(alloc, &Drives::EMPTY), disks_of(alloc, drives))
}

/// A call of `run`, which leaves the register's disk as it is.
fn office_called<S: Source, K: Sink, D: Disk, C: Clock>(
    alloc: Global,
    key: Key,
    source: &mut S,
    sink: &mut K,
    disks: Disks<D>,
    clock: &mut C,
) -> (Ended<D>, D)
    requires { IsFounder key }
{
    let Disks { office, register } = disks;
    let ended = run(alloc, key, source, sink, office.0, office.1, clock);
    (ended, register)
}

/// A call of `comets`.
fn register_called<S: Source, K: Sink, D: Disk, C: Clock>(
    alloc: Global,
    key: Key,
    source: &mut S,
    sink: &mut K,
    disks: Disks<D>,
    clock: &mut C,
) -> (Ended<D>, D) {
    let Disks { office, register } = disks;
    serve_comets(
        alloc, key, source, sink, office.0, office.1, register, clock,
    )
}

/// The call that all others go through: `run` or `comets`, as the words name it.
fn called<S: Source, K: Sink, D: Disk, C: Clock>(
    alloc: Global,
    words: &Words,
    source: &mut S,
    sink: &mut K,
    disks: Disks<D>,
    clock: &mut C,
) -> (Ended<D>, D) {
    match command_of(words) {
        Some(Command::Run { key }) => office_called(alloc, key, source, sink, disks, clock),
        Some(Command::Comets { key }) => register_called(alloc, key, source, sink, disks, clock),
        _ => {
            let Disks { office, register } = disks;
            let ended = Ended {
                status: Status::Usage,
                disk: office.0,
                second: office.1,
                added: 0,
            };
            (ended, register)
        }
    }
}

/// Makes a call on these disks, looks whether it is as wanted, and gives them back.
pub(crate) fn call_on<D: Disk>(
    alloc: Global,
    call: &Call,
    disks: Disks<D>,
) -> Result<Disks<D>, Wrong> {
    let mut devices = Devices::new(alloc, call)?;
    let (ended, register) = called(
        alloc,
        &devices.words,
        &mut devices.source,
        &mut devices.sink,
        disks,
        &mut devices.clock,
    );
    has_ended(alloc, call, &ended, &devices.sink)?;
    Ok(Disks {
        office: (ended.disk, ended.second),
        register,
    })
}

/// The disks after a crash by this pick, where one comes.
fn after_crash(disks: Disks<MemDisk>, pick: Option<u64>) -> Disks<MemDisk> {
    let Some(pick) = pick else {
        return disks;
    };
    let Disks { office, register } = disks;
    Disks {
        office: (office.0.crash(pick), office.1.crash(pick)),
        register: register.crash(pick),
    }
}

/// Makes calls of `run` and `comets` one after another, on two empty disks for the office and this one for the
/// register, with a crash by the pick of a call after it, where it has one.
///
/// # Errors
///
/// What is wrong with the first of them that isn't as wanted, or with the register's file, which is told as file 2.
pub fn comets_in_turn(alloc: Global, register: &Drive, calls: &[Call]) -> Result<(), Wrong> {
    let drives = Drives::with_second(*register);
    let (mut disks, other) = three_disks(alloc, &drives)?;
    for call in calls {
        disks = after_crash(call_on(alloc, call, disks)?, call.pick);
    }
    let Disks { register, .. } = disks;
    are_left(alloc, &drives, (other, register), calls.len())
}
