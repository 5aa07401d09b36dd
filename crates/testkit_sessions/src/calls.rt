//! Calls of `run` and of `export` over a source, a sink, two disks and a clock in memory.

use crate::wrong::{Found, Wrong};
use command_ends::{Ended, Status};
use command_line::{Command, Words, command_of};
use desk_io::{Clock, MemSink, MemSource, Sink, Source, TickClock};
use disk_model::{Disk, MemDisk};
use export_command::export;
use item_list::{Bytes, NoMemory};
use obs_time::Instant;
use run_command::run;
use std::alloc::Global;

/// A call of the program: what it is given, and what is wanted of it.
#[derive(Clone, Copy)]
pub struct Call<'a> {
    /// By this number the call is told where it is wrong.
    pub mark: usize,
    pub words: &'a [&'a str],
    /// What its source gives.
    pub bytes: &'a [u8],
    /// How many bytes a read gives at most.
    pub greatest: usize,
    /// The read and the write that fail, counted from 1; for 0 none fails.
    pub read: u64,
    pub write: u64,
    /// The moment at which its clock begins, in nanoseconds since 1970.
    pub start: i64,
    /// The status as it is printed, its number, and by how many entries the history grows.
    pub status: &'a str,
    pub number: u8,
    pub added: u64,
    /// What its sink takes: all of these bytes, or where `least` is given the first ones, at least so many and not all.
    pub taken: &'a [u8],
    pub least: Option<usize>,
    /// By which pick a crash then takes what isn't safe on both disks, where one comes: 0 takes all of it.
    pub pick: Option<u64>,
}

/// The words of `run` with the founder's key.
const RUN: &[&str] = &["run", "--key", "+founder-1"];

/// 2024-04-01T00:00:00Z.
const APRIL: i64 = 1_711_929_600_000_000_000;

impl<'a> Call<'a> {
    /// A run over these bytes on 2024-04-01 that is done.
    pub const fn run(bytes: &'a [u8], added: u64, taken: &'a [u8]) -> Call<'a> {
        Call {
            mark: 0,
            words: RUN,
            bytes,
            greatest: 4_096,
            read: 0,
            write: 0,
            start: APRIL,
            status: "Done",
            number: 0,
            added,
            taken,
            least: None,
            pick: None,
        }
    }

    /// That this was found.
    fn wrong(&self, found: Found) -> Result<(), Wrong> {
        Err(Wrong {
            mark: self.mark,
            found,
        })
    }

    /// Whether a call is as wanted that ended with this status, as it is printed, and its number, after so many
    /// entries, and wrote these bytes.
    fn is_met(&self, status: String, number: u8, added: u64, taken: &[u8]) -> Result<(), Wrong> {
        if status.as_str() != self.status {
            return self.wrong(Found::Status(status));
        }
        if number != self.number {
            return self.wrong(Found::Number(number));
        }
        if added != self.added {
            return self.wrong(Found::Entries(added));
        }
        self.wrote(taken)
    }

    /// Whether it wrote what is wanted.
    fn wrote(&self, taken: &[u8]) -> Result<(), Wrong> {
        let count = taken.len();
        let is_enough = match self.least {
            Some(least) => least <= count && count < self.taken.len(),
            None => count == self.taken.len(),
        };
        let same = same_bytes(taken, self.taken);
        if !is_enough || same != count {
            return self.wrong(Found::BytesFrom(same));
        }
        Ok(())
    }
}

/// How many bytes two texts begin with alike.
fn same_bytes(left: &[u8], right: &[u8]) -> usize {
    let mut pairs = left.iter().zip(right);
    match pairs.position(|(left, right)| left != right) {
        Some(at) => at,
        None => left.len().min(right.len()),
    }
}

/// A disk in memory: what its file has at first, which of its calls fail, counted from 1, for how many bytes it has
/// room, and what the file is to be at the end, if that is asked.
#[derive(Clone, Copy)]
pub struct Drive<'a> {
    pub file: &'a [u8],
    pub fails: &'a [u64],
    pub room: usize,
    pub left: Option<&'a [u8]>,
}

/// How many bytes a disk has room for where nothing else is said.
const DISK_BYTES: usize = 1_048_576;

impl<'a> Drive<'a> {
    /// An empty file on a disk that doesn't fail.
    pub const EMPTY: Drive<'static> = Drive {
        file: b"",
        fails: &[],
        room: DISK_BYTES,
        left: None,
    };

    /// This file, on a disk that doesn't fail: it is to be left as it is.
    pub const fn kept(file: &'a [u8]) -> Drive<'a> {
        Drive {
            file,
            fails: &[],
            room: DISK_BYTES,
            left: Some(file),
        }
    }

    fn disk(&self, alloc: Global) -> Result<MemDisk, NoMemory> {
        let capacity = self.file.len().max(self.room);
        MemDisk::new(alloc, self.file, capacity, self.fails)
    }
}

/// The two disks of a call, each of which counts its own calls: the first, whose file is only moved from, and the
/// second, which has the journal.
#[derive(Clone, Copy)]
pub struct Drives<'a> {
    pub first: Drive<'a>,
    pub second: Drive<'a>,
}

impl<'a> Drives<'a> {
    /// Two empty files on disks that don't fail.
    pub const EMPTY: Drives<'static> = Drives {
        first: Drive::EMPTY,
        second: Drive::EMPTY,
    };

    /// This second disk beside an empty first one that doesn't fail.
    pub const fn with_second(second: Drive<'a>) -> Drives<'a> {
        Drives {
            first: Drive::EMPTY,
            second,
        }
    }
}

/// What a call is made over beside its disks, all of it in memory.
#[derive(Drop)]
pub struct Devices {
    pub words: Words,
    pub source: MemSource,
    pub sink: MemSink,
    pub clock: TickClock,
}

impl Devices {
    /// What this call is made over. Its sink has room for more than is wanted.
    ///
    /// # Errors
    ///
    /// Memory was refused, or its clock can't begin there.
    pub fn new(alloc: Global, call: &Call) -> Result<Devices, Wrong> {
        let Some(first) = Instant::new(call.start) else {
            return Err(Wrong {
                mark: call.mark,
                found: Found::NoClock,
            });
        };
        let room = call.taken.len().saturating_add(65_536);
        Ok(Devices {
            words: words_of(alloc, call.words)?,
            source: MemSource::new(alloc, call.bytes, call.greatest.max(1), &[call.read])?,
            sink: MemSink::new(alloc, room, &[call.write])?,
            clock: TickClock::new(first, 1_000_000_000),
        })
    }
}

/// The words of a command line.
///
/// # Errors
///
/// Memory was refused.
pub fn words_of(alloc: Global, texts: &[&str]) -> Result<Words, NoMemory> {
    let mut words = Words::new(alloc);
    for text in texts {
        words.push(Bytes::from_slice(alloc, text.as_bytes())?)?;
    }
    Ok(words)
}

/// The call that all others go through: what the words name.
fn called<S: Source, K: Sink, D: Disk, C: Clock>(
    alloc: Global,
    words: &Words,
    source: &mut S,
    sink: &mut K,
    disk: D,
    second: D,
    clock: &mut C,
) -> Ended<D> {
    match command_of(words) {
        Some(Command::Run { key }) => run(alloc, key, source, sink, disk, second, clock),
        Some(Command::Export) => export(alloc, sink, disk, second),
        _ => Ended {
            status: Status::Usage,
            disk,
            second,
            added: 0,
        },
    }
}

/// Makes a call on these two disks, looks whether it is as wanted, and gives them back.
fn call_on<D: Disk>(alloc: Global, call: &Call, disks: (D, D)) -> Result<(D, D), Wrong> {
    let mut devices = Devices::new(alloc, call)?;
    let (disk, second) = disks;
    let ended = called(
        alloc,
        &devices.words,
        &mut devices.source,
        &mut devices.sink,
        disk,
        second,
        &mut devices.clock,
    );
    has_ended(alloc, call, &ended, &devices.sink)?;
    Ok((ended.disk, ended.second))
}

/// Whether a call that ended so is as wanted.
///
/// # Errors
///
/// What is wrong with it.
pub fn has_ended<D: Disk>(
    alloc: Global,
    call: &Call,
    ended: &Ended<D>,
    sink: &MemSink,
) -> Result<(), Wrong> {
    has_ended_with(alloc, call, &ended.status, ended.added, sink)
}

/// Whether a call that ended with this status, after so many entries, is as wanted.
///
/// # Errors
///
/// What is wrong with it.
pub fn has_ended_with(
    alloc: Global,
    call: &Call,
    status: &Status,
    added: u64,
    sink: &MemSink,
) -> Result<(), Wrong> {
    let text = format!(in alloc; "{}", status)?;
    call.is_met(text, status.number(), added, sink.bytes())
}

/// The two disks of a call before it was made.
///
/// # Errors
///
/// Memory was refused.
pub fn disks_of(alloc: Global, drives: &Drives) -> Result<(MemDisk, MemDisk), NoMemory> {
    Ok((drives.first.disk(alloc)?, drives.second.disk(alloc)?))
}

/// Makes a call on two empty disks.
///
/// # Errors
///
/// What is wrong with it.
pub fn call_alone(alloc: Global, call: &Call) -> Result<(), Wrong> {
    call_on(alloc, call, disks_of(alloc, &Drives::EMPTY)?)?;
    Ok(())
}

/// The two disks after a crash by this pick, where one comes.
fn after_crash(disks: (MemDisk, MemDisk), pick: Option<u64>) -> (MemDisk, MemDisk) {
    let (first, second) = disks;
    match pick {
        Some(pick) => (first.crash(pick), second.crash(pick)),
        None => (first, second),
    }
}

/// Whether the file of a disk is this one.
fn is_file<D: Disk>(alloc: Global, disk: &mut D, file: &[u8]) -> Result<bool, NoMemory> {
    let mut piece = Vec::new(alloc);
    piece.resize(file.len(), 0)?;
    let length = disk.len().ok();
    let count = disk.read_at(0, &mut piece).ok();
    Ok(length == Some(file.len() as u64) && count == Some(file.len()) && piece.as_slice() == file)
}

/// Whether the file of a disk is this one, where that is asked.
fn is_left<D: Disk>(alloc: Global, disk: D, left: Option<&[u8]>) -> Result<bool, NoMemory> {
    let mut disk = disk;
    match left {
        Some(file) => is_file(alloc, &mut disk, file),
        None => Ok(true),
    }
}

/// Makes calls one after another on two disks.
///
/// # Errors
///
/// What is wrong with the first of them that isn't as wanted, or with the files that they left.
pub fn call_in_turn(alloc: Global, drives: &Drives, calls: &[Call]) -> Result<(), Wrong> {
    let mut disks = disks_of(alloc, drives)?;
    for call in calls {
        disks = after_crash(call_on(alloc, call, disks)?, call.pick);
    }
    are_left(alloc, drives, disks, calls.len())
}

/// Whether the files of the two disks are those that are asked, after so many calls.
///
/// # Errors
///
/// Which one isn't.
pub fn are_left<D: Disk>(
    alloc: Global,
    drives: &Drives,
    disks: (D, D),
    mark: usize,
) -> Result<(), Wrong> {
    let (first, second) = disks;
    if !is_left(alloc, first, drives.first.left)? {
        let found = Found::File(1);
        return Err(Wrong { mark, found });
    }
    if !is_left(alloc, second, drives.second.left)? {
        let found = Found::File(2);
        return Err(Wrong { mark, found });
    }
    Ok(())
}
