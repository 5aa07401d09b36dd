//! What is done with a disk over a file that keeps a list of its calls, and what is wrong then.

use crate::recorder::{Log, Recorder};
use disk_model::{Disk, FileDisk, Seen};
use std::alloc::Global;

/// What is done with a disk.
#[derive(Clone, Copy)]
pub enum Act {
    Len,
    Read(u64, &'static [u8]),
    Write(u64, &'static [u8]),
    Cut(u64),
    Sync,
}

/// What is done, whether it succeeds, and the calls of the file that it makes, as the recorder notes them.
pub type Acts = &'static [(Act, bool, &'static str)];

/// What stands under the name of a file.
#[derive(Clone, Copy)]
pub enum Under {
    Nothing,
    File,
    Other(Seen),
}

/// A file, what becomes of the calls of it, and what a disk over it is to do. The calls are counted from 1.
#[derive(Clone, Copy)]
pub struct Case {
    /// What reads give at first.
    pub reads: &'static [u8],
    /// What the disk holds at first, as many bytes.
    pub holds: &'static [u8],
    /// What stands under the name from each of these calls on, at first the file.
    pub under: &'static [(usize, Under)],
    /// The calls that fail, and those that are interrupted.
    pub fails: &'static [usize],
    pub interrupts: &'static [usize],
    /// How many bytes a read or a write takes at most.
    pub most: usize,
    /// The calls that come before those of the acts, and the acts.
    pub before: &'static str,
    pub acts: Acts,
    /// What the disk holds after the acts, where that is looked at.
    pub left: Option<&'static [u8]>,
}

/// A file of eight bytes that is there and of which no call fails. The disk opens it first, by nine calls.
pub const OPENED: Case = Case {
    reads: b"abcdefgh",
    holds: b"abcdefgh",
    under: &[],
    fails: &[],
    interrupts: &[],
    most: 10_000,
    before: "folder; name; open; lock; file; name; sync folder; sync; drop; ",
    acts: &[],
    left: Some(b"abcdefgh"),
};

/// The file as the recorder shows it, and below with something changed.
pub const SEEN: Seen = Seen {
    is_regular: true,
    device: 1,
    inode: 7,
    links: 1,
    length: 8,
};

pub const FOLDER: Under = Under::Other(Seen {
    is_regular: false,
    ..SEEN
});

pub const OTHER_FILE: Under = Under::Other(Seen { inode: 8, ..SEEN });

pub const OTHER_DEVICE: Under = Under::Other(Seen { device: 2, ..SEEN });

pub const UNLINKED: Under = Under::Other(Seen { links: 0, ..SEEN });

pub const SHORTER: Under = Under::Other(Seen { length: 7, ..SEEN });

pub const LONGER: Under = Under::Other(Seen { length: 9, ..SEEN });

// Whether a read from this offset on gives these bytes, at most 16.
fn gives<D: Disk>(disk: &mut D, at: u64, want: &[u8]) -> bool {
    let mut piece = [0u8; 16];
    match disk.read_at(at, &mut piece) {
        Ok(count) => count == want.len() && piece.starts_with(want),
        Err(_) => false,
    }
}

/// Whether an act is done.
pub fn is_done<D: Disk>(disk: &mut D, act: Act) -> bool {
    match act {
        Act::Len => disk.len().is_ok(),
        Act::Read(at, want) => gives(disk, at, want),
        Act::Write(at, bytes) => disk.write_at(at, bytes).is_ok(),
        Act::Cut(len) => disk.cut(len).is_ok(),
        Act::Sync => disk.sync().is_ok(),
    }
}

// The first act that is done though it was to fail, or fails though it was not; counted from 0.
fn wrong_act<D: Disk>(disk: &mut D, acts: Acts) -> Option<usize> {
    for (place, &(act, done, _)) in acts.iter().enumerate() {
        if is_done(disk, act) != done {
            return Some(place);
        }
    }
    None
}

// The same with a disk over this file.
fn wrong_act_on(file: Recorder, acts: Acts) -> Option<usize> {
    let mut disk = FileDisk::over(file);
    wrong_act(&mut disk, acts)
}

// What is left of a list of calls after these at its front; None where others stand there.
fn after<'a>(calls: &'a str, front: &str) -> Option<&'a str> {
    calls.strip_prefix(front)?.strip_prefix("; ")
}

// The first act that makes other calls than these, or their count where others follow.
fn wrong_calls(calls: &str, acts: Acts) -> Option<usize> {
    let mut left = calls;
    for (place, &(_, _, made)) in acts.iter().enumerate() {
        match after(left, made) {
            Some(others) => left = others,
            None => return Some(place),
        }
    }
    if left.is_empty() {
        None
    } else {
        Some(acts.len())
    }
}

/// What is wrong, and with which act, counted from 0.
pub type Wrong = (&'static str, usize);

fn wrong_end(log: &Log, case: &Case) -> Option<Wrong> {
    let Some(calls) = log.calls.as_str().strip_prefix(case.before) else {
        return Some(("the calls before the acts", 0));
    };
    if let Some(place) = wrong_calls(calls, case.acts) {
        return Some(("its calls", place));
    }
    match case.left {
        Some(want) if log.holds.get(..log.held) != Some(want) => Some(("what the disk holds", 0)),
        _ => None,
    }
}

/// What is wrong with a case.
pub fn wrong_in(alloc: Global, case: &Case) -> Option<Wrong> {
    let Ok((file, log)) = Recorder::new(alloc, *case) else {
        return Some(("out of memory", 0));
    };
    match wrong_act_on(file, case.acts) {
        Some(place) => Some(("whether it is done", place)),
        None => wrong_end(&log.get(), case),
    }
}

/// The first case with something wrong, counted from 0.
pub fn wrong_case(alloc: Global, cases: &[Case]) -> Option<(usize, Wrong)> {
    for (row, case) in cases.iter().enumerate() {
        if let Some(wrong) = wrong_in(alloc, case) {
            return Some((row, wrong));
        }
    }
    None
}
