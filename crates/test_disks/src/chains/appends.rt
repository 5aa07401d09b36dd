//! Appending: the bytes of two parcels, calls that fail, doubts and their settling, and crashes.
//!
//! What appends is over any disk: the type of a disk in memory makes each proof that it stands in dear.

ghost use Rattle.std.specs.Prelude.{◌≡◌, ◌≤◌, None, IfSome};

use super::files::{
    BOTH, Held, disk_with, expect_none_wrong, held_on, is_file, may_be_left, one, other,
};
use disk_model::{Disk, Failed, MemDisk};
use obs_journal::{AppendFault, Journal, Parcel, Parcels, Settled, in_force};
use std::alloc::Global;

/// The answer of an append.
pub(super) type Appending = Result<(), AppendFault>;

/// The answer of a mending.
pub(super) type Mending = Result<Settled, Failed>;

// What the append of the one parcel answered, two mendings after it, the append of the other parcel, which isn't tried
// while the one is in doubt, and the position at last.
pub(super) type Answers = (Appending, Mending, Mending, Option<Appending>, u64);

/// The journal of a second file into which no parcel was carried; None where that is in force, or its disk fails.
pub(super) fn journal_on<D: Disk>(alloc: Global, second: D) -> Option<Journal<D>>
    ensures { IfSome result (λ journal. (journal.in_doubt ≡ None) × (journal.reached.position ≤ 4096)) }
{
    let mut second = second;
    let Ok(false) = in_force(&mut second) else {
        return None;
    };
    match Journal::carried(&Parcels::new(alloc), second) {
        Ok(journal) => Some(journal),
        Err(_) => None,
    }
}

/// Appends a parcel where none is in doubt after a mending.
pub(super) fn next_on<D: Disk>(
    journal: &mut Journal<D>,
    parcel: Parcel,
) -> (Mending, Option<Appending>) {
    let mended = journal.mend();
    if mended.is_err() || journal.position() > 4_096 {
        return (mended, None);
    }
    (mended, Some(journal.append(parcel)))
}

fn appended_on<D: Disk>(
    alloc: Global,
    disk: D,
    one: Parcel,
    other: Parcel,
) -> Option<(Answers, D)> {
    match journal_on(alloc, disk) {
        Some(mut journal) => {
            let first = journal.append(one);
            let mended = journal.mend();
            let (again, second) = next_on(&mut journal, other);
            let position = journal.position();
            Some(((first, mended, again, second, position), journal.close()))
        }
        None => None,
    }
}

// Whether both parcels, once they are appended, make their file.
fn is_written_on<D: Disk>(alloc: Global, disk: D, one: Parcel, other: Parcel) -> bool {
    match appended_on(alloc, disk, one, other) {
        Some((_, disk)) => is_file_of(disk),
        None => false,
    }
}

fn is_file_of<D: Disk>(disk: D) -> bool {
    let mut disk = disk;
    is_file(&mut disk, &BOTH)
}

fn is_written(alloc: Global) -> bool {
    match (disk_with(alloc, b"", &[]), one(alloc), other(alloc)) {
        (Some(disk), Some(one), Some(other)) => is_written_on(alloc, disk, one, other),
        _ => false,
    }
}

#[test]
fn written_bytes(rt: HostRuntime) {
    let found = is_written(rt.alloc());
    assert!(rt; found);
}

pub(super) const DONE: Appending = Ok(());

pub(super) const UNTOUCHED: Appending = Err(AppendFault::Untouched);

pub(super) const IN_DOUBT: Appending = Err(AppendFault::InDoubt);

pub(super) const NOTHING: Mending = Ok(Settled::Nothing);

pub(super) const DROPPED: Mending = Ok(Settled::Dropped);

pub(super) const ADDED: Mending = Ok(Settled::Added);

pub(super) const STAYS: Mending = Err(Failed);

// Calls that fail, the answers, and what a crash then leaves: where nothing is left that wasn't safe, and where all is
// left of the first write since the last sync.
type Fault = (&'static [u64], Answers, Held, Held);

// Carrying nothing into an empty file makes nine calls. So an append of the one parcel makes the tenth to the
// thirteenth: it is written and synced, and its gate is written and synced. A mending of a doubt makes two: the file is
// synced, and the gate is read. An append of the other parcel makes the next four.
const FAULTS: &[Fault] = &[
    (
        &[],
        (DONE, NOTHING, NOTHING, Some(DONE), 171),
        Held::Both,
        Held::Both,
    ),
    // Each call of the first append.
    (
        &[10],
        (UNTOUCHED, NOTHING, NOTHING, Some(DONE), 62),
        Held::Other,
        Held::Other,
    ),
    (
        &[11],
        (UNTOUCHED, NOTHING, NOTHING, Some(DONE), 62),
        Held::Other,
        Held::Other,
    ),
    (
        &[12],
        (IN_DOUBT, DROPPED, NOTHING, Some(DONE), 62),
        Held::Other,
        Held::Other,
    ),
    (
        &[13],
        (IN_DOUBT, ADDED, NOTHING, Some(DONE), 171),
        Held::Both,
        Held::Both,
    ),
    // Each call of the mending too.
    (
        &[12, 13],
        (IN_DOUBT, STAYS, DROPPED, Some(DONE), 62),
        Held::Other,
        Held::Other,
    ),
    (
        &[12, 14],
        (IN_DOUBT, STAYS, DROPPED, Some(DONE), 62),
        Held::Other,
        Held::Other,
    ),
    (
        &[13, 14],
        (IN_DOUBT, STAYS, ADDED, Some(DONE), 171),
        Held::Both,
        Held::Both,
    ),
    (
        &[13, 15],
        (IN_DOUBT, STAYS, ADDED, Some(DONE), 171),
        Held::Both,
        Held::Both,
    ),
    // Each call of the second append.
    (
        &[14],
        (DONE, NOTHING, NOTHING, Some(UNTOUCHED), 111),
        Held::One,
        Held::One,
    ),
    (
        &[15],
        (DONE, NOTHING, NOTHING, Some(UNTOUCHED), 111),
        Held::One,
        Held::One,
    ),
    (
        &[16],
        (DONE, NOTHING, NOTHING, Some(IN_DOUBT), 111),
        Held::One,
        Held::Both,
    ),
    (
        &[17],
        (DONE, NOTHING, NOTHING, Some(IN_DOUBT), 111),
        Held::One,
        Held::Both,
    ),
    // Each call of the first append, and all after it.
    (
        &[10, 11, 12, 13, 14],
        (UNTOUCHED, NOTHING, NOTHING, Some(UNTOUCHED), 2),
        Held::Nothing,
        Held::Nothing,
    ),
    (
        &[11, 12, 13, 14],
        (UNTOUCHED, NOTHING, NOTHING, Some(UNTOUCHED), 2),
        Held::Nothing,
        Held::Nothing,
    ),
    (
        &[12, 13, 14, 15],
        (IN_DOUBT, STAYS, STAYS, None, 2),
        Held::Nothing,
        Held::One,
    ),
    (
        &[13, 14, 15],
        (IN_DOUBT, STAYS, STAYS, None, 2),
        Held::Nothing,
        Held::One,
    ),
];

/// What appending both parcels to an empty file answers, where these calls fail.
pub(super) fn after_appends(alloc: Global, fails: &[u64]) -> Option<(Answers, MemDisk)> {
    match (disk_with(alloc, b"", fails), one(alloc), other(alloc)) {
        (Some(disk), Some(one), Some(other)) => appended_on(alloc, disk, one, other),
        _ => None,
    }
}

// The answers, and what is left by this pick.
fn crashed(alloc: Global, fails: &[u64], pick: u64) -> Option<(Answers, Option<Held>)> {
    match after_appends(alloc, fails) {
        Some((answers, disk)) => Some((answers, held_on(alloc, disk.crash(pick)))),
        None => None,
    }
}

fn wrong_fault(alloc: Global, pick: u64) -> Option<usize> {
    for (row, &(fails, answers, least, most)) in FAULTS.iter().enumerate() {
        match crashed(alloc, fails, pick) {
            Some((found, Some(held))) => {
                if found != answers || !may_be_left(held, least, most, pick) {
                    return Some(row);
                }
            }
            _ => return Some(row),
        }
    }
    None
}

// Two writes, and a sync that fails between them, stand between two syncs at most, for which there are 125 picks.
#[test]
fn failing_appends(rt: HostRuntime) {
    for pick in 0..125 {
        let wrong = wrong_fault(rt.alloc(), pick);
        expect_none_wrong(&rt, wrong);
    }
}
