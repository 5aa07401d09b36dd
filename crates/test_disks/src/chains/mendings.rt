//! Mending: a second parcel whose append fails, and three mendings after it.
//!
//! What appends is over any disk: the type of a disk in memory makes each proof that it stands in dear.

use super::appends::{
    ADDED, Appending, DONE, DROPPED, IN_DOUBT, Mending, NOTHING, STAYS, UNTOUCHED, journal_on,
    next_on,
};
use super::files::{disk_with, expect_none_wrong, one, other};
use disk_model::Disk;
use obs_journal::{Journal, Parcel};
use std::alloc::Global;

// What a mending answered, and the position after it.
type Mended = (Mending, u64);

// What the append of the other parcel answered, and three mendings after it.
type Answers = (Appending, Mended, Mended, Mended);

fn mend_on<D: Disk>(journal: &mut Journal<D>) -> Mended {
    let settled = journal.mend();
    (settled, journal.position())
}

// Appends the other parcel to a journal that has the one, and mends it thrice.
fn answers_of<D: Disk>(journal: &mut Journal<D>, other: Parcel) -> Option<Answers> {
    match next_on(journal, other) {
        (NOTHING, Some(answer)) => {
            let first = mend_on(journal);
            let second = mend_on(journal);
            let third = mend_on(journal);
            Some((answer, first, second, third))
        }
        _ => None,
    }
}

fn mended_on<D: Disk>(alloc: Global, disk: D, one: Parcel, other: Parcel) -> Option<Answers> {
    match journal_on(alloc, disk) {
        Some(mut journal) => {
            if journal.append(one).is_err() {
                return None;
            }
            answers_of(&mut journal, other)
        }
        None => None,
    }
}

fn mended(alloc: Global, fails: &[u64]) -> Option<Answers> {
    match (disk_with(alloc, b"", fails), one(alloc), other(alloc)) {
        (Some(disk), Some(one), Some(other)) => mended_on(alloc, disk, one, other),
        _ => None,
    }
}

const NOTHING_AT_ONE: Mended = (NOTHING, 111);

const NOTHING_AT_BOTH: Mended = (NOTHING, 171);

// Calls that fail, and the answers. Carrying nothing into an empty file makes nine calls, and the append of the one
// parcel four. So the append of the other makes the fourteenth to the seventeenth, and a mending of a doubt begins with
// the eighteenth.
const FAULTS: &[(&[u64], Answers)] = &[
    (
        &[],
        (DONE, NOTHING_AT_BOTH, NOTHING_AT_BOTH, NOTHING_AT_BOTH),
    ),
    (
        &[14],
        (UNTOUCHED, NOTHING_AT_ONE, NOTHING_AT_ONE, NOTHING_AT_ONE),
    ),
    (
        &[15],
        (UNTOUCHED, NOTHING_AT_ONE, NOTHING_AT_ONE, NOTHING_AT_ONE),
    ),
    (
        &[16],
        (IN_DOUBT, (DROPPED, 111), NOTHING_AT_ONE, NOTHING_AT_ONE),
    ),
    (
        &[17],
        (IN_DOUBT, (ADDED, 171), NOTHING_AT_BOTH, NOTHING_AT_BOTH),
    ),
    // A fifth call of the append would fail.
    (
        &[18],
        (DONE, NOTHING_AT_BOTH, NOTHING_AT_BOTH, NOTHING_AT_BOTH),
    ),
    // The doubt stays where the first mending fails; once it is settled there is nothing to mend.
    (
        &[16, 17],
        (IN_DOUBT, (STAYS, 111), (DROPPED, 111), NOTHING_AT_ONE),
    ),
    (
        &[17, 18],
        (IN_DOUBT, (STAYS, 111), (ADDED, 171), NOTHING_AT_BOTH),
    ),
];

fn wrong_fault(alloc: Global) -> Option<usize> {
    for (row, &(fails, answers)) in FAULTS.iter().enumerate() {
        if mended(alloc, fails) != Some(answers) {
            return Some(row);
        }
    }
    None
}

#[test]
fn mendings_of_a_second_parcel(rt: HostRuntime) {
    let wrong = wrong_fault(rt.alloc());
    expect_none_wrong(&rt, wrong);
}
