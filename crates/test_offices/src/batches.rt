//! Tests of the rulings on the lines of batches.

use batch_rules::*;
use obs_record::RuleCode;
use obs_time::Instant;
use station_tables::Tables;
use std::alloc::Global;
use testkit_lines::{LIVE, Row, Who, rulings_on, tables};

const DAY: i64 = 86_400_000_000_000;

const HOUR: i64 = 3_600_000_000_000;

/// 30 degrees of declination.
const THIRTY: i64 = 270_000_000_000_000;

// Nanoseconds since 1970-01-01 of the beginnings of 1925, of 2024-03-15 and of 2100.
const FROM_1925: i64 = -1_420_070_400_000_000_000;

const NIGHT: i64 = 1_710_460_800_000_000_000;

const FROM_2100: i64 = 4_102_444_800_000_000_000;

// Whether the rulings find the faults beside the lines.
fn are_wanted(rulings: &[Ruling], rows: &[Row]) -> bool {
    for (ruling, row) in rulings.iter().zip(rows) {
        if ruling.fault != row.4 {
            return false;
        }
    }
    rulings.len() == rows.len()
}

// Whether the lines break the rules beside them, in a batch that comes at this moment.
fn breaks(alloc: Global, tables: &Tables, moment: Instant, rows: &[Row]) -> bool {
    match rulings_on(alloc, tables, moment, rows) {
        Some(rulings) => are_wanted(rulings.as_slice(), rows),
        None => false,
    }
}

const A: Who = Who::Sub(b'A');

const B: Who = Who::Sub(b'B');

const S703: &[u8] = b"703";

const W84: &[u8] = b"W84";

const BATCHES: &[&[Row]] = &[
    // One line under the observer's own name, and two; from two stations.
    &[(A, S703, NIGHT, 0, Some(RuleCode::B6))],
    &[(A, S703, NIGHT, 0, None), (A, S703, NIGHT + HOUR, 0, None)],
    &[
        (A, S703, NIGHT, 0, Some(RuleCode::B6)),
        (A, W84, NIGHT + HOUR, 0, Some(RuleCode::B6)),
    ],
    // One line under a designation, given or not.
    &[(Who::Order(2), S703, NIGHT, 0, None)],
    &[(Who::Order(3), S703, NIGHT, 0, Some(RuleCode::B3))],
    // A number with its own designation, with another one, and with one that wasn't given.
    &[(Who::Both(1, 1), S703, NIGHT, 0, None)],
    &[(Who::Both(1, 2), S703, NIGHT, 0, Some(RuleCode::B9))],
    &[(Who::Both(1, 3), S703, NIGHT, 0, Some(RuleCode::B3))],
    // 24 hours and a nanosecond more; 25 hours; the middle one of three.
    &[(A, S703, NIGHT + DAY, 0, None), (A, S703, NIGHT, 0, None)],
    &[
        (A, S703, NIGHT + DAY + 1, 0, Some(RuleCode::B7)),
        (A, S703, NIGHT, 0, Some(RuleCode::B6)),
    ],
    &[
        (A, S703, NIGHT, 0, None),
        (A, S703, NIGHT + DAY + HOUR, 0, Some(RuleCode::B7)),
        (A, S703, NIGHT + HOUR, 0, None),
    ],
    // 30 degrees in 24 hours and a unit more: all of the group break it.
    &[
        (A, S703, NIGHT, 0, None),
        (A, S703, NIGHT + DAY, THIRTY, None),
    ],
    &[
        (A, S703, NIGHT, 0, Some(RuleCode::B8)),
        (A, S703, NIGHT + DAY, THIRTY + 1, Some(RuleCode::B8)),
    ],
    &[
        (A, S703, NIGHT, 0, Some(RuleCode::B8)),
        (A, S703, NIGHT + HOUR, 0, Some(RuleCode::B8)),
        (A, S703, NIGHT + HOUR + 1, 400, Some(RuleCode::B8)),
    ],
    // The years 1924 and 1925, 2099 and 2100; the moment and a nanosecond after.
    &[(Who::Order(1), S703, FROM_1925 - 1, 0, Some(RuleCode::B2))],
    &[(Who::Order(1), S703, FROM_1925, 0, None)],
    &[(Who::Order(1), S703, FROM_2100 - 1, 0, None)],
    &[(Who::Order(1), S703, FROM_2100, 0, Some(RuleCode::B2))],
    &[(Who::Order(1), S703, FROM_2100 + DAY, 0, Some(RuleCode::B2))],
    &[(
        Who::Order(1),
        S703,
        FROM_2100 + DAY + 1,
        0,
        Some(RuleCode::B1),
    )],
    // A live observation; one time and position under two names; another position under one name.
    &[(Who::Order(1), S703, LIVE, 0, Some(RuleCode::B4))],
    &[
        (Who::Order(1), S703, NIGHT, 0, None),
        (Who::Order(2), S703, NIGHT, 0, Some(RuleCode::B4)),
    ],
    &[
        (Who::Order(1), S703, NIGHT, 0, None),
        (Who::Order(1), S703, NIGHT, 1, Some(RuleCode::B5)),
    ],
    // Beside a line that is refused by a rule up to B9, and beside one that B6 refuses.
    &[
        (Who::Order(3), S703, NIGHT, 0, Some(RuleCode::B3)),
        (Who::Order(1), S703, NIGHT, 0, None),
    ],
    &[
        (B, S703, NIGHT, 0, Some(RuleCode::B6)),
        (B, S703, NIGHT, 1, Some(RuleCode::B5)),
    ],
    // In the order of their times, and in order but for the last line.
    &[
        (A, S703, NIGHT, 0, None),
        (B, S703, NIGHT + 1, 0, None),
        (A, S703, NIGHT + HOUR, 0, None),
        (B, S703, NIGHT + HOUR + 1, 0, None),
    ],
    &[
        (A, S703, NIGHT + 1, 0, None),
        (A, S703, NIGHT + 2, 0, None),
        (A, S703, NIGHT, 0, None),
    ],
    // Back in time: to the place of the first line, to its moment at another position, and to neither.
    &[
        (Who::Order(1), S703, NIGHT, 0, None),
        (Who::Order(2), S703, NIGHT + HOUR, 0, None),
        (Who::Order(2), S703, NIGHT, 0, Some(RuleCode::B4)),
    ],
    &[
        (Who::Order(1), S703, NIGHT, 0, None),
        (Who::Order(2), S703, NIGHT + HOUR, 0, None),
        (Who::Order(1), S703, NIGHT, 1, Some(RuleCode::B5)),
    ],
    &[
        (Who::Order(1), S703, NIGHT, 0, None),
        (Who::Order(2), S703, NIGHT + HOUR, 0, None),
        (Who::Order(1), S703, NIGHT + 1, 0, None),
        (Who::Order(1), S703, NIGHT + DAY, 0, None),
        (Who::Order(2), S703, NIGHT + DAY, 0, Some(RuleCode::B4)),
    ],
    // One time at two stations, and at two positions.
    &[
        (Who::Order(1), S703, NIGHT, 0, None),
        (Who::Order(1), W84, NIGHT, 0, None),
    ],
    &[
        (Who::Order(1), S703, NIGHT, 0, None),
        (Who::Order(2), S703, NIGHT, 1, None),
    ],
    // A group that is met again after another one.
    &[
        (A, S703, NIGHT, 0, None),
        (B, S703, NIGHT + 1, 0, Some(RuleCode::B6)),
        (A, S703, NIGHT + 2, 0, None),
    ],
    &[
        (A, S703, NIGHT, 0, Some(RuleCode::B8)),
        (B, S703, NIGHT + HOUR, 0, None),
        (B, S703, NIGHT + 2 * HOUR, 0, None),
        (A, S703, NIGHT + DAY, THIRTY + 1, Some(RuleCode::B8)),
    ],
    // A station without a row.
    &[(A, b"W85", NIGHT, 0, Some(RuleCode::T1))],
];

// The first batch whose lines break other rules than those beside them, counted from 0; None where there is none.
fn wrong_batch(alloc: Global, tables: &Tables, moment: Instant) -> Option<usize> {
    for (place, rows) in BATCHES.iter().enumerate() {
        if !breaks(alloc, tables, moment, rows) {
            return Some(place);
        }
    }
    None
}

// The same over tables with two stations; None where memory was refused.
fn found_wrong(alloc: Global) -> Option<Option<usize>> {
    let moment = Instant::new(FROM_2100 + DAY)?;
    match tables(alloc) {
        Some(tables) => Some(wrong_batch(alloc, &tables, moment)),
        None => None,
    }
}

#[test]
fn rules_at_their_edges(rt: HostRuntime) {
    let wrong = found_wrong(rt.alloc());
    assert_eq!(rt; wrong, Some(None));
}

// Groups that alternate, with a refused line before them.
const ALTERNATING: [Row; 4] = [
    (Who::Order(3), S703, NIGHT, 0, None),
    (Who::Order(2), S703, NIGHT, 1, None),
    (Who::Order(1), S703, NIGHT, 2, None),
    (Who::Order(2), S703, NIGHT + 1, 1, None),
];

fn group_at(rulings: &[Ruling], place: usize) -> Option<u32> {
    rulings.get(place).map(|ruling| ruling.group)
}

// The groups of the first four lines.
fn first_groups(rulings: &[Ruling]) -> [Option<u32>; 4] {
    [
        group_at(rulings, 0),
        group_at(rulings, 1),
        group_at(rulings, 2),
        group_at(rulings, 3),
    ]
}

// How many groups these lines have, and the group of each.
fn groups_over(
    tables: &Tables,
    alloc: Global,
    moment: Instant,
    rows: &[Row],
) -> Option<(u32, [Option<u32>; 4])> {
    match rulings_on(alloc, tables, moment, rows) {
        Some(rulings) => Some((rulings.groups(), first_groups(rulings.as_slice()))),
        None => None,
    }
}

// The same over tables with two stations; None where memory was refused.
fn groups(alloc: Global, rows: &[Row]) -> Option<(u32, [Option<u32>; 4])> {
    let moment = Instant::new(FROM_2100)?;
    match tables(alloc) {
        Some(tables) => groups_over(&tables, alloc, moment, rows),
        None => None,
    }
}

#[test]
fn groups_by_their_first_accepted_lines(rt: HostRuntime) {
    let found = groups(rt.alloc(), &ALTERNATING);
    assert_eq!(rt; found, Some((2, [Some(0), Some(0), Some(1), Some(0)])));
}

// The first line of a group is too late, so that another group has an accepted line before it.
const LATE_FIRST: [Row; 4] = [
    (A, S703, NIGHT + DAY + HOUR, 0, Some(RuleCode::B7)),
    (Who::Order(2), S703, NIGHT + 1, 1, None),
    (A, S703, NIGHT + 2, 0, None),
    (A, S703, NIGHT + HOUR, 0, None),
];

// A group that is too fast has no accepted line, and takes no number.
const FAST_FIRST: [Row; 4] = [
    (A, S703, NIGHT, 0, Some(RuleCode::B8)),
    (Who::Order(2), S703, NIGHT + 1, 0, None),
    (A, S703, NIGHT + 2, 400, Some(RuleCode::B8)),
    (Who::Order(1), S703, NIGHT + 3, 0, None),
];

#[test]
fn groups_after_refused_lines(rt: HostRuntime) {
    let late = groups(rt.alloc(), &LATE_FIRST);
    assert_eq!(rt; late, Some((2, [Some(0), Some(0), Some(1), Some(1)])));
    let fast = groups(rt.alloc(), &FAST_FIRST);
    assert_eq!(rt; fast, Some((2, [Some(0), Some(0), Some(0), Some(1)])));
}
