//! Batches of lines of 80 columns, which come in pieces.

ghost use Rattle.std.specs.Prelude.{◌<◌, ◌≤◌, length};

use crate::tables::expect_none_wrong;
use col80_format::*;
use item_list::NoMemory;
use obs_record::{Lines, RuleCode};
use std::alloc::Global;

/// A batch with header lines, blank lines, line ends of both kinds, and a last line that no line feed ends.
const BATCH: &[u8] = b"COD 703\n\
\n\
COM\r\n   \r\nAC2 a@b.c\n\
\x20    P10abcd  C2024 03 15.12345 06 12 34.56 +23 45 01.2          19.5 V      703\r\n   \n\
COD 703\n\
\x20    P10abcd  C2024 03 15.13345 06 12 35.10 +23 45 05.0          19.4 V      703 \n\
\r\r\n\
\x20    P10abcd  V2024 03 15.14345 06 12 35.64 +23 45 08.8          19.6 V      703";

/// The lines of a batch that is fed in pieces of so many bytes.
fn fed(alloc: Global, body: &[u8], size: usize) -> Result<Lines, NoMemory>
    requires room { length body.now < 4294967295 }
    requires size { 0 < size }
{
    let mut reader = EightyReader::new(alloc)?;
    let mut rest = body;
    'pieces: while !rest.is_empty() {
        let (piece, after) = rest.split_at(rest.len().min(size));
        reader.feed(piece)?;
        rest = after;
    }
    reader.finish()
}

/// The number of the line at this place, and the rule that it breaks.
fn line_at(lines: &Lines, place: u64) -> Option<(u32, Option<RuleCode>)> {
    lines.get(place).map(|line| (line.number, line.read.err()))
}

/// What is said of the first six lines.
fn first_six(lines: &Lines) -> [Option<(u32, Option<RuleCode>)>; 6] {
    [
        line_at(lines, 0),
        line_at(lines, 1),
        line_at(lines, 2),
        line_at(lines, 3),
        line_at(lines, 4),
        line_at(lines, 5),
    ]
}

/// The same of that batch in pieces of so many bytes.
fn first_six_fed(alloc: Global, size: usize) -> Option<[Option<(u32, Option<RuleCode>)>; 6]> {
    if size == 0 {
        return None;
    }
    match fed(alloc, BATCH, size) {
        Ok(lines) => Some(first_six(&lines)),
        Err(_) => None,
    }
}

#[test]
fn splits_a_batch_however_it_comes(rt: HostRuntime) {
    let wanted = [
        Some((6, None)),
        Some((8, Some(RuleCode::S1))),
        Some((9, Some(RuleCode::S1))),
        Some((10, Some(RuleCode::S1))),
        Some((11, Some(RuleCode::S4))),
        None,
    ];
    for size in [1, 7, 80, 81, 82, 9999] {
        let found = first_six_fed(rt.alloc(), size);
        assert_eq!(rt; found, Some(wanted), "pieces of {size}");
    }
}

/// How many lines a batch has, and what is said of the first.
fn first_of(alloc: Global, body: &[u8]) -> Result<(u64, Option<(u32, Option<RuleCode>)>), NoMemory>
    requires { length body.now < 4294967295 }
{
    let lines = split_batch(alloc, body)?;
    Ok((lines.len(), line_at(&lines, 0)))
}

/// Batches, how many observation lines they have, and what is said of the first.
const FIRSTS: &[(&[u8], u64, Option<(u32, Option<RuleCode>)>)] = &[
    (b"", 0, None),
    (b"CODE 703", 1, Some((1, Some(RuleCode::S1)))),
    (b"OBS\nNUM 4\n", 0, None),
    (b"x\nCOD 703\n", 2, Some((1, Some(RuleCode::S1)))),
    (
        b"     P10abcd  C2024 03 15.12345 06 12 34.56 +23 45 01.2          19.5 V      703\r\n",
        1,
        Some((1, None)),
    ),
    // without a line feed the carriage return belongs to the line
    (
        b"     P10abcd  C2024 03 15.12345 06 12 34.56 +23 45 01.2          19.5 V      703\r",
        1,
        Some((1, Some(RuleCode::S1))),
    ),
];

fn wrong_first(alloc: Global) -> Option<usize> {
    for (row, &(body, count, first)) in FIRSTS.iter().enumerate() {
        if first_of(alloc, short(body)).ok() != Some((count, first)) {
            return Some(row);
        }
    }
    None
}

#[test]
fn splits_short_batches(rt: HostRuntime) {
    let wrong = wrong_first(rt.alloc());
    expect_none_wrong(&rt, wrong);
}

/// The first bytes of a text.
fn short(text: &[u8]) -> &[u8]
    ensures { length result.now ≤ 999 }
{
    let (front, _) = text.split_at(text.len().min(999));
    front
}
