//! Headers: their first fault, and the lines that stand below them.

use super::calls::said;
use super::observations::{BATCH, is_first, sighting_at};
use crate::tables::expect_none_wrong;
use ades_psv::PsvFault;
use obs_record::{HeaderFault, Lines};
use std::alloc::Global;

/// The fault of a batch; none where it has none.
fn fault_of(alloc: Global, body: &[u8]) -> Option<PsvFault> {
    said(alloc, body).err()
}

/// Batches whose headers have a fault, which it is, and its line.
pub(super) const FAULTY: &[(&[u8], HeaderFault, u32)] = &[
    (b"", HeaderFault::H1, 1),
    (b"\n  \r\n\n", HeaderFault::H1, 1),
    (b"# version=2010", HeaderFault::H1, 1),
    (
        b"\n  \n# version=2010\n# version=2017\n",
        HeaderFault::H1,
        3,
    ),
    (b" # version=2017\n", HeaderFault::H1, 1),
    (b"# version = 2017\n", HeaderFault::H1, 1),
    (b"# version=2017x\n", HeaderFault::H1, 1),
    (b"# version=2017\r", HeaderFault::H1, 1),
    (b"! mpcCode 703\n# version=2017\n", HeaderFault::H1, 1),
    (b"ra|dec\n", HeaderFault::H1, 1),
    (b"# version=2017", HeaderFault::H2, 1),
    (b"#version=2017\r\n", HeaderFault::H2, 1),
    (b"#   version=2017   \n", HeaderFault::H2, 1),
    (
        b"# version=2017\n# observatory\n! mpcCode 703",
        HeaderFault::H2,
        3,
    ),
    (
        b"# version=2017\n# observatory\n! mpcCode 703\n",
        HeaderFault::H2,
        3,
    ),
    (
        b"# version=2017\n\n! mpcCode 703\n   \n\n",
        HeaderFault::H2,
        5,
    ),
    (b"# version=2017\nra|dec\n# second\n", HeaderFault::H2, 3),
    (
        b"# version=2017\nra|dec\n# version=2017",
        HeaderFault::H2,
        3,
    ),
    (b"# version=2017\nstn|obsTime|deltaRA\n", HeaderFault::H3, 2),
    (b"# version=2017\nra|DEC", HeaderFault::H3, 2),
    (b"# version=2017\ndec|stn\n", HeaderFault::H3, 2),
    (b"# version=2017\nra|dec|pos1\n", HeaderFault::H4, 2),
    (b"# version=2017\nra|pos1|ra\n", HeaderFault::H3, 2),
    (b"# version=2017\nra|dec|ra|pos1\n", HeaderFault::H4, 2),
    (
        b"# version=2017\ntrkSub|mode|stn|obsTime|ra|dec|astCat|mag|band|pos1\n",
        HeaderFault::H4,
        2,
    ),
    (
        b"# version=2017\ntrkSub|mode|stn|obsTime|ra|dec|astCat|mag|band|ra\n",
        HeaderFault::H5,
        2,
    ),
    (
        b"# version=2017\n\n! x\n ra | dec |x| ra\n",
        HeaderFault::H5,
        4,
    ),
    (
        b"# version=2017\nra|dec|rmsRA|stn|remarks| rmsRA\n",
        HeaderFault::H5,
        2,
    ),
    (
        b"# version=2017\nra|dec\nAAA1\n#\n! x\nra|dec|dec\n",
        HeaderFault::H5,
        6,
    ),
    // the first fault counts
    (
        b"# version=2017\nra\n# second\nra|dec|dec\n",
        HeaderFault::H3,
        2,
    ),
    (
        b"# version=2017\nra|dec|dec\nAAA1\n# second\n",
        HeaderFault::H5,
        2,
    ),
    (b"# version=2010\nra|dec|dec\n", HeaderFault::H1, 1),
];

fn wrong_fault(alloc: Global) -> Option<usize> {
    for (row, &(body, fault, line)) in FAULTY.iter().enumerate() {
        if fault_of(alloc, body) != Some(PsvFault::Header { fault, line }) {
            return Some(row);
        }
    }
    None
}

#[test]
fn finds_the_first_fault(rt: HostRuntime) {
    let wrong = wrong_fault(rt.alloc());
    expect_none_wrong(&rt, wrong);
}

/// Batches without a fault in their headers, and the numbers of their lines, 0 for none.
const SOUND: &[(&[u8], [u32; 4])] = &[
    (BATCH, [5, 6, 7, 8]),
    (b"# version=2017\nra|dec\n", [0, 0, 0, 0]),
    (b"# version=2017\nra|dec", [0, 0, 0, 0]),
    (
        b"\n#version=2017\r\n\r\n! x\r\n ra || dec || \r\n! y\r\n \r\nAAA1\r\n",
        [8, 0, 0, 0],
    ),
    (
        b"# version=2017\ntrkSub|mode|stn|obsTime|ra|dec|astCat|mag|band|rmsRA\nAAA1",
        [3, 0, 0, 0],
    ),
    (b"# version=2017\nra|dec\nAAA1\n!\n \nAAA1\n!", [3, 6, 0, 0]),
    (
        b"# version=2017\nra|dec\nAAA1\n# second\n# third\n! x\ndec|ra\nAAA1",
        [3, 8, 0, 0],
    ),
    (
        b"# version=2017\nra|dec\n version=2017\n # x\n",
        [3, 4, 0, 0],
    ),
    (
        b"# version=2017\nra|dec|Ra|RA|ra1|ra 1\nra|dec\n",
        [3, 0, 0, 0],
    ),
];

/// The numbers of the lines of what is said, 0 for none; none of them for a fault or more than four lines.
fn numbers_in(said: &Result<Lines, PsvFault>) -> Option<[u32; 4]> {
    match said {
        Ok(lines) if lines.len() <= 4 => Some([
            number_at(lines, 0),
            number_at(lines, 1),
            number_at(lines, 2),
            number_at(lines, 3),
        ]),
        _ => None,
    }
}

/// The number of a line, 0 where there is none.
fn number_at(lines: &Lines, place: u64) -> u32 {
    lines.get(place).map_or(0, |line| line.number)
}

/// The numbers of the lines of a batch, 0 for none; none of them where it has a fault or more than four lines.
fn numbers(alloc: Global, body: &[u8]) -> Option<[u32; 4]> {
    numbers_in(&said(alloc, body))
}

fn wrong_numbers(alloc: Global) -> Option<usize> {
    for (row, &(body, wanted)) in SOUND.iter().enumerate() {
        if numbers(alloc, body) != Some(wanted) {
            return Some(row);
        }
    }
    None
}

#[test]
fn passes_over_headers_and_blank_lines(rt: HostRuntime) {
    let wrong = wrong_numbers(rt.alloc());
    expect_none_wrong(&rt, wrong);
}

/// A batch of two headers with other columns.
pub(super) const TWO_HEADERS: &[u8] = b"# version=2017
trkSub|mode|stn|obsTime|ra|dec|astCat
AAA1|CCD|703|2024-03-15T23:59:59.999Z|150.0|-5.5|Gaia3
# second

ra|notes|dec| trkSub |astCat|stn|  mode|obsTime|remarks
150.0||-5.5|AAA1|Gaia3|703| CCD|2024-03-15T23:59:59.999Z
150.0|\xc8| -5.5 |AAA1 | Gaia3|703|CCD|2024-03-15T23:59:59.999Z|\xc8
";

/// Whether the line in this place of that batch says what the first line of the batch above says.
fn is_first_at(alloc: Global, place: u64) -> bool {
    match sighting_at(alloc, TWO_HEADERS, place) {
        Some(s) => is_first(&s),
        None => false,
    }
}

#[test]
fn reads_each_line_below_its_columns(rt: HostRuntime) {
    let alloc = rt.alloc();
    let found = [
        is_first_at(alloc, 0),
        is_first_at(alloc, 1),
        is_first_at(alloc, 2),
    ];
    assert_eq!(rt; found, [true; 3]);
    let numbers = numbers(alloc, TWO_HEADERS);
    assert_eq!(rt; numbers, Some([3, 7, 8, 0]));
}
