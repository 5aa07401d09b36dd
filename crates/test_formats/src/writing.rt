//! Lines of 80 columns, written.

use crate::tables::expect_none_wrong;
use angle_fixed::{Dec, Ra};
use col80_format::*;
use obs_record::{Coded, Shape, Short, Sighting};
use obs_time::Instant;
use testkit_lines::{line_of, with};

/// An observation that came in fields: 2024-03-15T23:59:59.999Z, 150 and -5.5 degrees.
fn sighting_in_fields(mag: Option<u32>, places: u8) -> Option<Sighting> {
    Some(Sighting {
        perm: None,
        prov: None,
        sub: Some(Short::new(b"AAA1")),
        station: Short::new(b"703"),
        time: Instant::new(1_710_547_199_999_000_000)?,
        ra: Ra::new(1_350_000_000_000_000)?,
        dec: Dec::new(-49_500_000_000_000)?,
        mag,
        band: Coded::Word(Short::new(b"V")),
        mode: Coded::Word(Short::new(b"CCD")),
        catalogue: Coded::Word(Short::new(b"Gaia3")),
        note1: b'K',
        shape: Shape::Psv { mag: places },
    })
}

/// The line of an observation in fields with this magnitude.
fn line_with(mag: Option<u32>, places: u8) -> Option<[u8; 80]> {
    line_of(&sighting_in_fields(mag, places)?, true)
}

#[test]
fn writes_a_line(rt: HostRuntime) {
    assert_eq!(rt;
        line_with(Some(20_250_000), 2),
        Some(*b"00433K24E00A* C2024 03 16.00000010 00 00.000-05 30 00.00         20.25VW     703")
    );
}

/// Columns 66 to 70 of the line of an observation in fields with this magnitude.
fn magnitude_of(mag: Option<u32>, places: u8) -> Option<[u8; 5]> {
    let line = line_with(mag, places)?;
    Some([line[65], line[66], line[67], line[68], line[69]])
}

/// A magnitude, how many decimals were said, and columns 66 to 70; None where such a line can't be written.
const WRITTEN_MAGNITUDES: &[(Option<u32>, u8, Option<&[u8; 5]>)] = &[
    (None, 0, Some(b"     ")),
    (Some(20_255_000), 3, Some(b"20.26")),
    (Some(20_254_999), 6, Some(b"20.25")),
    (Some(9_995_000), 3, Some(b"10.00")),
    (Some(9_994_999), 6, Some(b" 9.99")),
    (Some(9_900_000), 1, Some(b" 9.9 ")),
    (Some(1_000_000), 0, Some(b" 1   ")),
    (Some(99_990_000), 2, Some(b"99.99")),
    // more decimals than were said, or decimals of no magnitude
    (Some(9_950_000), 1, None),
    (Some(9_949_999), 1, None),
    (Some(500_000), 0, None),
    (None, 1, None),
];

fn wrong_written_magnitude() -> Option<usize> {
    for (row, &(mag, places, wanted)) in WRITTEN_MAGNITUDES.iter().enumerate() {
        if magnitude_of(mag, places) != wanted.copied() {
            return Some(row);
        }
    }
    None
}

#[test]
fn writes_magnitudes(rt: HostRuntime) {
    expect_none_wrong(&rt, wrong_written_magnitude());
}

/// What the line with these bytes from a column on is, read and written again.
fn again(column: usize, text: &[u8]) -> Option<[u8; 80]> {
    let s = read_line(&with(column, text)).ok()?;
    line_of(&s, false)
}

const READ_AGAIN: &[(usize, &[u8])] = &[
    (1, b""),
    (45, b"-00 00 00.00"),
    (14, b"K"),
    (32, b"6"),
    (66, b"     "),
];

fn wrong_again() -> Option<usize> {
    for (row, &(column, text)) in READ_AGAIN.iter().enumerate() {
        if again(column, text) != Some(with(column, text)) {
            return Some(row);
        }
    }
    None
}

#[test]
fn writes_again_what_was_read(rt: HostRuntime) {
    expect_none_wrong(&rt, wrong_again());
}
