//! Angles that are read and written.

use crate::tables::expect_none_wrong;
use angle_fixed::{
    AngleFault, Dec, Ra, read_dec_degrees, read_dms, read_hms, read_ra_degrees, write_dec_degrees,
    write_dms, write_hms, write_ra_degrees,
};

/// Right ascensions with their units and decimals, or their fault. The units are the sums of parts times units by hand,
/// as 6 * 135,000,000,000,000 + 12 * 2,250,000,000,000 + 34.567 * 37,500,000,000.
const HOURS: &[(&[u8; 12], Result<(i64, u8), AngleFault>)] = &[
    (b"06 12 34.567", Ok((838_296_262_500_000, 3))),
    (b"06 12 34    ", Ok((838_275_000_000_000, 0))),
    (b"23 59 59.999", Ok((3_239_999_962_500_000, 3))),
    (b"24 00 00.00 ", Err(AngleFault::Range)),
    (b"06 60 34.5  ", Err(AngleFault::Range)),
    (b"06 12 34.   ", Err(AngleFault::Spelling)),
    (b"6  12 34.5  ", Err(AngleFault::Spelling)),
    (b"06 12 34.5 1", Err(AngleFault::Spelling)),
];

/// The first row that is read as something else, counted from 0; None where there is none. So are those below.
fn wrong_hours() -> Option<usize> {
    for (row, &(text, wanted)) in HOURS.iter().enumerate() {
        if read_hms(text).map(|x| (x.0.units(), x.1)) != wanted {
            return Some(row);
        }
    }
    None
}

/// Declinations with their units, decimals and whether a minus stands there, or their fault.
const DEGREES: &[(&[u8; 12], Result<(i64, u8, bool), AngleFault>)] = &[
    (b"+23 45 01.23", Ok((213_753_075_000_000, 2, false))),
    (b"-00 00 00.00", Ok((0, 2, true))),
    (b"-90 00 00   ", Ok((-810_000_000_000_000, 0, true))),
    (b"+90 00 00.01", Err(AngleFault::Range)),
    (b"+10 00 60   ", Err(AngleFault::Range)),
    (b" 10 00 00   ", Err(AngleFault::Spelling)),
];

fn wrong_degrees() -> Option<usize> {
    for (row, &(text, wanted)) in DEGREES.iter().enumerate() {
        if read_dms(text).map(|x| (x.0.units(), x.1, x.2)) != wanted {
            return Some(row);
        }
    }
    None
}

#[test]
fn reads(rt: HostRuntime) {
    expect_none_wrong(&rt, wrong_hours());
    expect_none_wrong(&rt, wrong_degrees());
}

/// Units within the circle, how many decimals are written, and the text.
const WRITTEN_HOURS: &[(i64, u8, &[u8; 12])] = &[
    (838_296_262_500_000, 3, b"06 12 34.567"),
    (3_239_999_999_999_991, 3, b"00 00 00.000"),
    (18_750_000_000, 0, b"00 00 01    "),
    (18_749_999_999, 0, b"00 00 00    "),
];

/// The text of these units; None where they aren't within the circle, or the decimals are too many.
fn hours_text(units: i64, decimals: u8) -> Option<[u8; 12]> {
    if decimals > 3 {
        return None;
    }
    Some(write_hms(Ra::new(units)?, decimals))
}

fn wrong_written_hours() -> Option<usize> {
    for (row, &(units, decimals, text)) in WRITTEN_HOURS.iter().enumerate() {
        if hours_text(units, decimals) != Some(*text) {
            return Some(row);
        }
    }
    None
}

/// Units within 90 degrees, how many decimals are written, whether a minus stands before zero, and the text.
const WRITTEN_DEGREES: &[(i64, u8, bool, &[u8; 12])] = &[
    (213_753_075_000_000, 2, false, b"+23 45 01.23"),
    (-9, 2, false, b"-00 00 00.00"),
    (0, 2, true, b"-00 00 00.00"),
    (0, 1, false, b"+00 00 00.0 "),
    (-8_999_998_750_000, 0, false, b"-01 00 00   "),
];

/// The text of these units; None where they aren't within 90 degrees, or the decimals are too many.
fn degrees_text(units: i64, decimals: u8, minus: bool) -> Option<[u8; 12]> {
    if decimals > 2 {
        return None;
    }
    Some(write_dms(Dec::new(units)?, decimals, minus))
}

fn wrong_written_degrees() -> Option<usize> {
    for (row, &(units, decimals, minus, text)) in WRITTEN_DEGREES.iter().enumerate() {
        if degrees_text(units, decimals, minus) != Some(*text) {
            return Some(row);
        }
    }
    None
}

#[test]
fn writes(rt: HostRuntime) {
    expect_none_wrong(&rt, wrong_written_hours());
    expect_none_wrong(&rt, wrong_written_degrees());
    let beyond = (
        Ra::new(3_240_000_000_000_000).is_some(),
        Dec::new(-810_000_000_000_001).is_some(),
    );
    assert_eq!(rt; beyond, (false, false));
}

/// Right ascensions in degrees, with their units or their fault. A degree is 9,000,000,000,000 units, and its twelfth
/// decimal 9.
const RA_TEXTS: &[(&[u8], Result<i64, AngleFault>)] = &[
    (b"359.999999999999", Ok(3_239_999_999_999_991)),
    (b"150.0", Ok(1_350_000_000_000_000)),
    (b"007.5", Ok(67_500_000_000_000)),
    (b"150.0000000000001", Err(AngleFault::Decimals)),
    (b"400.0000000000001", Err(AngleFault::Decimals)),
    (b"360", Err(AngleFault::Range)),
    (b"360.0", Err(AngleFault::Range)),
    (b"999", Err(AngleFault::Range)),
    (b"1234", Err(AngleFault::Spelling)),
    (b"", Err(AngleFault::Spelling)),
    (b".5", Err(AngleFault::Spelling)),
    (b"5.", Err(AngleFault::Spelling)),
    (b"5.x", Err(AngleFault::Spelling)),
    (b"5.0000000000000x", Err(AngleFault::Spelling)),
    (b" 5", Err(AngleFault::Spelling)),
];

fn wrong_ra_text() -> Option<usize> {
    for (row, &(text, wanted)) in RA_TEXTS.iter().enumerate() {
        if read_ra_degrees(text).map(|ra| ra.units()) != wanted {
            return Some(row);
        }
    }
    None
}

#[test]
fn reads_ra_in_degrees(rt: HostRuntime) {
    expect_none_wrong(&rt, wrong_ra_text());
}

/// Declinations in degrees, with their units or their fault.
const DEC_TEXTS: &[(&[u8], Result<i64, AngleFault>)] = &[
    (b"-0.000000000001", Ok(-9)),
    (b"-5.5", Ok(-49_500_000_000_000)),
    (b"+90", Ok(810_000_000_000_000)),
    (b"90.000", Ok(810_000_000_000_000)),
    (b"90.000000000001", Err(AngleFault::Range)),
    (b"-90.000000000001", Err(AngleFault::Range)),
    (b"+-5", Err(AngleFault::Spelling)),
    (b"+", Err(AngleFault::Spelling)),
    (b"123.4", Err(AngleFault::Spelling)),
];

fn wrong_dec_text() -> Option<usize> {
    for (row, &(text, wanted)) in DEC_TEXTS.iter().enumerate() {
        if read_dec_degrees(text).map(|dec| dec.units()) != wanted {
            return Some(row);
        }
    }
    None
}

#[test]
fn reads_dec_in_degrees(rt: HostRuntime) {
    expect_none_wrong(&rt, wrong_dec_text());
}

/// Units within the circle, and their text in degrees: 838,296,262,500,000 is 9 * 93,144,029,166,666 + 6.
const WRITTEN_RA: &[(i64, &[u8; 16])] = &[
    (838_296_262_500_000, b"93.144029166667 "),
    (3_239_999_999_999_999, b"0.000000000000  "),
    (3_239_999_999_999_991, b"359.999999999999"),
];

fn wrong_written_ra() -> Option<usize> {
    for (row, &(units, text)) in WRITTEN_RA.iter().enumerate() {
        if Ra::new(units).map(|ra| write_ra_degrees(ra)) != Some(*text) {
            return Some(row);
        }
    }
    None
}

/// Units within 90 degrees, and their text in degrees: 213,753,075,000,000 is 9 * 23,750,341,666,666 + 6.
const WRITTEN_DEC: &[(i64, &[u8; 16])] = &[
    (-9, b"-00.000000000001"),
    (-4, b"-00.000000000000"),
    (0, b"+00.000000000000"),
    (213_753_075_000_000, b"+23.750341666667"),
];

fn wrong_written_dec() -> Option<usize> {
    for (row, &(units, text)) in WRITTEN_DEC.iter().enumerate() {
        if Dec::new(units).map(|dec| write_dec_degrees(dec)) != Some(*text) {
            return Some(row);
        }
    }
    None
}

#[test]
fn writes_degrees(rt: HostRuntime) {
    expect_none_wrong(&rt, wrong_written_ra());
    expect_none_wrong(&rt, wrong_written_dec());
}
