//! Moments, dates and half-months.

use crate::tables::expect_none_wrong;
use obs_time::{
    Instant, TimeFault, civil_of, day, half_month, read_date, read_day_fraction, read_iso,
    write_day_fraction, write_iso,
};

/// The day, the year, the month, the day of the month and the nanosecond of the day of a moment.
fn date_of(ns: i64) -> Option<(i32, u16, u8, u8, u64)> {
    let t = Instant::new(ns)?;
    let civil = civil_of(t);
    Some((day(t), civil.year, civil.month, civil.day, civil.ns_of_day))
}

#[test]
fn moments(rt: HostRuntime) {
    let beyond = (
        Instant::new(-5_364_662_400_000_000_001).is_some(),
        Instant::new(7_258_118_400_000_000_000).is_some(),
    );
    assert_eq!(rt; beyond, (false, false));
    // a nanosecond before 1970
    let before = date_of(-1);
    assert_eq!(rt; before, Some((-1, 1969, 12, 31, 86_399_999_999_999)));
}

const DATES: &[(&[u8], Result<i32, TimeFault>)] = &[
    (b"1800-01-01", Ok(-62_091)),
    (b"2199-12-31", Ok(84_005)),
    (b"2000-02-29", Ok(11_016)),
    (b"1799-12-31", Err(TimeFault::Range)),
    (b"2200-01-01", Err(TimeFault::Range)),
    (b"1900-02-29", Err(TimeFault::NoSuchDate)),
    (b"2024-03-1", Err(TimeFault::Spelling)),
    (b"2024-03-150", Err(TimeFault::Spelling)),
    (b"2024-03 15", Err(TimeFault::Spelling)),
    (b"", Err(TimeFault::Spelling)),
];

/// The first row that is read as something else, counted from 0; None where there is none. So are those below.
fn wrong_date() -> Option<usize> {
    for (row, &(text, wanted)) in DATES.iter().enumerate() {
        if read_date(text) != wanted {
            return Some(row);
        }
    }
    None
}

#[test]
fn reads_dates(rt: HostRuntime) {
    expect_none_wrong(&rt, wrong_date());
}

const DAYS: &[(&[u8; 17], Result<(i64, u8), TimeFault>)] = &[
    (b"2024 03 15.12345 ", Ok((1_710_471_466_080_000_000, 5))),
    (b"1800 01 01.0     ", Ok((-5_364_662_400_000_000_000, 1))),
    (b"2199 12 31.999999", Ok((7_258_118_399_913_600_000, 6))),
    (b"1969 12 31.5     ", Ok((-43_200_000_000_000, 1))),
    (b"2000 02 29.0     ", Ok((951_782_400_000_000_000, 1))),
    (b"2024 02 30.12345 ", Err(TimeFault::NoSuchDate)),
    (b"1900 02 29.0     ", Err(TimeFault::NoSuchDate)),
    (b"2024 03 00.0     ", Err(TimeFault::NoSuchDate)),
    (b"1799 02 30.0     ", Err(TimeFault::Range)),
    (b"2200 01 01.0     ", Err(TimeFault::Range)),
    (b"2024 03 15       ", Err(TimeFault::Spelling)),
    (b"2024 03 15.      ", Err(TimeFault::Spelling)),
    (b"2024 03 15.5    x", Err(TimeFault::Spelling)),
    (b"2024 3  15.5     ", Err(TimeFault::Spelling)),
    (b"2024-03-15.5     ", Err(TimeFault::Spelling)),
];

fn read_day(text: &[u8; 17]) -> Result<(i64, u8), TimeFault> {
    match read_day_fraction(text) {
        Ok((t, decimals)) => Ok((t.ns(), decimals)),
        Err(fault) => Err(fault),
    }
}

fn wrong_day() -> Option<usize> {
    for (row, &(text, wanted)) in DAYS.iter().enumerate() {
        if read_day(text) != wanted {
            return Some(row);
        }
    }
    None
}

#[test]
fn reads_days(rt: HostRuntime) {
    expect_none_wrong(&rt, wrong_day());
}

const WRITTEN_DAYS: &[(i64, u8, &[u8; 17])] = &[
    (1_710_471_466_080_000_000, 5, b"2024 03 15.12345 "),
    (1_735_689_599_999_999_900, 6, b"2025 01 01.000000"),
    (1_709_251_199_000_000_000, 1, b"2024 03 01.0     "),
    (7_258_118_399_999_999_999, 3, b"2200 01 01.000   "),
    (-5_364_662_400_000_000_000, 6, b"1800 01 01.000000"),
    (4_320_000_000_000, 1, b"1970 01 01.1     "),
    (-4_320_000_000_000, 1, b"1969 12 31.9     "),
    (-4_319_999_999_999, 1, b"1970 01 01.0     "),
];

/// The text of a moment; None where it is beyond the years 1800 to 2199, or so many decimals aren't written.
fn day_text(ns: i64, decimals: u8) -> Option<[u8; 17]> {
    if decimals < 1 || decimals > 6 {
        return None;
    }
    Some(write_day_fraction(Instant::new(ns)?, decimals))
}

fn wrong_written_day() -> Option<usize> {
    for (row, &(ns, decimals, text)) in WRITTEN_DAYS.iter().enumerate() {
        if day_text(ns, decimals) != Some(*text) {
            return Some(row);
        }
    }
    None
}

#[test]
fn writes_days(rt: HostRuntime) {
    expect_none_wrong(&rt, wrong_written_day());
}

const TIMES: &[(&[u8], Result<i64, TimeFault>)] = &[
    (b"2024-03-15T23:59:59.999Z", Ok(1_710_547_199_999_000_000)),
    (b"2024-02-29T12:00:00Z", Ok(1_709_208_000_000_000_000)),
    (b"1970-01-01T00:00:00Z", Ok(0)),
    (b"1970-01-01T00:00:00.000000001Z", Ok(1)),
    (b"1969-12-31T23:59:59.5Z", Ok(-500_000_000)),
    (b"1800-01-01T00:00:00Z", Ok(-5_364_662_400_000_000_000)),
    (
        b"2199-12-31T23:59:59.999999999Z",
        Ok(7_258_118_399_999_999_999),
    ),
    (b"1799-12-31T23:59:59Z", Err(TimeFault::Range)),
    (b"2200-01-01T00:00:00Z", Err(TimeFault::Range)),
    (b"2024-03-15T24:00:00Z", Err(TimeFault::Range)),
    (b"2024-03-15T23:60:00Z", Err(TimeFault::Range)),
    (b"2024-03-15T23:59:60Z", Err(TimeFault::Range)),
    (b"2024-13-01T24:00:00Z", Err(TimeFault::Range)),
    (b"2024-02-30T00:00:00Z", Err(TimeFault::NoSuchDate)),
    (b"2023-02-29T12:00:00Z", Err(TimeFault::NoSuchDate)),
    (b"2024-03-15T23:59:59.0123456789Z", Err(TimeFault::Decimals)),
    (b"2024-03-15T24:59:59.0123456789Z", Err(TimeFault::Decimals)),
    (b"2024-03-15T23:59:59.Z", Err(TimeFault::Spelling)),
    (b"2024-03-15T23:59:59", Err(TimeFault::Spelling)),
    (b"2024-03-15t23:59:59Z", Err(TimeFault::Spelling)),
    (b"2024-03-15T23:59:59z", Err(TimeFault::Spelling)),
    (b"2024-3-15T23:59:59Z", Err(TimeFault::Spelling)),
    (b" 2024-03-15T23:59:59Z", Err(TimeFault::Spelling)),
    (b"2024-03-15T23:59:59Z ", Err(TimeFault::Spelling)),
    (
        b"2024-03-15T23:59:59.12345678901x",
        Err(TimeFault::Spelling),
    ),
    (b"", Err(TimeFault::Spelling)),
];

fn read_ns(text: &[u8]) -> Result<i64, TimeFault> {
    match read_iso(text) {
        Ok(t) => Ok(t.ns()),
        Err(fault) => Err(fault),
    }
}

fn wrong_time() -> Option<usize> {
    for (row, &(text, wanted)) in TIMES.iter().enumerate() {
        if read_ns(text) != wanted {
            return Some(row);
        }
    }
    None
}

#[test]
fn reads_iso_times(rt: HostRuntime) {
    expect_none_wrong(&rt, wrong_time());
}

const WRITTEN_TIMES: &[(i64, &[u8; 30])] = &[
    (1_710_471_466_080_000_000, b"2024-03-15T02:57:46.080000000Z"),
    (0, b"1970-01-01T00:00:00.000000000Z"),
    (-1, b"1969-12-31T23:59:59.999999999Z"),
    (
        -5_364_662_400_000_000_000,
        b"1800-01-01T00:00:00.000000000Z",
    ),
    (7_258_118_399_999_999_999, b"2199-12-31T23:59:59.999999999Z"),
];

fn wrong_written_time() -> Option<usize> {
    for (row, &(ns, text)) in WRITTEN_TIMES.iter().enumerate() {
        if Instant::new(ns).map(|t| write_iso(t)) != Some(*text) {
            return Some(row);
        }
    }
    None
}

#[test]
fn writes_iso_times(rt: HostRuntime) {
    expect_none_wrong(&rt, wrong_written_time());
}

const HALF_MONTHS: &[(i64, Option<(u16, u8)>)] = &[
    (-1_420_070_400_000_000_001, None), // 1924-12-31T23:59:59.999999999Z
    (-1_420_070_400_000_000_000, Some((1925, 0))), // 1925-01-01
    (-1, Some((1969, 23))), // 1969-12-31T23:59:59.999999999Z
    (1_708_041_599_999_999_999, Some((2024, 2))), // 2024-02-15T23:59:59.999999999Z
    (1_708_041_600_000_000_000, Some((2024, 3))), // 2024-02-16
    (1_709_251_199_999_999_999, Some((2024, 3))), // 2024-02-29T23:59:59.999999999Z
    (1_710_547_199_999_999_999, Some((2024, 4))), // 2024-03-15T23:59:59.999999999Z
    (1_710_547_200_000_000_000, Some((2024, 5))), // 2024-03-16
    (1_735_689_599_999_999_900, Some((2024, 23))), // 2024-12-31T23:59:59.9999999Z
    (1_735_689_600_000_000_000, Some((2025, 0))), // 2025-01-01
    (4_102_444_799_999_999_999, Some((2099, 23))), // 2099-12-31T23:59:59.999999999Z
    (4_102_444_800_000_000_000, None), // 2100-01-01
];

/// Whether a moment lies in this half-month, or in none.
fn is_half(ns: i64, wanted: Option<(u16, u8)>) -> bool {
    match Instant::new(ns) {
        Some(t) => half_month(t) == wanted,
        None => false,
    }
}

fn wrong_half() -> Option<usize> {
    for (row, &(ns, wanted)) in HALF_MONTHS.iter().enumerate() {
        if !is_half(ns, wanted) {
            return Some(row);
        }
    }
    None
}

#[test]
fn half_months(rt: HostRuntime) {
    expect_none_wrong(&rt, wrong_half());
}
