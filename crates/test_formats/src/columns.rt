//! Lines of 80 columns, read.

use crate::tables::expect_none_wrong;
use col80_format::*;
use obs_record::{Coded, RuleCode, Shape, Short, TrackName, track_name};
use packed_names::{Designation, HalfMonth, Number, Provisional};
use testkit_lines::with;

/// What stands in a line from a column on.
type Spelling = (usize, &'static [u8]);

/// What breaks no rule.
const UNBROKEN: &[Spelling] = &[
    (1, b""),
    (80, b"~"),
    (72, b"~"),
    (73, b"ref01"),
    (13, b"*"),
    (14, b"~"),
    // columns 1 to 12
    (1, b"00433"),
    (1, b"00433       "),
    (1, b"00001       "),
    (1, b"~zzzz       "),
    (1, b"A0000"),
    (6, b"K24E00A"),
    (6, b"k24e00A"),
    (6, b"_OE0000"),
    (6, b"J24A00A"),
    (6, b"A      "),
    (6, b"      A"),
    (6, b"   A   "),
    (6, b"PLS2040"),
    (6, b"PLS0000"),
    // column 15
    (15, b" "),
    (15, b"~"),
    // columns 16 to 32
    (16, b"2024 02 29.12345 "),
    (16, b"1800 01 01.0     "),
    (16, b"2199 12 31.999999"),
    (32, b"6"),
    // columns 33 to 44
    (33, b"23 59 59.999"),
    (33, b"00 00 00    "),
    (44, b"7"),
    // columns 45 to 56
    (45, b"-00 00 00.00"),
    (45, b"+90 00 00.00"),
    (45, b"-90 00 00   "),
    (56, b"3"),
    // columns 66 to 70
    (66, b"     "),
    (66, b"19   "),
    (66, b" 9.5 "),
    (66, b" 0   "),
    (66, b"99.99"),
    // columns 71 to 80
    (71, b" "),
    (78, b"   "),
];

/// What breaks S2, also where it breaks a later rule; so are those below.
const BREAKS_S2: &[Spelling] = &[
    (14, b"\xc8"),
    (1, b"\x1f"),
    (80, b"\x7f"),
    (1, b"\xc8bcde       "),
];

/// What breaks S3.
const BREAKS_S3: &[Spelling] = &[
    (1, b"            "),
    (5, b"CJ95O010"),
    (1, b"1"),
    (5, b"1"),
    (1, b"00000       "),
    (1, b"~zzz "),
    (1, b"a000A"),
    (6, b" A B   "),
    (6, b" A|B   "),
    (6, b"|      "),
    (12, b"|  V"),
];

/// What breaks S4.
const BREAKS_S4: &[Spelling] = &[
    (15, b"V"),
    (15, b"v"),
    (15, b"R"),
    (15, b"r"),
    (15, b"S"),
    (15, b"s"),
    (15, b"V2024 02 30"),
];

/// What breaks S5.
const BREAKS_S5: &[Spelling] = &[
    (16, b"2024 02 30.12345 "),
    (16, b"2023 02 29.12345 "),
    (16, b"1799 12 31.999999"),
    (16, b"2200 01 01.0     "),
    (16, b"2024 03 15       "),
    (16, b"2024 03 15.      "),
    (16, b" 024 03 15.12345 "),
    (32, b"x"),
    (31, b"x x"),
];

/// What breaks S6.
const BREAKS_S6: &[Spelling] = &[
    (33, b"24 00 00.00 "),
    (33, b"06 60 00.0  "),
    (33, b"06 00 60.0  "),
    (33, b"06 12 34.   "),
    (33, b" 6 12 34.56 "),
    (44, b"x"),
    (44, b"x*"),
];

/// What breaks S7.
const BREAKS_S7: &[Spelling] = &[
    (45, b"+90 00 00.01"),
    (45, b"+23 60 00.0 "),
    (45, b"+23 00 60.0 "),
    (45, b" 23 45 01.2 "),
    (56, b"x"),
    (56, b"xx"),
];

/// What breaks S8.
const BREAKS_S8: &[Spelling] = &[(57, b"x"), (60, b"x"), (65, b"x"), (65, b"x1. ")];

/// What breaks S9.
const BREAKS_S9: &[Spelling] = &[
    (66, b"19.  "),
    (66, b"09.5 "),
    (66, b" 19.5"),
    (66, b"9.5  "),
    (66, b"-1.5 "),
    (66, b"1    "),
    (70, b"x"),
];

/// The rule that the line with these bytes from a column on breaks.
fn broken(column: usize, text: &[u8]) -> Option<RuleCode> {
    read_line(&with(column, text)).err()
}

/// The first of these spellings that breaks another rule, counted from 0; None where there is none. So are those below.
fn wrong_spelling(spellings: &[Spelling], rule: Option<RuleCode>) -> Option<usize> {
    for (row, &(column, text)) in spellings.iter().enumerate() {
        if broken(column, text) != rule {
            return Some(row);
        }
    }
    None
}

/// The first wrong one for each rule.
fn wrong_spellings() -> [Option<usize>; 9] {
    [
        wrong_spelling(UNBROKEN, None),
        wrong_spelling(BREAKS_S2, Some(RuleCode::S2)),
        wrong_spelling(BREAKS_S3, Some(RuleCode::S3)),
        wrong_spelling(BREAKS_S4, Some(RuleCode::S4)),
        wrong_spelling(BREAKS_S5, Some(RuleCode::S5)),
        wrong_spelling(BREAKS_S6, Some(RuleCode::S6)),
        wrong_spelling(BREAKS_S7, Some(RuleCode::S7)),
        wrong_spelling(BREAKS_S8, Some(RuleCode::S8)),
        wrong_spelling(BREAKS_S9, Some(RuleCode::S9)),
    ]
}

#[test]
fn breaks_the_first_rule(rt: HostRuntime) {
    let wrong = wrong_spellings();
    assert_eq!(rt; wrong, [None; 9]);
}

/// The rule that a line of so many blanks breaks.
fn blanks_break(count: usize) -> Option<RuleCode> {
    let long = [b' '; 81];
    let (line, _) = long.split_at(count.min(81));
    read_line(line).err()
}

#[test]
fn lines_have_80_bytes(rt: HostRuntime) {
    let broken = [blanks_break(0), blanks_break(79), blanks_break(81)];
    assert_eq!(rt; broken, [Some(RuleCode::S1); 3]);
}

/// The name of the line with this text in columns 1 to 12.
fn name_in(text: &[u8]) -> Option<TrackName> {
    match read_line(&with(1, text)) {
        Ok(s) => Some(track_name(&s)),
        Err(_) => None,
    }
}

/// A temporary designation.
fn temporary(text: &[u8]) -> TrackName {
    TrackName::Sub(Short::new(text))
}

/// Columns 1 to 12, and the name that the observation goes by.
fn names() -> [(&'static [u8], TrackName); 10] {
    let half = HalfMonth {
        year: 2024,
        index: 4,
    };
    let first = Designation::Provisional(Provisional { half, order: 1 });
    [
        (b"     P10abcd", temporary(b"P10abcd")),
        (b"     A      ", temporary(b"A")),
        (b"        A   ", temporary(b"A")),
        (b"           A", temporary(b"A")),
        (b"      Ab-1  ", temporary(b"Ab-1")),
        (b"     k24e00A", temporary(b"k24e00A")),
        (b"     K24E00A", TrackName::Designation(first)),
        (b"00433       ", TrackName::Number(Number(433))),
        (b"00433P10abcd", TrackName::Number(Number(433))),
        (b"~zzzzK24E00A", TrackName::Number(Number(15_396_335))),
    ]
}

fn wrong_name() -> Option<usize> {
    for (row, &(text, name)) in names().iter().enumerate() {
        if name_in(text) != Some(name) {
            return Some(row);
        }
    }
    None
}

#[test]
fn reads_names(rt: HostRuntime) {
    expect_none_wrong(&rt, wrong_name());
}

/// The magnitude of the line with this text in columns 66 to 70, and its decimals.
fn magnitude_in(text: &[u8]) -> Option<(Option<u32>, u8)> {
    let s = read_line(&with(66, text)).ok()?;
    match s.shape {
        Shape::Eighty { mag, .. } => Some((s.mag, mag)),
        Shape::Psv { .. } => None,
    }
}

/// Columns 66 to 70, the magnitude and its decimals.
const MAGNITUDES: &[(&[u8], Option<u32>, u8)] = &[
    (b"     ", None, 0),
    (b"19.5 ", Some(19_500_000), 1),
    (b"99.99", Some(99_990_000), 2),
    (b" 0   ", Some(0), 0),
    (b" 7.05", Some(7_050_000), 2),
];

fn wrong_magnitude() -> Option<usize> {
    for (row, &(text, mag, places)) in MAGNITUDES.iter().enumerate() {
        if magnitude_in(text) != Some((mag, places)) {
            return Some(row);
        }
    }
    None
}

#[test]
fn reads_magnitudes(rt: HostRuntime) {
    expect_none_wrong(&rt, wrong_magnitude());
}

/// The observation of the line with these bytes from a column on: the moment, both angles, and the other columns.
fn columns_of(
    column: usize,
    text: &[u8],
) -> Option<((i64, i64, i64), (Coded, Coded, Coded, u8), Shape)> {
    let s = read_line(&with(column, text)).ok()?;
    let at = (s.time.ns(), s.ra.units(), s.dec.units());
    Some((at, (s.mode, s.band, s.catalogue, s.note1), s.shape))
}

#[test]
fn reads_the_columns(rt: HostRuntime) {
    // 2024-03-15T02:57:46.08Z, 93.144 degrees, and 23 + 45 / 60 + 1.2 / 3600 degrees
    let at = (
        1_710_471_466_080_000_000,
        838_296_000_000_000,
        213_753_000_000_000,
    );
    let letters = (
        Coded::Letter(b'C'),
        Coded::Letter(b'V'),
        Coded::Nothing,
        b'K',
    );
    let shape = Shape::Eighty {
        date: 5,
        ra: 2,
        dec: 1,
        minus: false,
        mag: 1,
    };
    assert_eq!(rt; columns_of(13, b"*K"), Some((at, letters, shape)));
}

#[test]
fn keeps_the_minus_of_zero(rt: HostRuntime) {
    let read = columns_of(45, b"-00 00 00.00").map(|x| (x.0.2, x.2));
    let shape = Shape::Eighty {
        date: 5,
        ra: 2,
        dec: 2,
        minus: true,
        mag: 1,
    };
    assert_eq!(rt; read, Some((0, shape)));
}
