//! Lines that break a rule by the text of a field, or by their number of fields.

use super::calls::{VERSION, only_line_of, rule_of};
use crate::tables::expect_none_wrong;
use obs_record::RuleCode;
use std::alloc::Global;

/// Whether a batch of these parts has one line, the third, which breaks this rule.
fn breaks(alloc: Global, parts: &[&[u8]], rule: Option<RuleCode>) -> bool {
    match only_line_of(alloc, parts) {
        Some(line) => rule_of(&line) == (3, rule),
        None => false,
    }
}

/// The columns of an observation under a temporary designation.
const COLUMNS: &[u8] = b"trkSub|mode|stn|obsTime|ra|dec|astCat|mag|band";

/// The fields of a line below them that breaks no rule.
const FIELDS: [&[u8]; 9] = [
    b"AAA1",
    b"CCD",
    b"703",
    b"2024-03-15T23:59:59.999Z",
    b"150.0",
    b"-5.5",
    b"Gaia3",
    b"20.25",
    b"V",
];

/// The parts of a batch of a line of these fields, with another text in one of them.
fn batch_with(place: usize, text: &'static [u8]) -> [&'static [u8]; 20] {
    let mut f = FIELDS;
    if place < 9 {
        f[place] = text;
    }
    let bar: &[u8] = b"|";
    [
        VERSION, COLUMNS, b"\n", f[0], bar, f[1], bar, f[2], bar, f[3], bar, f[4], bar, f[5], bar,
        f[6], bar, f[7], bar, f[8],
    ]
}

/// A field, another text in it, and the rule that the line then breaks.
const FIELD_TEXTS: &[(usize, &[u8], Option<RuleCode>)] = &[
    (0, b"AAA1", None),
    // temporary designation
    (0, b"ABCDEFGH", None),
    (0, b"  A~!1  ", None),
    (0, b"ABCDEFGHI", Some(RuleCode::S12)),
    (0, b"A B", Some(RuleCode::S12)),
    (0, b"\xc8", Some(RuleCode::S12)),
    (0, b"\x7f", Some(RuleCode::S2)),
    (0, b"", Some(RuleCode::S11)),
    (0, b"   ", Some(RuleCode::S11)),
    // mode
    (1, b"", Some(RuleCode::S11)),
    (1, b"a mode of more than twelve bytes", None),
    (1, b"\xc8", None),
    (1, b"\x1f", Some(RuleCode::S2)),
    // station
    (2, b"", Some(RuleCode::S11)),
    (2, b"\x80", None),
    (2, b"\xff", None),
    (2, b"\t703", Some(RuleCode::S2)),
    // time
    (3, b"2024-03-16T12:00:00Z", None),
    (3, b" 2024-03-16T12:00:00.123456789Z ", None),
    (3, b"2024-03-16T12:00:00.1234567890Z", Some(RuleCode::S5)),
    (3, b"2024-03-16T12:00:00.Z", Some(RuleCode::S5)),
    (3, b"2024-03-16T12:00:00", Some(RuleCode::S5)),
    (3, b"2024-03-16 12:00:00Z", Some(RuleCode::S5)),
    (3, b"2024-02-30T12:00:00Z", Some(RuleCode::S5)),
    (3, b"2024-03-16T24:00:00Z", Some(RuleCode::S5)),
    (3, b"2024-03-16T12:00:60Z", Some(RuleCode::S5)),
    (3, b"1800-01-01T00:00:00Z", None),
    (3, b"1799-12-31T23:59:59Z", Some(RuleCode::S5)),
    (3, b"2199-12-31T23:59:59Z", None),
    (3, b"2200-01-01T00:00:00Z", Some(RuleCode::S5)),
    (3, b"2024-03-16T12:00:00\xc8", Some(RuleCode::S5)),
    (3, b"", Some(RuleCode::S11)),
    // right ascension
    (4, b"150.000000000000", None),
    (4, b"150.0000000000001", Some(RuleCode::S6)),
    (4, b"359.999999999999", None),
    (4, b"360", Some(RuleCode::S6)),
    (4, b"000", None),
    (4, b"0000", Some(RuleCode::S6)),
    (4, b"+1", Some(RuleCode::S6)),
    (4, b"150.", Some(RuleCode::S6)),
    (4, b".5", Some(RuleCode::S6)),
    (4, b"\xc8", Some(RuleCode::S6)),
    (4, b"", Some(RuleCode::S11)),
    // declination
    (5, b"5.5", None),
    (5, b"+5.5", None),
    (5, b"90", None),
    (5, b"-90.000000000000", None),
    (5, b"90.000000000001", Some(RuleCode::S7)),
    (5, b"-5.0000000000001", Some(RuleCode::S7)),
    (5, b"005", Some(RuleCode::S7)),
    (5, b"--5", Some(RuleCode::S7)),
    (5, b"\xc8", Some(RuleCode::S7)),
    (5, b"", Some(RuleCode::S11)),
    // catalogue
    (6, b"", Some(RuleCode::S11)),
    (6, b"\xc8", None),
    // magnitude
    (7, b"0", None),
    (7, b"05", None),
    (7, b" 20.123456 ", None),
    (7, b"99.99", None),
    (7, b"99.990000", None),
    (7, b"99.990001", Some(RuleCode::S9)),
    (7, b"99.991", Some(RuleCode::S9)),
    (7, b"100", Some(RuleCode::S9)),
    (7, b"20.1234567", Some(RuleCode::S9)),
    (7, b"20.", Some(RuleCode::S9)),
    (7, b".5", Some(RuleCode::S9)),
    (7, b"-1", Some(RuleCode::S9)),
    (7, b"2x", Some(RuleCode::S9)),
    (7, b"\xc8", Some(RuleCode::S9)),
    // a band without a magnitude is kept
    (7, b"", None),
    // band
    (8, b"", Some(RuleCode::S11)),
    (8, b"\xc8", None),
    // more fields than columns, though they are empty
    (8, b"V|", Some(RuleCode::S10)),
    (8, b"V|x", Some(RuleCode::S10)),
    // several rules at once
    (2, b"|\x7f|x", Some(RuleCode::S2)),
    (3, b"x|400", Some(RuleCode::S5)),
    (4, b"x|95", Some(RuleCode::S6)),
    (5, b"x||100", Some(RuleCode::S7)),
    (7, b"100||", Some(RuleCode::S9)),
];

/// The first row whose line breaks another rule, counted from 0; None where there is none. So are those below.
fn wrong_field(alloc: Global) -> Option<usize> {
    for (row, &(place, text, rule)) in FIELD_TEXTS.iter().enumerate() {
        if !breaks(alloc, &batch_with(place, text), rule) {
            return Some(row);
        }
    }
    None
}

#[test]
fn breaks_the_first_rule(rt: HostRuntime) {
    let wrong = wrong_field(rt.alloc());
    expect_none_wrong(&rt, wrong);
}

/// Whole lines below the same columns, and the rule that each breaks.
const LINE_TEXTS: &[(&[u8], Option<RuleCode>)] = &[
    (b"AAA2|CCD|703|2024-03-16T12:00:00Z|150.2|-5.5|Gaia3", None),
    (
        b" AAA2 |CCD |703|2024-03-16T12:00:00Z| 150.2 |-5.5|  Gaia3",
        None,
    ),
    (
        b"AAA2|CCD|703|2024-03-16T12:00:00Z|150.2|-5.5|Gaia3||V",
        None,
    ),
    (
        b"AAA2|CCD|703|2024-03-16T12:00:00Z|150.2|-5.5",
        Some(RuleCode::S11),
    ),
    (b"AAA2", Some(RuleCode::S11)),
    (b"AAA2||703|x|150.2|-5.5|Gaia3", Some(RuleCode::S5)),
    (
        b"AAA2||703|2024-03-16T12:00:00Z|150.2|-5.5|Gaia3|||",
        Some(RuleCode::S10),
    ),
    (
        b"ABCDEFGHI||703|2024-03-16T12:00:00Z|150.2|-5.5|Gaia3",
        Some(RuleCode::S11),
    ),
    // a carriage return that no line feed follows belongs to the line
    (
        b"AAA2|CCD|703|2024-03-16T12:00:00Z|150.2|-5.5|Gaia3\r",
        Some(RuleCode::S2),
    ),
];

fn wrong_line(alloc: Global) -> Option<usize> {
    for (row, &(line, rule)) in LINE_TEXTS.iter().enumerate() {
        if !breaks(alloc, &[VERSION, COLUMNS, b"\n", line], rule) {
            return Some(row);
        }
    }
    None
}

#[test]
fn reads_lines_with_fewer_fields(rt: HostRuntime) {
    let wrong = wrong_line(rt.alloc());
    expect_none_wrong(&rt, wrong);
}
