//! The end of a line that comes in two pieces.

use super::calls::only_line;
use crate::tables::expect_none_wrong;
use ades_psv::PsvReader;
use obs_record::RuleCode;
use std::alloc::Global;

/// The last line of a batch as it ends, its number and the rule that it breaks. A carriage return that no line feed
/// follows belongs to its line, and is no byte of a text.
const ENDINGS: &[(&[u8], Option<(u32, Option<RuleCode>)>)] = &[
    (
        b"AAA1|CCD|703|2024-03-15T23:59:59.999Z|150.0|-5.5|Gaia3",
        Some((3, None)),
    ),
    (
        b"AAA1|CCD|703|2024-03-15T23:59:59.999Z|150.0|-5.5|Gaia3\r\n",
        Some((3, None)),
    ),
    (
        b"AAA1|CCD|703|2024-03-15T23:59:59.999Z|150.0|-5.5|Gaia3\r",
        Some((3, Some(RuleCode::S2))),
    ),
    (
        b"AAA1|CCD|703|2024-03-15T23:59:59.999Z|150.0|-5.5|Gaia3\r\r\n",
        Some((3, Some(RuleCode::S2))),
    ),
];

/// The number of the only line of a batch that ends so, fed in two pieces, the second of which has so many bytes, and
/// the rule that the line breaks.
fn rule_cut_apart(alloc: Global, end: &[u8], last: usize) -> Option<(u32, Option<RuleCode>)> {
    let mut reader = PsvReader::new(alloc).ok()?;
    reader
        .feed(b"# version=2017\ntrkSub|mode|stn|obsTime|ra|dec|astCat\n")
        .ok()?;
    if end.len() > 99 || last > end.len() {
        return None;
    }
    let (front, back) = end.split_at(end.len() - last);
    reader.feed(front).ok()?;
    reader.feed(back).ok()?;
    let line = only_line(&reader.finish())?;
    Some((line.number, line.read.err()))
}

/// Whether that is so wherever the end is cut: before its last two bytes, its last byte, or after it.
fn is_ending(alloc: Global, end: &[u8], wanted: Option<(u32, Option<RuleCode>)>) -> bool {
    for last in 0..3 {
        if rule_cut_apart(alloc, end, last) != wanted {
            return false;
        }
    }
    true
}

fn wrong_ending(alloc: Global) -> Option<usize> {
    for (row, &(end, wanted)) in ENDINGS.iter().enumerate() {
        if !is_ending(alloc, end, wanted) {
            return Some(row);
        }
    }
    None
}

#[test]
fn cuts_a_line_end_apart(rt: HostRuntime) {
    let wrong = wrong_ending(rt.alloc());
    expect_none_wrong(&rt, wrong);
}
