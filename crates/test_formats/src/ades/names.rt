//! The names that a line's three fields give.

use super::calls::{VERSION, only_line_of};
use crate::tables::expect_none_wrong;
use obs_record::{Line, RuleCode, Short, Sighting, TrackName};
use packed_names::{Designation, HalfMonth, Number, Provisional, Survey};
use std::alloc::Global;

/// A temporary designation.
fn temporary(text: &[u8]) -> TrackName {
    TrackName::Sub(Short::new(text))
}

/// The fields permID, provID and trkSub, and the name that they give.
fn names() -> [(&'static [u8], Result<TrackName, RuleCode>); 17] {
    let half = HalfMonth {
        year: 2024,
        index: 4,
    };
    let first = Designation::Provisional(Provisional { half, order: 1 });
    let survey = Designation::Survey(Survey::PalomarLeiden, 2040);
    [
        (b"433||", Ok(TrackName::Number(Number(433)))),
        (b" 433 || ", Ok(TrackName::Number(Number(433)))),
        (b"15396335||", Ok(TrackName::Number(Number(15_396_335)))),
        (b"15396336||", Err(RuleCode::S3)),
        (b"0||", Err(RuleCode::S3)),
        (b"00433||", Err(RuleCode::S3)),
        (b"2024 EA||", Err(RuleCode::S3)),
        (b"\xc8||", Err(RuleCode::S3)),
        (b"|2024 EA|", Ok(TrackName::Designation(first))),
        (b"| 2040 P-L |", Ok(TrackName::Designation(survey))),
        (b"|433|", Err(RuleCode::S3)),
        (b"|K24E00A|", Err(RuleCode::S3)),
        (b"|2024 EA0|", Err(RuleCode::S3)),
        (b"|C/1995 O1|AAA1", Err(RuleCode::S3)),
        (b"433|2024 EA|AAA1", Ok(TrackName::Number(Number(433)))),
        (b"||AAA1", Ok(temporary(b"AAA1"))),
        (b"|2024 EA|ABCDEFGHI", Err(RuleCode::S12)),
    ]
}

/// The columns of names, and the fields after these.
const NAME_COLUMNS: &[u8] = b"permID|provID|trkSub|mode|stn|obsTime|ra|dec|astCat\n";

const BEHIND_NAMES: &[u8] = b"|CCD|703|2024-03-15T23:59:59.999Z|150.0|-5.5|Gaia3";

/// The name that an observation goes by.
fn name_of(s: Sighting) -> Option<TrackName> {
    match (s.perm, s.prov, s.sub) {
        (Some(number), _, _) => Some(TrackName::Number(number)),
        (None, Some(designation), _) => Some(TrackName::Designation(designation)),
        (None, None, Some(sub)) => Some(TrackName::Sub(sub)),
        (None, None, None) => None,
    }
}

/// Whether a line is of an observation that goes by this name, or breaks this rule.
fn is_named(line: &Line, name: Result<TrackName, RuleCode>) -> bool {
    match (line.read, name) {
        (Ok(sighting), Ok(name)) => name_of(sighting) == Some(name),
        (Err(found), Err(rule)) => found == rule,
        _ => false,
    }
}

/// Whether a batch of these parts has one line, of an observation that goes by this name, or that breaks this rule.
fn is_line_named(alloc: Global, parts: &[&[u8]], name: Result<TrackName, RuleCode>) -> bool {
    match only_line_of(alloc, parts) {
        Some(line) => is_named(&line, name),
        None => false,
    }
}

fn wrong_name(alloc: Global) -> Option<usize> {
    for (row, &(text, name)) in names().iter().enumerate() {
        if !is_line_named(alloc, &[VERSION, NAME_COLUMNS, text, BEHIND_NAMES], name) {
            return Some(row);
        }
    }
    None
}

#[test]
fn reads_names(rt: HostRuntime) {
    let wrong = wrong_name(rt.alloc());
    expect_none_wrong(&rt, wrong);
}
