//! What is said of a batch, and the parts of it that tests ask for.

use ades_psv::{PsvFault, read_psv};
use obs_record::{Line, Lines, RuleCode};
use std::alloc::Global;

/// The first line of a batch.
pub(super) const VERSION: &[u8] = b"# version=2017\n";

/// What is said of a batch that isn't long.
pub(super) fn said(alloc: Global, body: &[u8]) -> Result<Lines, PsvFault> {
    if body.len() > 9999 {
        return Ok(Lines::new(alloc));
    }
    read_psv(alloc, body)
}

/// These parts, one after the other.
fn joined(alloc: Global, parts: &[&[u8]]) -> Option<Vec<u8>> {
    let mut body = Vec::new(alloc);
    for part in parts {
        if body.extend_from_slice(part).is_err() {
            return None;
        }
    }
    Some(body)
}

/// The only line of a batch; none where it has a fault, or not one line.
pub(super) fn only_line(said: &Result<Lines, PsvFault>) -> Option<Line> {
    match said {
        Ok(lines) if lines.len() == 1 => lines.get(0).copied(),
        _ => None,
    }
}

/// The only line of a batch of these parts; none where it has a fault, or not one line.
pub(super) fn only_line_of(alloc: Global, parts: &[&[u8]]) -> Option<Line> {
    match joined(alloc, parts) {
        Some(body) => only_line(&said(alloc, &body)),
        None => None,
    }
}

/// The number of a line, and the rule that it breaks.
pub(super) fn rule_of(line: &Line) -> (u32, Option<RuleCode>) {
    (line.number, line.read.err())
}
