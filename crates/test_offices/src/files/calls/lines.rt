//! Lines whose places are asked for at once.

use super::plain::Plain;
use item_list::NoMemory;
use obs_record::{Line, RuleCode};
use std::alloc::Global;
use testkit_lines::seen;
use tracklet_file::TrackletFile;

// A line for each of so many nanoseconds from 0 on, each third of which says no observation.
fn lines(alloc: Global, count: u32) -> Result<Vec<Line>, NoMemory> {
    let mut lines = Vec::new(alloc);
    for number in 0..count {
        let read = match seen(number as i64) {
            Some(s) if number % 3 > 0 => Ok(s),
            _ => Err(RuleCode::S5),
        };
        lines.push(Line { number, read })?;
    }
    Ok(lines)
}

fn is_live(plain: &Plain, line: &Line) -> bool {
    match &line.read {
        Ok(s) => plain.has_live(s),
        Err(_) => false,
    }
}

/// How many of so many lines have the place of a live observation, asked for at once; None where the
/// two forms don't agree on each, or memory is refused.
pub(crate) fn live_lines(
    alloc: Global,
    file: &TrackletFile,
    plain: &Plain,
    count: u32,
) -> Option<usize> {
    let lines = lines(alloc, count).ok()?;
    let mut live = Vec::with_capacity(alloc, lines.len()).ok()?;
    file.have_live(lines.as_slice(), &mut live);
    let alike = live.len() == lines.len()
        && live
            .iter()
            .zip(lines.iter())
            .all(|(is, line)| *is == is_live(plain, line));
    if alike {
        Some(live.iter().filter(|is| **is).count())
    } else {
        None
    }
}
