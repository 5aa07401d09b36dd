//! Sessions of transcripts, and the catalogue after them.

use crate::calls::{Call, Drives, call_alone, call_in_turn};
use crate::scripts::Script;
use crate::wrong::Wrong;
use std::alloc::Global;

pub const FOUNDER: &str = "+founder-1";

pub const OBSERVER: &str = "observer-1";

/// Runs a session of the founder's five requests and of these transcripts on two empty disks, after which the office
/// has `added` entries.
///
/// # Errors
///
/// What is wrong with it.
pub fn session(alloc: Global, transcripts: &[&str], added: u64) -> Result<(), Wrong> {
    let mut script = Script::begun(alloc)?;
    script.add_transcripts(transcripts)?;
    call_alone(alloc, &script.call(added))
}

/// 2025-02-01T00:00:00Z.
const LATE: i64 = 1_738_368_000_000_000_000;

/// Runs a session in 2025, asks for the catalogue at its end, and writes it out then: both texts are this one.
///
/// # Errors
///
/// What is wrong with it.
pub fn catalogue_after(
    alloc: Global,
    script: &mut Script,
    added: u64,
    text: &str,
    mark: usize,
) -> Result<(), Wrong> {
    script.add(FOUNDER, 0, "catalogue", b"", "200 ", text.as_bytes())?;
    let run = Call {
        mark,
        start: LATE,
        ..script.call(added)
    };
    let export = Call {
        mark,
        words: &["export"],
        start: LATE,
        ..Call::run(b"", 0, text.as_bytes())
    };
    call_in_turn(alloc, &Drives::EMPTY, &[run, export])
}

/// The same with a session of the founder's five requests and of these transcripts.
///
/// # Errors
///
/// What is wrong with it.
pub fn catalogue_of(
    alloc: Global,
    transcripts: &[&str],
    added: u64,
    text: &str,
    mark: usize,
) -> Result<(), Wrong> {
    let mut script = Script::begun(alloc)?;
    script.add_transcripts(transcripts)?;
    catalogue_after(alloc, &mut script, added, text, mark)
}
