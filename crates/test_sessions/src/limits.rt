//! Batches at their limits, 10,000 lines of 500 tracklets in 80 columns and 1 MiB of ADES; a designation of 100
//! tracklets, and what is told of its object of 2,000 observations; all of it once more of the journal that was left.

use std::alloc::Global;
use testkit_sessions::{
    FOUNDER, NoMemory, OBSERVER, Script, Wrong, call_days, put, put_lines, put_number,
};

/// How many lines the batch in 80 columns has, and of how many tracklets: the first line of each of them comes first,
/// then the second one of each, and so on.
const LINES: u64 = 10_000;

const TRACKS: u64 = 500;

/// The same of the batch of ADES, its lines before the first observation, and how many bytes it has, up to that line's
/// begin and each line thereafter.
const ROWS: u64 = 2_000;

const ROW_TRACKS: u64 = 200;

const HEADER_LINES: u64 = 5;

const HEADER_BYTES: usize = 576;

const ROW_BYTES: usize = 524;

/// How many tracklets are designated.
const DESIGNATED: u64 = 100;

/// Each line is a ten-thousandth of a day after the one before, so that each tracklet is seen for 22.8 hours.
fn columns(alloc: Global) -> Result<Vec<u8>, NoMemory> {
    let mut body = Vec::new(alloc);
    for line in 0..LINES {
        let track = line % TRACKS;
        let text = format!(in alloc;
            "     T{track:04}    C2024 03 15.{line:04}  06 12 34.56 +23 45 01.2          19.5 V      703\n"
        )?;
        put(&mut body, text.as_str())?;
    }
    Ok(body)
}

const COLUMN_NAMES: &str = "trkSub|mode|stn|obsTime|ra|dec|astCat|remarks\n";

/// The header of a batch of ADES, whose last element is as long as it must be.
fn header(alloc: Global) -> Result<Vec<u8>, NoMemory> {
    let mut body = Vec::new(alloc);
    put(
        &mut body,
        "# version=2017\n# observatory\n! mpcCode 703\n! name ",
    )?;
    let end = HEADER_BYTES
        .saturating_sub(COLUMN_NAMES.len())
        .saturating_sub(1);
    body.resize(end, b'n')?;
    put(&mut body, "\n")?;
    put(&mut body, COLUMN_NAMES)?;
    Ok(body)
}

/// Each observation is a second after the one before. Long remarks make 1,048,576 bytes of all.
fn fields(alloc: Global) -> Result<Vec<u8>, NoMemory> {
    let mut body = header(alloc)?;
    for row in 0..ROWS {
        let (track, minute, second) = (row % ROW_TRACKS, row / 60, row % 60);
        let text = format!(in alloc;
            "P{track:04}|CCD|703|2024-03-16T00:{minute:02}:{second:02}Z|150.0|-5.5|Gaia3|"
        )?;
        let end = body.len().saturating_add(ROW_BYTES).saturating_sub(1);
        put(&mut body, text.as_str())?;
        body.resize(end, b'r')?;
        put(&mut body, "\n")?;
    }
    Ok(body)
}

/// The lines of observations that were taken: so many, from this line, observation and tracklet on.
fn put_accepted(
    alloc: Global,
    text: &mut Vec<u8>,
    lines: u64,
    tracks: u64,
    header: u64,
    before: (u64, u64),
) -> Result<(), NoMemory> {
    let (observations, tracklets) = before;
    for line in 1..=lines {
        let number = line.saturating_add(header);
        let observation = line.saturating_add(observations);
        let track = (line.saturating_sub(1) % tracks.max(1))
            .saturating_add(1)
            .saturating_add(tracklets);
        let next = format!(in alloc; "line {number} obs {observation} track {track}\n")?;
        put(text, next.as_str())?;
    }
    Ok(())
}

/// The answers to both batches.
fn columns_text(alloc: Global) -> Result<Vec<u8>, NoMemory> {
    let mut text = Vec::new(alloc);
    put(&mut text, "receipt 6\naccepted 10000 refused 0\n")?;
    put_accepted(alloc, &mut text, LINES, TRACKS, 0, (0, 0))?;
    Ok(text)
}

fn fields_text(alloc: Global) -> Result<Vec<u8>, NoMemory> {
    let mut text = Vec::new(alloc);
    put(&mut text, "receipt 7\naccepted 2000 refused 0\n")?;
    put_accepted(
        alloc,
        &mut text,
        ROWS,
        ROW_TRACKS,
        HEADER_LINES,
        (LINES, TRACKS),
    )?;
    Ok(text)
}

/// The designation of the first 100 tracklets.
fn tracklets(alloc: Global) -> Result<Vec<u8>, NoMemory> {
    let mut body = Vec::new(alloc);
    put(&mut body, "{\"tracklets\":[1")?;
    for track in 2..=DESIGNATED {
        put(&mut body, ",")?;
        put_number(alloc, &mut body, track)?;
    }
    put(&mut body, "]}")?;
    Ok(body)
}

/// The object of 2,000 observations, by their times: the first of each tracklet, the second one of each, and so on.
fn object(alloc: Global) -> Result<Vec<u8>, NoMemory> {
    let mut text = Vec::new(alloc);
    put(&mut text, "principal 2024 EA\nnumber none\nname 2024 EA\n")?;
    for line in 0..LINES {
        let track = (line % TRACKS).saturating_add(1);
        if track <= DESIGNATED {
            let observation = line.saturating_add(1);
            let next = format!(in alloc; "obs {observation} track {track}\n")?;
            put(&mut text, next.as_str())?;
        }
    }
    Ok(text)
}

/// The tracklets that stay isolated: those of the first batch have 20 observations, those of the second one 10.
fn isolated(alloc: Global) -> Result<Vec<u8>, NoMemory> {
    let mut text = Vec::new(alloc);
    for track in DESIGNATED.saturating_add(1)..=TRACKS.saturating_add(ROW_TRACKS) {
        let live = if track <= TRACKS { 20 } else { 10 };
        let next = format!(in alloc; "track {track} live {live}\n")?;
        put(&mut text, next.as_str())?;
    }
    Ok(text)
}

/// The 125th tracklet of the second batch, of which an observation comes every 200 seconds.
fn tracklet(alloc: Global) -> Result<Vec<u8>, NoMemory> {
    let mut text = Vec::new(alloc);
    put(
        &mut text,
        "track 625 station 703 name P0124\nhome isolated\n",
    )?;
    for turn in 0..10u64 {
        let time = turn.saturating_mul(ROW_TRACKS).saturating_add(124);
        let observation = LINES.saturating_add(time).saturating_add(1);
        let (minute, second) = (time / 60, time % 60);
        let next = format!(in alloc;
            "obs {observation} live 2024-03-16T00:{minute:02}:{second:02}.000000000Z"
        )?;
        put(&mut text, next.as_str())?;
        put(&mut text, " 150.000000000000 -05.500000000000\n")?;
    }
    Ok(text)
}

const TALLY: &str = "entries 8\nisolated 10000\nobjects 2000\nretracted 0\naccepted 12000\n";

/// The three acts.
fn add_acts(alloc: Global, script: &mut Script) -> Result<(), NoMemory> {
    let (body, text) = (columns(alloc)?, columns_text(alloc)?);
    script.add(OBSERVER, 1, "submit80", &body, "200 ", &text)?;
    let (body, text) = (fields(alloc)?, fields_text(alloc)?);
    script.add(OBSERVER, 2, "submitpsv", &body, "200 ", &text)?;
    let (body, text) = (tracklets(alloc)?, b"receipt 8\nobject 2024 EA K24E00A\n");
    script.add(FOUNDER, 6, "designate", &body, "200 ", text)
}

/// The receipts of both batches, and the first of them under another number: each line's place is taken.
fn add_receipts(alloc: Global, script: &mut Script) -> Result<(), NoMemory> {
    let text = columns_text(alloc)?;
    script.add(OBSERVER, 0, "receipt", b"1", "200 ", &text)?;
    let text = fields_text(alloc)?;
    script.add(OBSERVER, 0, "receipt", b"2", "200 ", &text)?;
    let mut text = Vec::new(alloc);
    put(&mut text, "refused 7 NoLine\n")?;
    put_lines(alloc, &mut text, LINES, 1, "line ", " refused B4\n")?;
    let body = columns(alloc)?;
    script.add(OBSERVER, 3, "submit80", &body, "422 ", &text)
}

/// What is told after them.
fn add_queries(alloc: Global, script: &mut Script) -> Result<(), NoMemory> {
    add_receipts(alloc, script)?;
    script.add(OBSERVER, 0, "tally", b"", "200 ", TALLY.as_bytes())?;
    let text = object(alloc)?;
    script.add(OBSERVER, 0, "object", b"2024 EA", "200 ", &text)?;
    let text = isolated(alloc)?;
    script.add(OBSERVER, 0, "isolated", b"", "200 ", &text)?;
    let text = tracklet(alloc)?;
    script.add(OBSERVER, 0, "tracklet", b"625", "200 ", &text)
}

/// One line of the catalogue's object, with its packed name and the star of its discovery observation; and one of a
/// tracklet of the first batch.
fn put_column_line(
    alloc: Global,
    text: &mut Vec<u8>,
    name: &str,
    line: u64,
) -> Result<(), NoMemory> {
    let next = format!(in alloc;
        "     {name} C2024 03 15.{line:04}  06 12 34.56 +23 45 01.2          19.5 V      703\n"
    )?;
    put(text, next.as_str())
}

fn put_object(alloc: Global, text: &mut Vec<u8>) -> Result<(), NoMemory> {
    put(text, "object 2024 EA number none observations 2000\n")?;
    for line in 0..LINES {
        if line % TRACKS < DESIGNATED {
            let name = if line == 0 { "K24E00A*" } else { "K24E00A " };
            put_column_line(alloc, text, name, line)?;
        }
    }
    Ok(())
}

fn put_column_track(alloc: Global, text: &mut Vec<u8>, track: u64) -> Result<(), NoMemory> {
    let number = track.saturating_add(1);
    let head = format!(in alloc; "track {number} T{track:04}\n")?;
    put(text, head.as_str())?;
    let name = format!(in alloc; "T{track:04}   ")?;
    for turn in 0..20u64 {
        let line = turn.saturating_mul(TRACKS).saturating_add(track);
        put_column_line(alloc, text, name.as_str(), line)?;
    }
    Ok(())
}

/// A tracklet of the batch of ADES. Its seconds are written as millionths of a day, rounded half away from zero.
fn put_field_track(alloc: Global, text: &mut Vec<u8>, track: u64) -> Result<(), NoMemory> {
    let number = track.saturating_add(TRACKS).saturating_add(1);
    let head = format!(in alloc; "track {number} P{track:04}\n")?;
    put(text, head.as_str())?;
    for turn in 0..10u64 {
        let second = turn.saturating_mul(ROW_TRACKS).saturating_add(track);
        let part = second.saturating_mul(1_000_000).saturating_add(43_200) / 86_400;
        let next = format!(in alloc;
            "     P{track:04}    C2024 03 16.{part:06}10 00 00.000-05 30 00.00               W     703\n"
        )?;
        put(text, next.as_str())?;
    }
    Ok(())
}

fn catalogue(alloc: Global) -> Result<Vec<u8>, NoMemory> {
    let mut text = Vec::new(alloc);
    put(&mut text, "catalogue 1\n")?;
    put(&mut text, TALLY)?;
    put_object(alloc, &mut text)?;
    for track in DESIGNATED..TRACKS {
        put_column_track(alloc, &mut text, track)?;
    }
    for track in 0..ROW_TRACKS {
        put_field_track(alloc, &mut text, track)?;
    }
    put(&mut text, "end\n")?;
    Ok(text)
}

/// The day; then a crash takes what isn't safe, and the office is opened again, asked the same, and sent the three acts
/// once more; then the catalogue is written out.
fn a_full_day(alloc: Global) -> Result<(), Wrong> {
    let mut day = Script::begun(alloc)?;
    add_acts(alloc, &mut day)?;
    add_queries(alloc, &mut day)?;
    let mut later = Script::new(alloc);
    add_queries(alloc, &mut later)?;
    add_acts(alloc, &mut later)?;
    let written = catalogue(alloc)?;
    later.add(OBSERVER, 0, "catalogue", b"", "200 ", &written)?;
    call_days(alloc, 8_388_608, &day, 8, Some(0), &later, &written)
}

#[test]
fn batches_at_their_limits(rt: HostRuntime) {
    a_full_day(rt.alloc()).expect(&rt, "as wanted");
}
