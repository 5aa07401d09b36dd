//! An office of ordinary size: two batches of 5,000 lines, and 500 objects of a tracklet of each. The rows are worked
//! out here, from the numbers of the lines.

use crate::calls::mirrored_by;
use crate::held::Holds;
use mirror_store::Mirror;
use std::alloc::Global;
use testkit_sessions::{FOUNDER, NoMemory, OBSERVER, Part, Script, Wrong, put_parts, text_of};

/// How many lines a batch has, and of how many tracklets: the first line of each of them comes first, then the second
/// one of each, and so on.
const LINES: u64 = 5_000;

const TRACKS: u64 = 500;

/// The letters that orders have.
const LETTERS: [&str; 25] = [
    "A", "B", "C", "D", "E", "F", "G", "H", "J", "K", "L", "M", "N", "O", "P", "Q", "R", "S", "T",
    "U", "V", "W", "X", "Y", "Z",
];

/// The first moment of 2024-03-15, in nanoseconds since 1970, and what a ten-thousandth of a day has.
const MIDNIGHT: u64 = 1_710_460_800_000_000_000;

const STEP: u64 = 8_640_000_000;

/// The batch of this day of March: each line is a ten-thousandth of a day after the one before.
fn batch(alloc: Global, day: u64) -> Result<Vec<u8>, NoMemory> {
    let mut body = Vec::new(alloc);
    for line in 0..LINES {
        let parts = [
            Part::Text("     T"),
            Part::Digits(line % TRACKS, 4),
            Part::Text("    C2024 03 "),
            Part::Number(day),
            Part::Text("."),
            Part::Digits(line, 4),
            Part::Text("  06 12 34.56 +23 45 01.2          19.5 V      703\n"),
        ];
        put_parts(alloc, &mut body, &parts)?;
    }
    Ok(body)
}

/// The answer to a batch before which there were so many observations and tracklets.
fn taken(alloc: Global, receipt: u64, before: (u64, u64)) -> Result<Vec<u8>, NoMemory> {
    let (observations, tracklets) = before;
    let head = [
        Part::Text("receipt "),
        Part::Number(receipt),
        Part::Text("\naccepted 5000 refused 0\n"),
    ];
    let mut text = text_of(alloc, &head)?;
    for line in 1..=LINES {
        let track = line.saturating_sub(1) % TRACKS;
        let parts = [
            Part::Text("line "),
            Part::Number(line),
            Part::Text(" obs "),
            Part::Number(line.saturating_add(observations)),
            Part::Text(" track "),
            Part::Number(track.saturating_add(1).saturating_add(tracklets)),
            Part::Text("\n"),
        ];
        put_parts(alloc, &mut text, &parts)?;
    }
    Ok(text)
}

/// The letter of the object at this place, counted from 0.
fn letter(place: u64) -> &'static str {
    LETTERS.get((place % 25) as usize).copied().unwrap_or("")
}

/// The name of that object: the designations of its half-month follow one another, 25 to a cycle, of which the first
/// has no number.
fn put_name(alloc: Global, text: &mut Vec<u8>, place: u64) -> Result<(), NoMemory> {
    put_parts(
        alloc,
        text,
        &[Part::Text("2024 E"), Part::Text(letter(place))],
    )?;
    let cycle = place / 25;
    if cycle > 0 {
        put_parts(alloc, text, &[Part::Number(cycle)])?;
    }
    Ok(())
}

/// The act that makes an object of a tracklet of each batch, and its answer: the packed name has its cycle in two
/// digits, up to 19.
fn designate(alloc: Global, script: &mut Script, place: u64) -> Result<(), NoMemory> {
    let body = [
        Part::Text("{\"tracklets\":["),
        Part::Number(place.saturating_add(1)),
        Part::Text(","),
        Part::Number(place.saturating_add(1).saturating_add(TRACKS)),
        Part::Text("]}"),
    ];
    let receipt = [
        Part::Text("receipt "),
        Part::Number(place.saturating_add(8)),
        Part::Text("\nobject "),
    ];
    let mut answer = text_of(alloc, &receipt)?;
    put_name(alloc, &mut answer, place)?;
    let packed = [
        Part::Text(" K24E"),
        Part::Digits(place / 25, 2),
        Part::Text(letter(place)),
        Part::Text("\n"),
    ];
    put_parts(alloc, &mut answer, &packed)?;
    let body = text_of(alloc, &body)?;
    script.add(
        FOUNDER,
        place.saturating_add(6),
        "designate",
        &body,
        "200 ",
        &answer,
    )
}

/// The observer's act of this number, which submits the batch of this day, and its answer: before it there were so many
/// observations and tracklets.
fn submit(
    alloc: Global,
    script: &mut Script,
    number: u64,
    day: u64,
    before: (u64, u64),
) -> Result<(), NoMemory> {
    let lines = batch(alloc, day)?;
    let answer = taken(alloc, number.saturating_add(5), before)?;
    script.add(OBSERVER, number, "submit80", &lines, "200 ", &answer)
}

/// The whole session.
fn session(alloc: Global) -> Result<Script, Wrong> {
    let mut script = Script::begun(alloc)?;
    submit(alloc, &mut script, 1, 15, (0, 0))?;
    submit(alloc, &mut script, 2, 16, (LINES, TRACKS))?;
    for place in 0..TRACKS {
        designate(alloc, &mut script, place)?;
    }
    Ok(script)
}

/// The rows of the objects: each has the ten observations of two tracklets.
fn objects(alloc: Global) -> Result<Vec<u8>, NoMemory> {
    let mut text = Vec::new(alloc);
    for place in 0..TRACKS {
        let number = [Part::Number(place.saturating_add(1)), Part::Text("|")];
        put_parts(alloc, &mut text, &number)?;
        put_name(alloc, &mut text, place)?;
        put_parts(alloc, &mut text, &[Part::Text("|0|20\n")])?;
    }
    Ok(text)
}

/// The row of an observation, of both days counted from 0. Its right ascension is 22,354.56 seconds of 37,500,000,000
/// units each, its declination 85,501.2 arcseconds of 2,500,000,000.
fn put_sight(alloc: Global, text: &mut Vec<u8>, number: u64) -> Result<(), NoMemory> {
    let (day, line) = (number / LINES, number % LINES);
    let id = [Part::Number(number.saturating_add(1)), Part::Text("|")];
    put_parts(alloc, text, &id)?;
    put_name(alloc, text, line % TRACKS)?;
    let steps = day.saturating_mul(10_000).saturating_add(line);
    let rest = [
        Part::Text("|"),
        Part::Number(steps.saturating_mul(STEP).saturating_add(MIDNIGHT)),
        Part::Text("|838296000000000|213753000000000|703\n"),
    ];
    put_parts(alloc, text, &rest)
}

fn sights(alloc: Global) -> Result<Vec<u8>, NoMemory> {
    let mut text = Vec::new(alloc);
    for number in 0..LINES.saturating_mul(2) {
        put_sight(alloc, &mut text, number)?;
    }
    Ok(text)
}

/// The command `mirror` over that office: 10,000 observations.
///
/// # Errors
///
/// What is wrong with it.
pub fn ordinary<M: Mirror>(alloc: Global, mirror: &mut M) -> Result<(), Wrong> {
    let script = session(alloc)?;
    let (objects, sights) = (objects(alloc)?, sights(alloc)?);
    let wanted = Holds {
        objects: str::from_utf8(&objects).unwrap_or(""),
        sights: str::from_utf8(&sights).unwrap_or(""),
    };
    let line = "mirror 507 objects 500 sights 10000\n";
    mirrored_by(alloc, mirror, &script, 507, line, &wanted, 0)
}
