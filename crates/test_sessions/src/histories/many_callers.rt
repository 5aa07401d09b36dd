//! A thousand callers and one, each with a batch and a retraction of its own; and a hundred rows of stations, as many
//! letters as there are, keys of each length, and three rows of one station.

use std::alloc::Global;
use testkit_sessions::Part::{Digits, Number, Text};
use testkit_sessions::{FOUNDER, NoMemory, Script, Wrong, call_days, put_parts, text_of};

/// How many observers there are, one of whom has been enrolled before.
const CALLERS: u64 = 1_001;

/// The founder enrols the observer with this number.
fn add_enrolment(alloc: Global, script: &mut Script, caller: u64) -> Result<(), NoMemory> {
    let entry = caller.saturating_add(4);
    let mut body = text_of(alloc, &[Text("{\"key\":\"observer-"), Number(caller)])?;
    put_parts(
        alloc,
        &mut body,
        &[Text("\",\"name\":\"Ann\",\"role\":\"observer\"}")],
    )?;
    let text = caller_receipt(alloc, entry, caller)?;
    script.add(FOUNDER, entry, "enrol", &body, "200 ", &text)
}

/// The receipt of an enrolment.
fn caller_receipt(alloc: Global, entry: u64, caller: u64) -> Result<Vec<u8>, NoMemory> {
    let mut text = receipt(alloc, entry)?;
    put_parts(
        alloc,
        &mut text,
        &[Text("caller "), Number(caller), Text("\n")],
    )?;
    Ok(text)
}

/// The receipt of an act of which no more is told.
fn receipt(alloc: Global, entry: u64) -> Result<Vec<u8>, NoMemory> {
    text_of(alloc, &[Text("receipt "), Number(entry), Text("\n")])
}

fn key_of(alloc: Global, caller: u64) -> Result<String, NoMemory> {
    format!(in alloc; "observer-{caller}")
}

/// A line of an observer's tracklet; the digits of its time go on with these.
fn put_line(
    alloc: Global,
    body: &mut Vec<u8>,
    caller: u64,
    digits: &'static str,
) -> Result<(), NoMemory> {
    let named = [
        Text("     C"),
        Digits(caller, 4),
        Text("    C2024 03 15."),
        Digits(caller, 4),
    ];
    put_parts(alloc, body, &named)?;
    let place = Text("06 12 34.56 +23 45 01.2          19.5 V      703\n");
    put_parts(alloc, body, &[Text(digits), place])
}

/// The observer's first act is a tracklet of two lines, and its first query is for the receipt.
fn add_caller(alloc: Global, script: &mut Script, caller: u64) -> Result<(), NoMemory> {
    let key = key_of(alloc, caller)?;
    let mut body = Vec::new(alloc);
    put_line(alloc, &mut body, caller, "  ")?;
    put_line(alloc, &mut body, caller, "5 ")?;
    let second = caller.saturating_mul(2);
    let first = second.saturating_sub(1);
    let mut text = receipt(alloc, caller.saturating_add(1_005))?;
    put_parts(
        alloc,
        &mut text,
        &[Text("accepted 2 refused 0\nline 1 obs "), Number(first)],
    )?;
    put_parts(
        alloc,
        &mut text,
        &[
            Text(" track "),
            Number(caller),
            Text("\nline 2 obs "),
            Number(second),
        ],
    )?;
    put_parts(
        alloc,
        &mut text,
        &[Text(" track "), Number(caller), Text("\n")],
    )?;
    script.add(key.as_str(), 1, "submit80", &body, "200 ", &text)?;
    script.add(key.as_str(), 0, "receipt", b"1", "200 ", &text)
}

/// Its second act takes the tracklet's second line back.
fn add_retraction(alloc: Global, script: &mut Script, caller: u64) -> Result<(), NoMemory> {
    let key = key_of(alloc, caller)?;
    let body = text_of(
        alloc,
        &[
            Text("{\"observation\":"),
            Number(caller.saturating_mul(2)),
            Text("}"),
        ],
    )?;
    let text = receipt(alloc, caller.saturating_add(2_006))?;
    script.add(key.as_str(), 2, "retract", &body, "200 ", &text)
}

/// An observer may take back its own observations alone, whoever's number it is.
const LAST: &str = r#"
> observer-1001 3 retract {"observation":1999}
< 403 refused 4 Role
> observer-1001 0 receipt 3
< 404 refused 5 UnknownThing receipt 3
> observer-1002 0 tally
< 401 refused 2 UnknownKey
> observer-1000 0 tally
< 200 entries 3007
isolated 1001
objects 0
retracted 1001
accepted 2002
"#;

/// All of them; then the office is opened again, and each sends its act once more.
fn callers(alloc: Global) -> Result<(), Wrong> {
    let mut day = Script::begun(alloc)?;
    for caller in 2..=CALLERS {
        add_enrolment(alloc, &mut day, caller)?;
    }
    let mut later = Script::new(alloc);
    for caller in 1..=CALLERS {
        add_caller(alloc, &mut day, caller)?;
        add_caller(alloc, &mut later, caller)?;
    }
    for caller in 1..=CALLERS {
        add_retraction(alloc, &mut day, caller)?;
        add_retraction(alloc, &mut later, caller)?;
    }
    day.add_transcript(LAST)?;
    later.add_transcript(LAST)?;
    call_days(alloc, 4_194_304, &day, 3_007, None, &later, b"")
}

#[test]
fn a_thousand_callers(rt: HostRuntime) {
    callers(rt.alloc()).expect(&rt, "as wanted");
}

/// A station of its own each day, and a letter with a word of its own.
fn add_station(alloc: Global, script: &mut Script, row: u64) -> Result<(), NoMemory> {
    let number = row.saturating_add(1);
    let mut body = text_of(alloc, &[Text("{\"code\":\"S"), Digits(row, 2)])?;
    let days = Text("\",\"name\":\"x\",\"from\":\"1998-01-01\",\"to\":\"2199-12-31\"}");
    put_parts(alloc, &mut body, &[days])?;
    let text = receipt(alloc, number)?;
    script.add(FOUNDER, number, "station", &body, "200 ", &text)
}

const LETTERS: &str = "ABCDEFGHIJKLMNOPQRSTUVWXYZabcdefghijklmnopqrstuvwxyz0123456789";

fn add_letter(alloc: Global, script: &mut Script, row: usize) -> Result<(), NoMemory> {
    let letter = LETTERS.get(row..row.saturating_add(1)).unwrap_or("");
    let number = (row as u64).saturating_add(101);
    let mut body = text_of(
        alloc,
        &[Text("{\"kind\":\"band\",\"letter\":\""), Text(letter)],
    )?;
    put_parts(
        alloc,
        &mut body,
        &[
            Text("\",\"word\":\"word-"),
            Digits(row as u64, 2),
            Text("\"}"),
        ],
    )?;
    let text = receipt(alloc, number)?;
    script.add(FOUNDER, number, "code", &body, "200 ", &text)
}

/// Lines of the first and the last station and letter, and of none.
const OF_ROWS: &str = r#"
> +founder-1 163 submit80
     S1        2024 03 15.12345 06 12 34.56 +23 45 01.2          19.5 A      S00
     S1        2024 03 15.13345 06 12 34.56 +23 45 01.2          19.5 9      S00
     S1        2024 03 15.12345 06 12 34.56 +23 45 01.2          19.5 A      S99
     S1        2024 03 15.13345 06 12 34.56 +23 45 01.2          19.5 9      S99
     S1        2024 03 15.14345 06 12 34.56 +23 45 01.2          19.5 -      S99
     S1        2024 03 15.14345 06 12 34.56 +23 45 01.2          19.5 9      T00
< 200 receipt 163
accepted 4 refused 2
line 1 obs 1 track 1
line 2 obs 2 track 1
line 3 obs 3 track 2
line 4 obs 4 track 2
line 5 refused T4
line 6 refused T1
"#;

/// Two rows more of the first station, each of the days before; then lines of the days of each of its rows, and of a
/// day before them all.
const EARLIER: &str = r#"
> +founder-1 189 station {"code":"S00","name":"x","from":"1990-01-01","to":"1997-12-31"}
< 200 receipt 189
> +founder-1 190 station {"code":"S00","name":"x","from":"1980-01-01","to":"1989-12-31"}
< 200 receipt 190
> +founder-1 191 submit80
     S2        1998 01 01.00000 06 12 34.56 +23 45 01.2          19.5 A      S00
     S2        1998 01 01.10000 06 12 34.56 +23 45 01.2          19.5 A      S00
     S3        1997 12 31.80000 06 12 34.56 +23 45 01.2          19.5 A      S00
     S3        1997 12 31.90000 06 12 34.56 +23 45 01.2          19.5 A      S00
     S4        1989 12 31.80000 06 12 34.56 +23 45 01.2          19.5 A      S00
     S4        1989 12 31.90000 06 12 34.56 +23 45 01.2          19.5 A      S00
     S5        1979 12 31.90000 06 12 34.56 +23 45 01.2          19.5 A      S00
< 200 receipt 191
accepted 6 refused 1
line 1 obs 5 track 3
line 2 obs 6 track 3
line 3 obs 7 track 4
line 4 obs 8 track 4
line 5 obs 9 track 5
line 6 obs 10 track 5
line 7 refused T2
"#;

/// Keys have 8 to 32 characters.
const KEY: &str = "abcdefghijklmnopqrstuvwxyz-01234";

/// A caller whose key has so many is enrolled, and asks.
fn add_key(alloc: Global, script: &mut Script, length: usize) -> Result<(), NoMemory> {
    let key = KEY.get(0..length).unwrap_or("");
    let number = (length as u64).saturating_add(156);
    let caller = (length as u64).saturating_sub(7);
    let named = [
        Text("{\"key\":\""),
        Text(key),
        Text("\",\"name\":\"x\",\"role\":\"observer\"}"),
    ];
    let body = text_of(alloc, &named)?;
    let text = caller_receipt(alloc, number, caller)?;
    script.add(FOUNDER, number, "enrol", &body, "200 ", &text)?;
    let text = b"halfmonth 2024 E given 0 next 2024 EA\n";
    script.add(key, 0, "halfmonth", b"2024 E", "200 ", text)
}

/// The lines of those rows; then a caller with a key of each length, and the rows of earlier days.
fn add_more(alloc: Global, script: &mut Script) -> Result<(), Wrong> {
    script.add_transcript(OF_ROWS)?;
    for length in 8..=32usize {
        add_key(alloc, script, length)?;
    }
    script.add_transcript(EARLIER)
}

fn rows(alloc: Global) -> Result<(), Wrong> {
    let mut day = Script::new(alloc);
    for row in 0..100u64 {
        add_station(alloc, &mut day, row)?;
    }
    for row in 0..LETTERS.len() {
        add_letter(alloc, &mut day, row)?;
    }
    add_more(alloc, &mut day)?;
    let mut later = Script::new(alloc);
    add_more(alloc, &mut later)?;
    call_days(alloc, 1_048_576, &day, 191, Some(0), &later, b"")
}

#[test]
fn a_hundred_stations(rt: HostRuntime) {
    rows(rt.alloc()).expect(&rt, "as wanted");
}
