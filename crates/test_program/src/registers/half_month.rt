//! A half-month that has all the comets that it may have: a hundred objects, of which 99 get a name and one is refused,
//! and after it the next half-month; all of it once more of the file that was left.

use super::office::{batch_text, comets_of, put_comet, put_given};
use std::alloc::Global;
use testkit_comets::comets_in_turn;
use testkit_sessions::Part::{Digits, Number, Text};
use testkit_sessions::{
    Drive, FOUNDER, NoMemory, OBSERVER, Script, Wrong, put, put_number, put_parts, text_of,
};

/// How many comets a half-month may have, how many objects 2024 E has, and how many tracklets there are, of which the
/// last one is of 2024 F.
const LIMIT: u64 = 99;

const OBJECTS: u64 = 100;

const TRACKS: u64 = 101;

/// A line of a tracklet at a millionth of a day.
fn put_line(alloc: Global, body: &mut Vec<u8>, track: u64, moment: u64) -> Result<(), NoMemory> {
    let day = if track > OBJECTS { "16." } else { "01." };
    put_parts(
        alloc,
        body,
        &[
            Text("     W"),
            Digits(track, 5),
            Text("a   2024 03 "),
            Text(day),
            Digits(moment, 6),
            Text("06 12 34.56 +23 45 01.2                      703\n"),
        ],
    )
}

/// The batch of all tracklets, each of two lines that are 12 hours apart, just enough for a designation.
fn add_batch(alloc: Global, script: &mut Script) -> Result<(), NoMemory> {
    let mut body = Vec::new(alloc);
    for track in 1..=TRACKS {
        put_line(alloc, &mut body, track, track)?;
        put_line(alloc, &mut body, track, track.saturating_add(500_000))?;
    }
    let text = batch_text(alloc, 6, 202, 1)?;
    script.add(OBSERVER, 1, "submit80", &body, "200 ", &text)
}

/// The letters of a half-month's orders, one after the other.
const LETTERS: &str = "ABCDEFGHJKLMNOPQRSTUVWXYZ";

fn letter_of(order: u64) -> &'static str {
    let place = (order.saturating_sub(1) % 25) as usize;
    LETTERS.get(place..place.saturating_add(1)).unwrap_or("")
}

/// The designation of this order of 2024 E, as it is printed: four cycles of the letters are enough.
fn put_printed(alloc: Global, text: &mut Vec<u8>, order: u64) -> Result<(), NoMemory> {
    put_parts(alloc, text, &[Text("2024 E"), Text(letter_of(order))])?;
    match order.saturating_sub(1) / 25 {
        0 => Ok(()),
        cycle => put_number(alloc, text, cycle),
    }
}

/// What is told of the object of the tracklet with this number: its designation, printed and packed.
fn put_designated(alloc: Global, text: &mut Vec<u8>, track: u64) -> Result<(), NoMemory> {
    let receipt = Number(track.saturating_add(6));
    put_parts(alloc, text, &[Text("receipt "), receipt, Text("\nobject ")])?;
    if track > OBJECTS {
        return put(text, "2024 FA K24F00A\n");
    }
    put_printed(alloc, text, track)?;
    let cycle = Digits(track.saturating_sub(1) / 25, 2);
    let packed = [Text(" K24E"), cycle, Text(letter_of(track)), Text("\n")];
    put_parts(alloc, text, &packed)
}

/// The designation of that object.
fn add_designation(alloc: Global, script: &mut Script, track: u64) -> Result<(), NoMemory> {
    let body = [Text("{\"tracklets\":["), Number(track), Text("]}")];
    let body = text_of(alloc, &body)?;
    let mut text = Vec::new(alloc);
    put_designated(alloc, &mut text, track)?;
    let number = track.saturating_add(5);
    script.add(FOUNDER, number, "designate", &body, "200 ", &text)
}

/// The office: six entries, and one for each object.
fn office(alloc: Global) -> Result<Script, Wrong> {
    let mut script = Script::begun(alloc)?;
    add_batch(alloc, &mut script)?;
    for track in 1..=TRACKS {
        add_designation(alloc, &mut script, track)?;
    }
    Ok(script)
}

/// Every second comet is a periodic one.
fn kind_of(number: u64) -> &'static str {
    if number % 2 == 0 { "P" } else { "C" }
}

/// The act by which the object of this order gets a name.
fn body_of(alloc: Global, order: u64) -> Result<Vec<u8>, NoMemory> {
    let mut body = Vec::new(alloc);
    put(&mut body, "{\"kind\":\"")?;
    put(&mut body, kind_of(order))?;
    put(&mut body, "\",\"object\":\"")?;
    put_printed(alloc, &mut body, order)?;
    put(&mut body, "\"}")?;
    Ok(body)
}

/// That act under the number of the order, and the name that it gives.
fn add_comet(alloc: Global, script: &mut Script, order: u64) -> Result<(), NoMemory> {
    let body = body_of(alloc, order)?;
    let mut text = Vec::new(alloc);
    put_given(alloc, &mut text, kind_of(order), order)?;
    script.add(FOUNDER, order, "comet", &body, "200 ", &text)
}

/// The act on the last object of the half-month, under this number: the half-month is full.
fn add_full(alloc: Global, script: &mut Script, number: u64) -> Result<(), NoMemory> {
    let body = body_of(alloc, OBJECTS)?;
    let text = b"refused 9 HalfMonthFull 2024 E 99\n";
    script.add(FOUNDER, number, "comet", &body, "409 ", text)
}

/// What is told of the comet of this order.
fn put_line_of(alloc: Global, text: &mut Vec<u8>, order: u64) -> Result<(), NoMemory> {
    put_comet(alloc, text, kind_of(order), order)?;
    put(text, " object ")?;
    put_printed(alloc, text, order)?;
    put(text, " principal ")?;
    put_printed(alloc, text, order)?;
    put(text, "\n")
}

/// The whole register: 99 comets of 2024 E, and the one of 2024 F.
fn add_register(alloc: Global, script: &mut Script) -> Result<(), NoMemory> {
    let mut text = Vec::new(alloc);
    for order in 1..=LIMIT {
        put_line_of(alloc, &mut text, order)?;
    }
    put(
        &mut text,
        "comet C/2024 F1 CK24F010 object 2024 FA principal 2024 FA\n",
    )?;
    script.add(FOUNDER, 0, "register", b"", "200 ", &text)
}

/// The number that was refused is used for the next half-month. In the full one an object that has a name is told that,
/// and one that isn't there that it isn't; what is sent again is answered again; and the last name is translated.
const BESIDE: &str = r#"
> +founder-1 100 comet {"kind":"C","object":"2024 FA"}
< 200 receipt 100
comet C/2024 F1 CK24F010
> +founder-1 101 comet {"kind":"P","object":"2024 EY3"}
< 409 refused 20 AlreadyComet C/2024 E99
> +founder-1 101 comet {"kind":"P","object":"2024 EA4"}
< 404 refused 5 UnknownThing designation 2024 EA4
> +founder-1 99 comet {"kind":"C","object":"2024 EY3"}
< 200 receipt 99
comet C/2024 E99 CK24E990
> +founder-1 0 translate
    CK24E990  C2024 03 15.12345 06 12 34.56 +23 45 01.2          19.5 V      703
< 200
     K24E03Y  C2024 03 15.12345 06 12 34.56 +23 45 01.2          19.5 V      703
"#;

fn first_day(alloc: Global) -> Result<Script, Wrong> {
    let mut script = Script::new(alloc);
    for order in 1..=LIMIT {
        add_comet(alloc, &mut script, order)?;
    }
    add_full(alloc, &mut script, 100)?;
    script.add_transcript(BESIDE)?;
    add_full(alloc, &mut script, 101)?;
    add_register(alloc, &mut script)?;
    Ok(script)
}

fn second_day(alloc: Global) -> Result<Script, Wrong> {
    let mut script = Script::new(alloc);
    add_register(alloc, &mut script)?;
    add_full(alloc, &mut script, 101)?;
    script.add_transcript(BESIDE)?;
    Ok(script)
}

fn filled(alloc: Global) -> Result<(), Wrong> {
    let office = office(alloc)?;
    let first = first_day(alloc)?;
    let second = second_day(alloc)?;
    let calls = [
        office.call(107),
        comets_of(1, &first, 100),
        comets_of(2, &second, 0),
    ];
    comets_in_turn(alloc, &Drive::EMPTY, &calls)
}

#[test]
fn a_half_month_is_full(rt: HostRuntime) {
    filled(rt.alloc()).expect(&rt, "as wanted");
}
