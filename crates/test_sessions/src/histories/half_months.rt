//! A half-month of 1998 whose 15,500 designations are all given, a thousand good verdicts and one, the thousand numbers
//! of one act, an object of a hundred members and one of as many tracklets; all of it once more of the journal that was
//! left.

use std::alloc::Global;
use testkit_sessions::Part::{Digits, Number, Text};
use testkit_sessions::{
    FOUNDER, NoMemory, OBSERVER, Part, Script, Wrong, call_days, put, put_parts, text_of,
};

/// How many designations the half-month has, and how many tracklets there are.
const LIMIT: u64 = 15_500;

const TRACKS: u64 = 15_501;

/// How many tracklets a batch has, of two lines each.
const BATCH_TRACKS: u64 = 5_000;

const BATCHES: u64 = 4;

/// How many objects get a verdict.
const VERDICTS: u64 = 1_001;

/// A line of a tracklet at a millionth of a day.
fn put_line(alloc: Global, body: &mut Vec<u8>, track: u64, moment: u64) -> Result<(), NoMemory> {
    let place = Text("06 12 34.56 +23 45 01.2                      703\n");
    put_parts(
        alloc,
        body,
        &[
            Text("     W"),
            Digits(track, 5),
            Text("a   1998 09 16."),
            Digits(moment, 6),
            place,
        ],
    )
}

/// Two lines of a tracklet, which are 12 hours apart, just enough for a designation.
fn put_track(alloc: Global, body: &mut Vec<u8>, track: u64) -> Result<(), NoMemory> {
    put_line(alloc, body, track, track)?;
    put_line(alloc, body, track, track.saturating_add(500_000))
}

/// What is told of it as the lines of a batch with these numbers, counted from 0.
fn put_taken(alloc: Global, text: &mut Vec<u8>, track: u64, place: u64) -> Result<(), NoMemory> {
    let line = place.saturating_mul(2).saturating_add(1);
    let observation = track.saturating_mul(2).saturating_sub(1);
    put_parts(alloc, text, &[Text("line "), Number(line), Text(" ")])?;
    put_observation(alloc, text, observation, track)?;
    put_parts(
        alloc,
        text,
        &[Text("line "), Number(line.saturating_add(1)), Text(" ")],
    )?;
    put_observation(alloc, text, observation.saturating_add(1), track)
}

fn put_observation(
    alloc: Global,
    text: &mut Vec<u8>,
    observation: u64,
    track: u64,
) -> Result<(), NoMemory> {
    put_parts(
        alloc,
        text,
        &[
            Text("obs "),
            Number(observation),
            Text(" track "),
            Number(track),
            Text("\n"),
        ],
    )
}

/// The receipt of an act.
fn receipt_of(alloc: Global, receipt: u64) -> Result<Vec<u8>, NoMemory> {
    text_of(alloc, &[Text("receipt "), Number(receipt), Text("\n")])
}

/// The batch with this number, counted from 0: the 5,000 tracklets after those of the batches before, or what is left.
fn add_batch(alloc: Global, script: &mut Script, batch: u64) -> Result<(), NoMemory> {
    let before = batch.saturating_mul(BATCH_TRACKS);
    let count = TRACKS.saturating_sub(before).min(BATCH_TRACKS);
    let (lines, receipt) = (count.saturating_mul(2), batch.saturating_add(6));
    let mut body = Vec::new(alloc);
    let mut text = receipt_of(alloc, receipt)?;
    put_parts(
        alloc,
        &mut text,
        &[Text("accepted "), Number(lines), Text(" refused 0\n")],
    )?;
    for place in 0..count {
        let track = before.saturating_add(place).saturating_add(1);
        put_track(alloc, &mut body, track)?;
        put_taken(alloc, &mut text, track, place)?;
    }
    let number = batch.saturating_add(1);
    script.add(OBSERVER, number, "submit80", &body, "200 ", &text)
}

/// The letters of a half-month's orders, one after the other.
pub(super) const ORDER_LETTERS: &str = "ABCDEFGHJKLMNOPQRSTUVWXYZ";

const DIGITS: &str = "0123456789ABCDEFGHIJKLMNOPQRSTUVWXYZabcdefghijklmnopqrstuvwxyz";

/// The character of a text at a place; none past its end.
pub(super) fn at(text: &'static str, place: u64) -> &'static str {
    text.get(place as usize..(place as usize).saturating_add(1))
        .unwrap_or("")
}

/// The parts of the designation of this order, as it is printed.
fn printed(order: u64) -> [Part<'static>; 3] {
    let before = order.saturating_sub(1);
    let letter = at(ORDER_LETTERS, before % 25);
    let cycle = match before / 25 {
        0 => Text(""),
        cycle => Number(cycle),
    };
    [Text("1998 S"), Text(letter), cycle]
}

/// The same, packed.
fn packed(order: u64) -> [Part<'static>; 4] {
    let before = order.saturating_sub(1);
    let (letter, cycle) = (at(ORDER_LETTERS, before % 25), before / 25);
    let tens = at(DIGITS, cycle / 10);
    [Text("J98S"), Text(tens), Number(cycle % 10), Text(letter)]
}

/// What stands before a designation, it, and what stands behind it.
fn around(alloc: Global, before: &str, order: u64, behind: &str) -> Result<Vec<u8>, NoMemory> {
    let mut text = text_of(alloc, &[Text(before)])?;
    put_parts(alloc, &mut text, &printed(order))?;
    put(&mut text, behind)?;
    Ok(text)
}

/// The designation of the tracklet with this number.
fn add_designation(alloc: Global, script: &mut Script, track: u64) -> Result<(), NoMemory> {
    let body = text_of(
        alloc,
        &[Text("{\"tracklets\":["), Number(track), Text("]}")],
    )?;
    let mut text = receipt_of(alloc, track.saturating_add(9))?;
    put(&mut text, "object ")?;
    put_parts(alloc, &mut text, &printed(track))?;
    put(&mut text, " ")?;
    put_parts(alloc, &mut text, &packed(track))?;
    put(&mut text, "\n")?;
    let number = track.saturating_add(5);
    script.add(FOUNDER, number, "designate", &body, "200 ", &text)
}

/// The tracklet that is one too many.
fn add_one_more(script: &mut Script) -> Result<(), NoMemory> {
    script.add(
        FOUNDER,
        15_506,
        "designate",
        b"{\"tracklets\":[15501]}",
        "409 ",
        b"refused 9 HalfMonthFull 1998 S 15500\n",
    )?;
    script.add(
        OBSERVER,
        0,
        "halfmonth",
        b"1998 S",
        "200 ",
        b"halfmonth 1998 S given 15500 next none\n",
    )
}

/// A good verdict on the object of this order.
fn add_verdict(alloc: Global, script: &mut Script, order: u64) -> Result<(), NoMemory> {
    let body = around(
        alloc,
        "{\"object\":\"",
        order,
        "\",\"u\":2,\"oppositions\":4}",
    )?;
    let text = receipt_of(alloc, order.saturating_add(15_509))?;
    let number = order.saturating_add(15_506);
    script.add(FOUNDER, number, "verdict", &body, "200 ", &text)
}

/// The numbers of a thousand objects, and then of the one that is left.
fn add_numbers(alloc: Global, script: &mut Script) -> Result<(), NoMemory> {
    let mut text = receipt_of(alloc, 16_511)?;
    for order in 1..=1_000u64 {
        put_parts(
            alloc,
            &mut text,
            &[Text("number "), Number(order), Text(" ")],
        )?;
        put_parts(alloc, &mut text, &printed(order))?;
        put(&mut text, "\n")?;
    }
    let body = b"{\"first\":1,\"most\":1000}";
    script.add(FOUNDER, 16_508, "number", body, "200 ", &text)?;
    script.add(
        FOUNDER,
        16_509,
        "number",
        b"{\"first\":1001,\"most\":1000}",
        "200 ",
        b"receipt 16512\nnumber 1001 1998 SA40\n",
    )
}

/// The designations that become members of 1998 SA, of which the first is separated again; and the tracklets that come
/// out of their objects into 1998 SB.
const FIRST_MEMBER: u64 = 2_001;

const LAST_MEMBER: u64 = 2_100;

const FIRST_MOVED: u64 = 3_001;

const LAST_MOVED: u64 = 3_100;

/// The founder's act with this number; its receipt is three more.
fn add_act(
    alloc: Global,
    script: &mut Script,
    number: u64,
    verb: &str,
    body: &[u8],
) -> Result<(), NoMemory> {
    let text = receipt_of(alloc, number.saturating_add(3))?;
    script.add(FOUNDER, number, verb, body, "200 ", &text)
}

fn add_members(alloc: Global, script: &mut Script) -> Result<(), NoMemory> {
    for order in FIRST_MEMBER..=LAST_MEMBER {
        let body = around(
            alloc,
            "{\"principal\":\"1998 SA\",\"secondary\":\"",
            order,
            "\"}",
        )?;
        let number = order.saturating_add(14_509);
        add_act(alloc, script, number, "identify", &body)?;
    }
    let body = around(alloc, "{\"secondary\":\"", FIRST_MEMBER, "\"}")?;
    add_act(alloc, script, 16_610, "separate", &body)
}

fn add_moves(alloc: Global, script: &mut Script) -> Result<(), NoMemory> {
    for track in FIRST_MOVED..=LAST_MOVED {
        let body = text_of(alloc, &[Text("{\"tracklet\":"), Number(track), Text("}")])?;
        let number = track.saturating_add(13_610);
        add_act(alloc, script, number, "release", &body)?;
    }
    for track in FIRST_MOVED..=LAST_MOVED {
        let body = text_of(
            alloc,
            &[
                Text("{\"tracklet\":"),
                Number(track),
                Text(",\"to\":\"1998 SB\"}"),
            ],
        )?;
        let number = track.saturating_add(13_710);
        add_act(alloc, script, number, "attribute", &body)?;
    }
    Ok(())
}

fn put_names(alloc: Global, text: &mut Vec<u8>, from: u64, to: u64) -> Result<(), NoMemory> {
    for order in from..=to {
        put(text, "name ")?;
        put_parts(alloc, text, &printed(order))?;
        put(text, "\n")?;
    }
    Ok(())
}

/// The observations of a tracklet and of others, by time: the first one of each, and then the second one of each.
fn put_observations(
    alloc: Global,
    text: &mut Vec<u8>,
    own: u64,
    from: u64,
    to: u64,
) -> Result<(), NoMemory> {
    for before in [1u64, 0] {
        for track in from.saturating_sub(1)..=to {
            let track = if track < from { own } else { track };
            let observation = track.saturating_mul(2).saturating_sub(before);
            put_observation(alloc, text, observation, track)?;
        }
    }
    Ok(())
}

/// What is told of both objects.
fn add_objects(alloc: Global, script: &mut Script) -> Result<(), NoMemory> {
    let mut text = Vec::new(alloc);
    put(&mut text, "principal 1998 SA\nnumber 1\nname 1998 SA\n")?;
    let second = FIRST_MEMBER.saturating_add(1);
    put_names(alloc, &mut text, second, LAST_MEMBER)?;
    put_observations(alloc, &mut text, 1, second, LAST_MEMBER)?;
    script.add(OBSERVER, 0, "object", b"1998 SA", "200 ", &text)?;
    let mut text = Vec::new(alloc);
    put(&mut text, "principal 1998 SB\nnumber 2\nname 1998 SB\n")?;
    put_observations(alloc, &mut text, 2, FIRST_MOVED, LAST_MOVED)?;
    script.add(OBSERVER, 0, "object", b"1998 SB", "200 ", &text)
}

/// What is told at the end.
const TOLD: &str = r#"
> +founder-1 0 tally
< 200 entries 16813
isolated 2
objects 31000
retracted 0
accepted 31002
> +founder-1 0 isolated
< 200 track 15501 live 2
> +founder-1 0 object 1998 SZ619
< 200 principal 1998 SZ619
number none
name 1998 SZ619
obs 30999 track 15500
obs 31000 track 15500
> +founder-1 0 name 01000
< 200 printed 1000
packed 01000
principal 1998 SZ39
> +founder-1 0 receipt 15505
< 200 receipt 15509
object 1998 SZ619 J98Sz9Z
"#;

fn add_queries(alloc: Global, script: &mut Script) -> Result<(), Wrong> {
    script.add_transcript(TOLD)?;
    add_objects(alloc, script)?;
    Ok(())
}

/// All requests of the day.
fn day(alloc: Global) -> Result<Script, Wrong> {
    let mut script = Script::begun(alloc)?;
    for batch in 0..BATCHES {
        add_batch(alloc, &mut script, batch)?;
    }
    for track in 1..=LIMIT {
        add_designation(alloc, &mut script, track)?;
    }
    add_one_more(&mut script)?;
    for order in 1..=VERDICTS {
        add_verdict(alloc, &mut script, order)?;
    }
    add_numbers(alloc, &mut script)?;
    add_members(alloc, &mut script)?;
    add_moves(alloc, &mut script)?;
    add_queries(alloc, &mut script)?;
    Ok(script)
}

/// The office is opened again, asked the same, and sent what it answered and refused once more.
fn later(alloc: Global) -> Result<Script, Wrong> {
    let mut script = Script::new(alloc);
    add_queries(alloc, &mut script)?;
    add_one_more(&mut script)?;
    add_numbers(alloc, &mut script)?;
    add_members(alloc, &mut script)?;
    add_moves(alloc, &mut script)?;
    add_designation(alloc, &mut script, LIMIT)?;
    Ok(script)
}

fn a_full_half_month(alloc: Global) -> Result<(), Wrong> {
    let (day, later) = (day(alloc)?, later(alloc)?);
    call_days(alloc, 16_777_216, &day, 16_813, None, &later, b"")
}

#[test]
fn half_month_that_is_full(rt: HostRuntime) {
    a_full_half_month(rt.alloc()).expect(&rt, "as wanted");
}
