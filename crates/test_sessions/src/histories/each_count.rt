//! Each count from 1 to 12: a batch and an object of so many tracklets, a tracklet of so many lines and one, so many
//! numbers in one act, so many designations that are carried, an object of so many members; all of it once more of the
//! journal that was left. Each count has the January of a year of its own, 2001 to 2012.

use super::half_months::{ORDER_LETTERS, at};
use std::alloc::Global;
use testkit_sessions::Part::{Digits, Number, Text};
use testkit_sessions::{
    FOUNDER, NoMemory, OBSERVER, Part, Script, Wrong, call_days, put, put_parts, text_of,
};

const MOST: u64 = 12;

/// A session, how many acts it has so far, and whether they were done before, so that the office is as it was left. An
/// act's number is its receipt; each is followed by the query for it.
#[derive(Drop)]
struct Acts {
    alloc: Global,
    script: Script,
    entries: u64,
    is_again: bool,
}

impl Acts {
    fn add(&mut self, who: &str, verb: &str, body: &[u8], more: &[u8]) -> Result<(), NoMemory> {
        self.entries = self.entries.saturating_add(1);
        let number = self.entries;
        let asked = text_of(self.alloc, &[Number(number)])?;
        let mut text = text_of(self.alloc, &[Text("receipt "), Number(number), Text("\n")])?;
        text.extend_from_slice(more)?;
        self.script.add(who, number, verb, body, "200 ", &text)?;
        self.script.add(who, 0, "receipt", &asked, "200 ", &text)
    }

    fn tell(&mut self, verb: &str, body: &[u8], text: &[u8]) -> Result<(), NoMemory> {
        self.script.add(OBSERVER, 0, verb, body, "200 ", text)
    }

    /// The same of what later acts change.
    fn tell_now(&mut self, verb: &str, body: &[u8], text: &[u8]) -> Result<(), NoMemory> {
        if self.is_again {
            return Ok(());
        }
        self.tell(verb, body, text)
    }
}

fn year(count: u64) -> u64 {
    count.saturating_add(2_000)
}

/// How many tracklets come before those of a count, which has twice as many and one; how many observations, of which it
/// has five times as many and one; and how many numbers.
fn tracks_before(count: u64) -> u64 {
    count.saturating_mul(count).saturating_sub(1)
}

fn numbers_before(count: u64) -> u64 {
    count.saturating_mul(count.saturating_sub(1)) / 2
}

fn observations_before(count: u64) -> u64 {
    numbers_before(count)
        .saturating_mul(5)
        .saturating_add(count.saturating_sub(1))
}

/// The last tracklet of a count, which stays isolated.
fn last_track(count: u64) -> u64 {
    count.saturating_mul(count.saturating_add(2))
}

/// The letter of an order.
fn letter(order: u64) -> &'static str {
    at(ORDER_LETTERS, order.saturating_sub(1))
}

/// The parts of a designation of the count's year, as it is printed.
fn name(count: u64, half: &'static str, order: u64) -> [Part<'static>; 4] {
    [
        Number(year(count)),
        Text(" "),
        Text(half),
        Text(letter(order)),
    ]
}

/// A body of an act on it: what stands before it and behind it.
fn act_on(
    alloc: Global,
    before: &str,
    name: [Part<'static>; 4],
    behind: &str,
) -> Result<Vec<u8>, NoMemory> {
    let mut body = text_of(alloc, &[Text(before)])?;
    put_parts(alloc, &mut body, &name)?;
    put(&mut body, behind)?;
    Ok(body)
}

/// What is answered where it becomes an object.
fn put_object(
    alloc: Global,
    text: &mut Vec<u8>,
    count: u64,
    half: &'static str,
    order: u64,
) -> Result<(), NoMemory> {
    put(text, "object ")?;
    put_parts(alloc, text, &name(count, half, order))?;
    let packed = [
        Text(" K"),
        Digits(count, 2),
        Text(half),
        Text("00"),
        Text(letter(order)),
        Text("\n"),
    ];
    put_parts(alloc, text, &packed)
}

/// What stands behind a moment, up to a line's end.
const PLACE: &str = "06 12 34.56 +23 45 01.2                      703\n";

/// A line of a tracklet at a millionth of a day.
fn put_track_line(
    alloc: Global,
    body: &mut Vec<u8>,
    count: u64,
    track: u64,
    moment: u64,
) -> Result<(), NoMemory> {
    put_parts(
        alloc,
        body,
        &[
            Text("     V"),
            Digits(count, 2),
            Digits(track, 2),
            Text("     "),
        ],
    )?;
    put_parts(
        alloc,
        body,
        &[
            Number(year(count)),
            Text(" 01 02."),
            Digits(moment, 6),
            Text(PLACE),
        ],
    )
}

/// Two lines of a tracklet, which are 12 hours apart.
fn put_track(alloc: Global, body: &mut Vec<u8>, count: u64, track: u64) -> Result<(), NoMemory> {
    put_track_line(alloc, body, count, track, track)?;
    put_track_line(alloc, body, count, track, track.saturating_add(500_000))
}

fn put_taken(
    alloc: Global,
    text: &mut Vec<u8>,
    line: u64,
    observation: u64,
    track: u64,
) -> Result<(), NoMemory> {
    put_parts(alloc, text, &[Text("line "), Number(line), Text(" ")])?;
    put_observation(alloc, text, observation, track)
}

fn put_observation(
    alloc: Global,
    text: &mut Vec<u8>,
    observation: u64,
    track: u64,
) -> Result<(), NoMemory> {
    put_parts(
        alloc,
        text,
        &[
            Text("obs "),
            Number(observation),
            Text(" track "),
            Number(track),
            Text("\n"),
        ],
    )
}

/// What is told of both lines of a tracklet, whose lines come in a row from this tracklet of the count on.
fn put_track_taken(
    alloc: Global,
    text: &mut Vec<u8>,
    count: u64,
    track: u64,
    from: u64,
) -> Result<(), NoMemory> {
    let last = track
        .saturating_sub(from)
        .saturating_add(1)
        .saturating_mul(2);
    let observation = observations_before(count).saturating_add(track.saturating_mul(2));
    let number = tracks_before(count).saturating_add(track);
    put_taken(
        alloc,
        text,
        last.saturating_sub(1),
        observation.saturating_sub(1),
        number,
    )?;
    put_taken(alloc, text, last, observation, number)
}

/// What is told first of a batch of which all lines are taken.
fn accepted(alloc: Global, lines: u64) -> Result<Vec<u8>, NoMemory> {
    text_of(
        alloc,
        &[Text("accepted "), Number(lines), Text(" refused 0\n")],
    )
}

/// A batch of so many tracklets.
fn add_first(acts: &mut Acts, count: u64) -> Result<(), NoMemory> {
    let alloc = acts.alloc;
    let mut body = Vec::new(alloc);
    let mut text = accepted(alloc, count.saturating_mul(2))?;
    for track in 1..=count {
        put_track(alloc, &mut body, count, track)?;
        put_track_taken(alloc, &mut text, count, track, 1)?;
    }
    acts.add(OBSERVER, "submit80", &body, &text)
}

/// The lines of one tracklet, each a millionth of a day after the one before.
fn put_last(
    alloc: Global,
    body: &mut Vec<u8>,
    text: &mut Vec<u8>,
    count: u64,
) -> Result<(), NoMemory> {
    let before = count.saturating_mul(2);
    let observations = observations_before(count).saturating_add(before);
    for line in 1..=count.saturating_add(1) {
        put_parts(
            alloc,
            body,
            &[Text("     S"), Digits(count, 2), Text("       ")],
        )?;
        put_parts(
            alloc,
            body,
            &[
                Number(year(count)),
                Text(" 01 03."),
                Digits(line, 6),
                Text(PLACE),
            ],
        )?;
        let place = before.saturating_add(line);
        put_taken(
            alloc,
            text,
            place,
            observations.saturating_add(place),
            last_track(count),
        )?;
    }
    Ok(())
}

/// A batch of so many tracklets and of one, which has so many lines and one.
fn add_second(acts: &mut Acts, count: u64) -> Result<(), NoMemory> {
    let alloc = acts.alloc;
    let mut body = Vec::new(alloc);
    let mut text = accepted(alloc, count.saturating_mul(3).saturating_add(1))?;
    let from = count.saturating_add(1);
    for track in from..=count.saturating_mul(2) {
        put_track(alloc, &mut body, count, track)?;
        put_track_taken(alloc, &mut text, count, track, from)?;
    }
    put_last(alloc, &mut body, &mut text, count)?;
    acts.add(OBSERVER, "submit80", &body, &text)
}

/// These numbers as a list, one after the other up to the last one.
fn put_list(alloc: Global, body: &mut Vec<u8>, first: u64, last: u64) -> Result<(), NoMemory> {
    put_parts(alloc, body, &[Number(first)])?;
    for number in first.saturating_add(1)..=last {
        put_parts(alloc, body, &[Text(","), Number(number)])?;
    }
    put(body, "]}")
}

/// A designation of the tracklets with these numbers, one after the other.
fn add_designation(
    acts: &mut Acts,
    count: u64,
    first: u64,
    last: u64,
    order: u64,
) -> Result<(), NoMemory> {
    let alloc = acts.alloc;
    let mut body = text_of(alloc, &[Text("{\"tracklets\":[")])?;
    put_list(alloc, &mut body, first, last)?;
    let mut text = Vec::new(alloc);
    put_object(alloc, &mut text, count, "A", order)?;
    acts.add(FOUNDER, "designate", &body, &text)
}

/// The first tracklets become one object, of the order 1; each other one an object of its own.
fn add_objects(acts: &mut Acts, count: u64) -> Result<(), NoMemory> {
    let before = tracks_before(count);
    let last = before.saturating_add(count);
    add_designation(acts, count, before.saturating_add(1), last, 1)?;
    for order in 1..=count {
        let track = last.saturating_add(order);
        add_designation(acts, count, track, track, order.saturating_add(1))?;
    }
    Ok(())
}

/// Those get good verdicts, and then their numbers in one act.
fn add_numbers(acts: &mut Acts, count: u64) -> Result<(), NoMemory> {
    let alloc = acts.alloc;
    let first = numbers_before(count).saturating_add(1);
    let mut text = Vec::new(alloc);
    for place in 0..count {
        let object = name(count, "A", place.saturating_add(2));
        let body = act_on(
            alloc,
            "{\"object\":\"",
            object,
            "\",\"u\":2,\"oppositions\":4}",
        )?;
        acts.add(FOUNDER, "verdict", &body, b"")?;
        put_parts(
            alloc,
            &mut text,
            &[
                Text("number "),
                Number(first.saturating_add(place)),
                Text(" "),
            ],
        )?;
        put_parts(alloc, &mut text, &object)?;
        put(&mut text, "\n")?;
    }
    let body = text_of(
        alloc,
        &[
            Text("{\"first\":"),
            Number(first),
            Text(",\"most\":"),
            Number(count),
            Text("}"),
        ],
    )?;
    acts.add(FOUNDER, "number", &body, &text)
}

/// So many designations of the half-month after are carried, and become members of the first of them.
fn add_carried(acts: &mut Acts, count: u64) -> Result<(), NoMemory> {
    let alloc = acts.alloc;
    let mut body = text_of(
        alloc,
        &[
            Text("{\"half\":\""),
            Number(year(count)),
            Text(" B\",\"given\":"),
            Number(count),
        ],
    )?;
    put(&mut body, ",\"carried\":[")?;
    put_list(alloc, &mut body, 1, count)?;
    let mut text = Vec::new(alloc);
    for order in 1..=count {
        put_object(alloc, &mut text, count, "B", order)?;
    }
    acts.add(FOUNDER, "opening", &body, &text)
}

/// What is told first of an object without a number.
fn principal(alloc: Global, object: [Part<'static>; 4]) -> Result<Vec<u8>, NoMemory> {
    let mut text = act_on(alloc, "principal ", object, "\nnumber none\nname ")?;
    put_parts(alloc, &mut text, &object)?;
    put(&mut text, "\n")?;
    Ok(text)
}

fn add_members(acts: &mut Acts, count: u64) -> Result<(), NoMemory> {
    let alloc = acts.alloc;
    let first = name(count, "B", 1);
    let mut text = principal(alloc, first)?;
    for order in 2..=count {
        let member = name(count, "B", order);
        let mut body = act_on(alloc, "{\"principal\":\"", first, "\",\"secondary\":\"")?;
        put_parts(alloc, &mut body, &member)?;
        put(&mut body, "\"}")?;
        acts.add(FOUNDER, "identify", &body, b"")?;
        put(&mut text, "name ")?;
        put_parts(alloc, &mut text, &member)?;
        put(&mut text, "\n")?;
        let asked = text_of(alloc, &member)?;
        acts.tell_now("object", &asked, &text)?;
    }
    add_separation(acts, count)
}

/// The last member is an object of its own again.
fn add_separation(acts: &mut Acts, count: u64) -> Result<(), NoMemory> {
    if count < 2 {
        return Ok(());
    }
    let body = act_on(
        acts.alloc,
        "{\"secondary\":\"",
        name(count, "B", count),
        "\"}",
    )?;
    acts.add(FOUNDER, "separate", &body, b"")
}

/// The isolated tracklet comes into the first object and out of it, and its last line is retracted.
fn add_moves(acts: &mut Acts, count: u64) -> Result<(), NoMemory> {
    let alloc = acts.alloc;
    let track = last_track(count);
    let mut body = text_of(
        alloc,
        &[Text("{\"tracklet\":"), Number(track), Text(",\"to\":\"")],
    )?;
    put_parts(alloc, &mut body, &name(count, "A", 1))?;
    put(&mut body, "\"}")?;
    acts.add(FOUNDER, "attribute", &body, b"")?;
    let body = text_of(alloc, &[Text("{\"tracklet\":"), Number(track), Text("}")])?;
    acts.add(FOUNDER, "release", &body, b"")?;
    let observation = observations_before(count.saturating_add(1));
    let body = text_of(
        alloc,
        &[Text("{\"observation\":"), Number(observation), Text("}")],
    )?;
    acts.add(OBSERVER, "retract", &body, b"")
}

/// The object of the first tracklets: the first line of each, then the second one of each.
fn tell_object(acts: &mut Acts, count: u64) -> Result<(), NoMemory> {
    let alloc = acts.alloc;
    let object = name(count, "A", 1);
    let mut text = principal(alloc, object)?;
    for line in [1u64, 2] {
        for track in 0..count {
            let observation = observations_before(count)
                .saturating_add(track.saturating_mul(2))
                .saturating_add(line);
            let number = tracks_before(count).saturating_add(track).saturating_add(1);
            put_observation(alloc, &mut text, observation, number)?;
        }
    }
    let asked = text_of(alloc, &object)?;
    acts.tell("object", &asked, &text)
}

/// What is told of a line of the isolated tracklet: a millionth of a day is 86,400,000 nanoseconds.
fn put_told(
    alloc: Global,
    text: &mut Vec<u8>,
    count: u64,
    line: u64,
    state: &str,
) -> Result<(), NoMemory> {
    let before = observations_before(count).saturating_add(count.saturating_mul(4));
    let time = line.saturating_mul(86_400_000);
    put_parts(
        alloc,
        text,
        &[
            Text("obs "),
            Number(before.saturating_add(line)),
            Text(state),
            Number(year(count)),
        ],
    )?;
    put_parts(
        alloc,
        text,
        &[
            Text("-01-03T00:00:"),
            Digits(time / 1_000_000_000, 2),
            Text("."),
        ],
    )?;
    put_parts(
        alloc,
        text,
        &[
            Digits(time % 1_000_000_000, 9),
            Text("Z 93.144000000000 +23.750333333333\n"),
        ],
    )
}

/// The isolated tracklet, whose last line is retracted.
fn tell_track(acts: &mut Acts, count: u64) -> Result<(), NoMemory> {
    let alloc = acts.alloc;
    let track = last_track(count);
    let mut text = text_of(
        alloc,
        &[
            Text("track "),
            Number(track),
            Text(" station 703 name S"),
            Digits(count, 2),
        ],
    )?;
    put(&mut text, "\nhome isolated\n")?;
    for line in 1..=count {
        put_told(alloc, &mut text, count, line, " live ")?;
    }
    put_told(
        alloc,
        &mut text,
        count,
        count.saturating_add(1),
        " retracted ",
    )?;
    let asked = text_of(alloc, &[Number(track)])?;
    acts.tell("tracklet", &asked, &text)
}

/// A half-month in which so many designations were given.
fn tell_half(acts: &mut Acts, count: u64, half: &'static str, given: u64) -> Result<(), NoMemory> {
    let alloc = acts.alloc;
    let asked = text_of(alloc, &[Number(year(count)), Text(" "), Text(half)])?;
    let mut text = text_of(
        alloc,
        &[
            Text("halfmonth "),
            Number(year(count)),
            Text(" "),
            Text(half),
        ],
    )?;
    put_parts(
        alloc,
        &mut text,
        &[Text(" given "), Number(given), Text(" next ")],
    )?;
    put_parts(
        alloc,
        &mut text,
        &name(count, half, given.saturating_add(1)),
    )?;
    put(&mut text, "\n")?;
    acts.tell("halfmonth", &asked, &text)
}

/// The isolated tracklets so far, each with as many live observations as its count says.
fn tell_isolated(acts: &mut Acts, count: u64) -> Result<(), NoMemory> {
    let alloc = acts.alloc;
    let mut text = Vec::new(alloc);
    for live in 1..=count {
        let track = last_track(live);
        put_parts(
            alloc,
            &mut text,
            &[
                Text("track "),
                Number(track),
                Text(" live "),
                Number(live),
                Text("\n"),
            ],
        )?;
    }
    acts.tell_now("isolated", b"", &text)
}

fn add_count(acts: &mut Acts, count: u64) -> Result<(), NoMemory> {
    add_first(acts, count)?;
    add_second(acts, count)?;
    add_objects(acts, count)?;
    add_numbers(acts, count)?;
    add_carried(acts, count)?;
    add_members(acts, count)?;
    add_moves(acts, count)?;
    tell_object(acts, count)?;
    tell_track(acts, count)?;
    tell_half(acts, count, "A", count.saturating_add(1))?;
    tell_half(acts, count, "B", count)?;
    tell_isolated(acts, count)
}

/// Each count in turn, after the five acts by which the office is set up.
fn add_counts(alloc: Global, script: Script, is_again: bool) -> Result<Acts, NoMemory> {
    let mut acts = Acts {
        alloc,
        script,
        entries: 5,
        is_again,
    };
    for count in 1..=MOST {
        add_count(&mut acts, count)?;
    }
    Ok(acts)
}

fn each_count(alloc: Global) -> Result<(), Wrong> {
    let day = add_counts(alloc, Script::begun(alloc)?, false)?;
    let later = add_counts(alloc, Script::new(alloc), true)?;
    call_days(
        alloc,
        1_048_576,
        &day.script,
        day.entries,
        Some(0),
        &later.script,
        b"",
    )
}

#[test]
fn each_count_up_to_twelve(rt: HostRuntime) {
    each_count(rt.alloc()).expect(&rt, "as wanted");
}
