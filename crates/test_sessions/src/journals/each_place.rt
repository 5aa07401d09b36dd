//! Two disks of which one fails at each of its calls in turn: at that one alone, or at it and all later ones, after
//! which a crash comes. Then a run opens, each act is sent again, and the journal opens once more. So it is with an
//! office that begins, and with one that is moved from the first disk; and doubt after doubt.

use std::alloc::Global;
use testkit_sessions::{Call, Drive, Drives, FOUNDER, NoMemory, Script, Wrong, call_in_turn};

const ANN: &str = "{\"key\":\"observer-1\",\"name\":\"Ann\",\"role\":\"observer\"}";

const BOB: &str = "{\"key\":\"observer-2\",\"name\":\"Bob\",\"role\":\"observer\"}";

const EVE: &str = "{\"key\":\"observer-3\",\"name\":\"Eve\",\"role\":\"observer\"}";

const DOUBT: &str = "refused 16 DiskFault doubt\n";

const UNTOUCHED: &str = "refused 16 DiskFault untouched\n";

/// The founder's act with this number, an enrolment, and what it is answered: `?` that it is in doubt, `-` that it left
/// nothing, or a digit, which is the place of its entry in the history and so the number of the new caller.
fn add_act(alloc: Global, script: &mut Script, number: u64, answer: u8) -> Result<(), NoMemory> {
    let body = match number {
        1 => ANN.as_bytes(),
        2 => BOB.as_bytes(),
        _ => EVE.as_bytes(),
    };
    match answer {
        b'?' => script.add(FOUNDER, number, "enrol", body, "503 ", DOUBT.as_bytes()),
        b'-' => script.add(FOUNDER, number, "enrol", body, "503 ", UNTOUCHED.as_bytes()),
        digit => {
            let place = digit.saturating_sub(b'0');
            let text = format!(in alloc; "receipt {place}\ncaller {place}\n")?;
            script.add(FOUNDER, number, "enrol", body, "200 ", text.as_bytes())
        }
    }
}

/// The three acts, with these answers.
fn first_day(alloc: Global, answers: &str) -> Result<Script, NoMemory> {
    let mut script = Script::new(alloc);
    for (place, answer) in answers.bytes().enumerate() {
        add_act(alloc, &mut script, (place as u64).saturating_add(1), answer)?;
    }
    Ok(script)
}

fn add_tally(alloc: Global, script: &mut Script, entries: u64) -> Result<(), NoMemory> {
    let text = format!(in alloc;
        "entries {entries}\nisolated 0\nobjects 0\nretracted 0\naccepted 0\n"
    )?;
    script.add(FOUNDER, 0, "tally", b"", "200 ", text.as_bytes())
}

/// A tally of so many entries; the acts again, the last one first, with these answers; and a tally of three.
fn second_day(alloc: Global, entries: u64, answers: &str) -> Result<Script, NoMemory> {
    let mut script = Script::new(alloc);
    add_tally(alloc, &mut script, entries)?;
    for (place, answer) in answers.bytes().enumerate() {
        add_act(
            alloc,
            &mut script,
            3u64.saturating_sub(place as u64),
            answer,
        )?;
    }
    add_tally(alloc, &mut script, 3)?;
    Ok(script)
}

/// A tally of three.
fn third_day(alloc: Global) -> Result<Script, NoMemory> {
    let mut script = Script::new(alloc);
    add_tally(alloc, &mut script, 3)?;
    Ok(script)
}

/// An office before the run: its first file, beside an empty second one; how many entries that has; how many calls of
/// each disk opening takes; and the answers to the acts, the last one first, where nothing was added since.
#[derive(Clone, Copy)]
struct Office {
    file: &'static [u8],
    entries: u64,
    opening: (u64, u64),
    again: &'static str,
}

/// An office that begins. The second disk is synced and its length is asked for; so is the first one, whose first gate
/// is written and synced; then the second one is asked for its length, shut, synced, given its first gate, synced, put
/// in force, and synced.
const BEGUN: Office = Office {
    file: b"",
    entries: 0,
    opening: (4, 9),
    again: "123",
};

/// An office that is moved, with the first two acts. Of the first disk two heads, two bodies and a closed gate are read
/// after its sync and its length; to the second one three writes more come for each act.
const MOVED: Office = Office {
    file: &PLAIN_TWO,
    entries: 2,
    opening: (7, 15),
    again: "321",
};

/// The first two acts in the first file, the second of them a second after the one before.
pub(super) const PLAIN_TWO: [u8; 155] =
    *b"\x01\0\0\0\x48\0\0\0\0\0\0\0\0\0\0\0\x01\x17\xc1\xfe\xe6\xa8\x7a\0\0\x01\
        {\"key\":\"observer-1\",\"name\":\"Ann\",\"role\":\"observer\"}\
        \x01\0\0\0\x48\0\0\0\0\0\0\0\0\0\0\0\x02\x17\xc1\xfe\xe6\xe4\x14\xca\0\x01\
        {\"key\":\"observer-2\",\"name\":\"Bob\",\"role\":\"observer\"}\0";

/// The same in the second file.
pub(super) const CHAINED_TWO: [u8; 220] =
    *b"\x01\x01\0\0\0\x48\0\0\0\0\0\0\0\0\0\0\0\x01\x17\xc1\xfe\xe6\xa8\x7a\0\0\x01\
        {\"key\":\"observer-1\",\"name\":\"Ann\",\"role\":\"observer\"}\
        \x9e\xb5\xf8\xae\xd6\xbb\x29\x0b\x09\xb7\x49\x53\x7e\xc3\xa0\x2b\
        \x76\x13\x7c\x7f\x6d\xf5\xf5\x74\x19\xda\x70\x33\x7d\x05\x10\x41\
        \x01\0\0\0\x48\0\0\0\0\0\0\0\0\0\0\0\x02\x17\xc1\xfe\xe6\xe4\x14\xca\0\x01\
        {\"key\":\"observer-2\",\"name\":\"Bob\",\"role\":\"observer\"}\
        \x26\x3e\x21\x43\xb9\x91\x90\x27\x72\x48\x22\x92\xb8\x2c\x3e\x73\
        \x81\x5e\xe0\x6d\x51\x04\xdb\xad\x0f\x86\x8f\xfd\xfa\xc9\x0b\x2a\0";

/// The office's two disks, of which one fails at these calls.
fn drives_of<'a>(office: &Office, disk: usize, fails: &'a [u64]) -> Drives<'a> {
    let none: &[u64] = &[];
    Drives {
        first: Drive {
            file: office.file,
            fails: if disk == 1 { fails } else { none },
            ..Drive::EMPTY
        },
        second: Drive {
            fails: if disk == 2 { fails } else { none },
            ..Drive::EMPTY
        },
    }
}

/// The mark of a run in which this call of a disk fails, or is the first that does.
fn mark_of(disk: usize, call: u64) -> usize {
    disk.saturating_mul(100).saturating_add(call as usize)
}

/// How a run over the acts ends on a disk that fails: their answers, of which there are none where it can't open; its
/// status's number, 0 or that of a fault of the disk; and by how many entries the history grows.
#[derive(Clone, Copy)]
struct First<'a> {
    answers: &'a str,
    number: u8,
    added: u64,
}

/// A run that can't open.
const UNOPENED: First<'static> = First {
    answers: "",
    number: 4,
    added: 0,
};

/// The run over the acts that ends so, and the pick of the crash after it, where one comes.
fn stopped_call<'a>(day: &'a Script, mark: usize, first: &First, pick: Option<u64>) -> Call<'a> {
    let whole = day.call(first.added);
    let kept = if first.answers.is_empty() {
        0
    } else {
        whole.taken.len()
    };
    Call {
        mark,
        status: if first.number == 0 {
            "Done"
        } else {
            "DiskFault"
        },
        number: first.number,
        taken: whole.taken.split_at(kept).0,
        pick,
        ..whole
    }
}

/// Runs over the acts on these disks; takes what isn't safe by a crash with this pick, where there is one; then the
/// office has so many entries, and the acts, sent again, these answers; and it opens once more, with all three.
fn stopped(
    alloc: Global,
    mark: usize,
    drives: &Drives,
    first: &First,
    pick: Option<u64>,
    entries: u64,
    again: &str,
) -> Result<(), Wrong> {
    let is_open = !first.answers.is_empty();
    let day = first_day(alloc, if is_open { first.answers } else { "123" })?;
    let later = second_day(alloc, entries, again)?;
    let opened = Call {
        mark: mark.saturating_add(1_000),
        ..later.call(3u64.saturating_sub(entries))
    };
    let last = third_day(alloc)?;
    let opened_again = Call {
        mark: mark.saturating_add(2_000),
        ..last.call(0)
    };
    call_in_turn(
        alloc,
        drives,
        &[stopped_call(&day, mark, first, pick), opened, opened_again],
    )
}

/// A call of the second disk that fails alone, the answers, by how many entries the history grows in that run, and the
/// answers to the acts again, the last one first. An act takes four calls: it writes its parcel and syncs, and is
/// untouched where one of these fails; it opens the gate and syncs, and is in doubt where one of these fails. The next
/// act, or the end of the run, settles that: a gate that wasn't written drops the act, one that was written adds it. So
/// the three acts of an office that begins end at call 21, and the third act of one that is moved at call 19.
type Alone = (u64, &'static str, u64, &'static str);

const ALONE_BEGUN: &[Alone] = &[
    (10, "-12", 2, "213"),
    (11, "-12", 2, "213"),
    (12, "?12", 2, "213"),
    (13, "?23", 3, "321"),
    (14, "1-2", 2, "231"),
    (15, "1-2", 2, "231"),
    (16, "1?2", 2, "231"),
    (17, "1?3", 3, "321"),
    (18, "12-", 2, "321"),
    (19, "12-", 2, "321"),
    (20, "12?", 2, "321"),
    (21, "12?", 3, "321"),
];

const ALONE_MOVED: &[Alone] = &[
    (16, "12-", 0, "321"),
    (17, "12-", 0, "321"),
    (18, "12?", 0, "321"),
    (19, "12?", 1, "321"),
];

/// Each call of an opening, which that ends: nothing is added.
fn each_opening_alone(alloc: Global, office: &Office) -> Result<(), Wrong> {
    let (first, second) = office.opening;
    for (disk, calls) in [(1usize, first), (2usize, second)] {
        for call in 1..=calls {
            let fails = [call];
            stopped(
                alloc,
                mark_of(disk, call),
                &drives_of(office, disk, &fails),
                &UNOPENED,
                None,
                office.entries,
                office.again,
            )?;
        }
    }
    Ok(())
}

/// Each call of the acts.
fn each_act_alone(alloc: Global, office: &Office, rows: &[Alone]) -> Result<(), Wrong> {
    for &(call, answers, added, again) in rows {
        let first = First {
            answers,
            number: 0,
            added,
        };
        let fails = [call];
        stopped(
            alloc,
            mark_of(2, call),
            &drives_of(office, 2, &fails),
            &first,
            None,
            office.entries.saturating_add(added),
            again,
        )?;
    }
    Ok(())
}

#[test]
fn each_call_fails_alone(rt: HostRuntime) {
    each_opening_alone(rt.alloc(), &BEGUN).expect(&rt, "as wanted");
    each_act_alone(rt.alloc(), &BEGUN, ALONE_BEGUN).expect(&rt, "as wanted");
}

#[test]
fn each_call_of_a_move_fails_alone(rt: HostRuntime) {
    each_opening_alone(rt.alloc(), &MOVED).expect(&rt, "as wanted");
    each_act_alone(rt.alloc(), &MOVED, ALONE_MOVED).expect(&rt, "as wanted");
}

/// The disk, its call after those of the run, and how the next opening ends where that call fails. The first disk isn't
/// called again.
type Further = (usize, u64, &'static str, u8);

const AFTER_BEGUN: [Further; 2] = [(1, 5, "Done", 0), (2, 22, "DiskFault", 4)];

const AFTER_MOVED: [Further; 2] = [(1, 8, "Done", 0), (2, 20, "DiskFault", 4)];

/// The run makes no further call: that of the second disk is the first of the next opening, and ends it.
fn no_further_call(alloc: Global, office: &Office, rows: [Further; 2]) -> Result<(), Wrong> {
    let day = first_day(alloc, "123")?;
    for (disk, call, status, number) in rows {
        let opened = Call {
            mark: mark_of(disk, call),
            status,
            number,
            ..Call::run(b"", 0, b"")
        };
        let fails = [call];
        call_in_turn(
            alloc,
            &drives_of(office, disk, &fails),
            &[day.call(3u64.saturating_sub(office.entries)), opened],
        )?;
    }
    Ok(())
}

#[test]
fn a_run_makes_no_further_call(rt: HostRuntime) {
    no_further_call(rt.alloc(), &BEGUN, AFTER_BEGUN).expect(&rt, "as wanted");
    no_further_call(rt.alloc(), &MOVED, AFTER_MOVED).expect(&rt, "as wanted");
}

/// A call of the second disk from which on all fail, the answers, by how many entries the history grows as the run
/// knows it, whether an act is in doubt at its end, and the answers to the acts again, the last one first: where the
/// crash left nothing of the act in doubt, and where it left it.
type FromOn = (u64, &'static str, u64, bool, &'static str, &'static str);

const FROM_ON_BEGUN: &[FromOn] = &[
    (10, "---", 0, false, "123", ""),
    (11, "---", 0, false, "123", ""),
    (12, "?--", 0, true, "123", "231"),
    (13, "?--", 0, true, "123", "231"),
    (14, "1--", 1, false, "231", ""),
    (15, "1--", 1, false, "231", ""),
    (16, "1?-", 1, true, "231", "321"),
    (17, "1?-", 1, true, "231", "321"),
    (18, "12-", 2, false, "321", ""),
    (19, "12-", 2, false, "321", ""),
    (20, "12?", 2, true, "321", "321"),
    (21, "12?", 2, true, "321", "321"),
];

const FROM_ON_MOVED: &[FromOn] = &[
    (16, "12-", 0, false, "321", ""),
    (17, "12-", 0, false, "321", ""),
    (18, "12?", 0, true, "321", "321"),
    (19, "12?", 0, true, "321", "321"),
];

/// The picks of the crashes, and whether they leave a gate that was written and isn't safe. Each digit in base 5, the
/// lowest first, says what is left of one deed since the last sync that was done: none of it, all, the front half, the
/// back half, the last byte. Of one byte, the front half is nothing and the back half is all. The third pick and the
/// fourth have the digits 2, 3, 4, 0 and 3, 4, 1, 2; the last one loses the first deed and leaves the nine after it.
const PICKS: &[(u64, bool)] = &[
    (0, false),
    (1, true),
    (117, false),
    (298, true),
    (2_441_405, false),
];

/// The calls that fail where all from the first on do. No run makes more.
const ALL: &[u64] = &[
    1, 2, 3, 4, 5, 6, 7, 8, 9, 10, 11, 12, 13, 14, 15, 16, 17, 18, 19, 20, 21, 22, 23, 24, 25, 26,
    27, 28, 29, 30, 31, 32,
];

/// Those from this one on.
fn from_on(call: u64) -> &'static [u64] {
    ALL.get(call.saturating_sub(1) as usize..).unwrap_or(&[])
}

/// Each call of an opening, which that ends, with each pick: nothing is added, whatever is left of the second file.
fn each_opening_from_on(alloc: Global, office: &Office) -> Result<(), Wrong> {
    let (first, second) = office.opening;
    for (disk, calls) in [(1usize, first), (2usize, second)] {
        for call in 1..=calls {
            for &(pick, _) in PICKS {
                stopped(
                    alloc,
                    mark_of(disk, call),
                    &drives_of(office, disk, from_on(call)),
                    &UNOPENED,
                    Some(pick),
                    office.entries,
                    office.again,
                )?;
            }
        }
    }
    Ok(())
}

/// One row with each pick. A run that can't settle a doubt at its end ends with a fault of the disk.
fn act_from_on(alloc: Global, office: &Office, row: &FromOn) -> Result<(), Wrong> {
    let &(call, answers, added, in_doubt, lost, kept) = row;
    let first = First {
        answers,
        number: if in_doubt { 4 } else { 0 },
        added,
    };
    for &(pick, leaves_gate) in PICKS {
        let is_kept = in_doubt && leaves_gate;
        let after = added.saturating_add(u64::from(is_kept));
        stopped(
            alloc,
            mark_of(2, call),
            &drives_of(office, 2, from_on(call)),
            &first,
            Some(pick),
            office.entries.saturating_add(after),
            if is_kept { kept } else { lost },
        )?;
    }
    Ok(())
}

fn each_act_from_on(alloc: Global, office: &Office, rows: &[FromOn]) -> Result<(), Wrong> {
    for row in rows {
        act_from_on(alloc, office, row)?;
    }
    Ok(())
}

#[test]
fn all_calls_fail_from_each_on(rt: HostRuntime) {
    each_opening_from_on(rt.alloc(), &BEGUN).expect(&rt, "as wanted");
    each_act_from_on(rt.alloc(), &BEGUN, FROM_ON_BEGUN).expect(&rt, "as wanted");
}

#[test]
fn all_calls_of_a_move_fail_from_each_on(rt: HostRuntime) {
    each_opening_from_on(rt.alloc(), &MOVED).expect(&rt, "as wanted");
    each_act_from_on(rt.alloc(), &MOVED, FROM_ON_MOVED).expect(&rt, "as wanted");
}

/// The first act's last sync fails, then the one by which the second act would settle that, and then, where the third
/// act settled it, that one's last sync: the calls 13, 14 and 20.
const DOUBTS: &str = r#"
> +founder-1 1 enrol {"key":"observer-1","name":"Ann","role":"observer"}
< 503 refused 16 DiskFault doubt
> +founder-1 2 enrol {"key":"observer-2","name":"Bob","role":"observer"}
< 503 refused 16 DiskFault untouched
> +founder-1 3 enrol {"key":"observer-3","name":"Eve","role":"observer"}
< 503 refused 16 DiskFault doubt
> +founder-1 0 tally
< 200 entries 1
isolated 0
objects 0
retracted 0
accepted 0
> +founder-1 3 enrol {"key":"observer-3","name":"Eve","role":"observer"}
< 200 receipt 2
caller 2
> +founder-1 2 enrol {"key":"observer-2","name":"Bob","role":"observer"}
< 200 receipt 3
caller 3
> +founder-1 1 enrol {"key":"observer-1","name":"Ann","role":"observer"}
< 200 receipt 1
caller 1
> +founder-1 0 tally
< 200 entries 3
isolated 0
objects 0
retracted 0
accepted 0
"#;

fn doubts(alloc: Global) -> Result<(), Wrong> {
    let mut script = Script::new(alloc);
    script.add_transcript(DOUBTS)?;
    let drives = drives_of(&BEGUN, 2, &[13, 14, 20]);
    call_in_turn(alloc, &drives, &[script.call(3)])
}

#[test]
fn doubt_after_doubt(rt: HostRuntime) {
    doubts(rt.alloc()).expect(&rt, "as wanted");
}

/// After the first act the second one's gate isn't written, and is settled as dropped; then so is the third one's; then
/// the second one's last sync fails, and is settled as added. They are the calls 16, 21 and 27.
const DROPPED_AND_ADDED: &str = r#"
> +founder-1 1 enrol {"key":"observer-1","name":"Ann","role":"observer"}
< 200 receipt 1
caller 1
> +founder-1 2 enrol {"key":"observer-2","name":"Bob","role":"observer"}
< 503 refused 16 DiskFault doubt
> +founder-1 3 enrol {"key":"observer-3","name":"Eve","role":"observer"}
< 503 refused 16 DiskFault doubt
> +founder-1 2 enrol {"key":"observer-2","name":"Bob","role":"observer"}
< 503 refused 16 DiskFault doubt
> +founder-1 3 enrol {"key":"observer-3","name":"Eve","role":"observer"}
< 200 receipt 3
caller 3
> +founder-1 0 tally
< 200 entries 3
isolated 0
objects 0
retracted 0
accepted 0
"#;

/// What is told then of each act, by a run that opens the journal.
const EACH_ACT: &str = r#"
> +founder-1 0 receipt 1
< 200 receipt 1
caller 1
> +founder-1 0 receipt 2
< 200 receipt 2
caller 2
> +founder-1 0 receipt 3
< 200 receipt 3
caller 3
> +founder-1 0 tally
< 200 entries 3
isolated 0
objects 0
retracted 0
accepted 0
"#;

/// The second file then. The readings of the acts that left nothing aren't in it: the second act was read three seconds
/// after the first one, the third act four.
const CHAIN: [u8; 329] =
    *b"\x01\x01\0\0\0\x48\0\0\0\0\0\0\0\0\0\0\0\x01\x17\xc1\xfe\xe6\xa8\x7a\0\0\x01\
        {\"key\":\"observer-1\",\"name\":\"Ann\",\"role\":\"observer\"}\
        \x9e\xb5\xf8\xae\xd6\xbb\x29\x0b\x09\xb7\x49\x53\x7e\xc3\xa0\x2b\
        \x76\x13\x7c\x7f\x6d\xf5\xf5\x74\x19\xda\x70\x33\x7d\x05\x10\x41\
        \x01\0\0\0\x48\0\0\0\0\0\0\0\0\0\0\0\x02\x17\xc1\xfe\xe7\x5b\x4a\x5e\0\x01\
        {\"key\":\"observer-2\",\"name\":\"Bob\",\"role\":\"observer\"}\
        \x6a\xfc\x85\x33\x35\x52\xbb\x03\xfe\xfb\x1d\xb4\xf3\x4f\xc3\x4e\
        \x10\xd9\xb7\x00\x83\x40\xaa\x12\xa7\x2b\x26\x5d\x98\x14\x1b\x74\
        \x01\0\0\0\x48\0\0\0\0\0\0\0\0\0\0\0\x03\x17\xc1\xfe\xe7\x96\xe5\x28\0\x01\
        {\"key\":\"observer-3\",\"name\":\"Eve\",\"role\":\"observer\"}\
        \xc9\x8c\x9a\x5a\x4b\x23\x4d\x9b\x6a\xe1\x3b\xa2\x59\xbe\x34\x64\
        \xd3\x92\xc5\x23\x10\x9a\xf3\x07\x73\xfc\xce\xa0\xf0\x2d\xac\xc3\0";

fn chain_after_doubts(alloc: Global) -> Result<(), Wrong> {
    let (mut day, mut later) = (Script::new(alloc), Script::new(alloc));
    day.add_transcript(DROPPED_AND_ADDED)?;
    later.add_transcript(EACH_ACT)?;
    let read = Call {
        mark: 1,
        ..later.call(0)
    };
    let drives = Drives::with_second(Drive {
        fails: &[16, 21, 27],
        left: Some(&CHAIN),
        ..Drive::EMPTY
    });
    call_in_turn(alloc, &drives, &[day.call(3), read])
}

#[test]
fn chain_after_dropped_and_added_doubts(rt: HostRuntime) {
    chain_after_doubts(rt.alloc()).expect(&rt, "as wanted");
}
