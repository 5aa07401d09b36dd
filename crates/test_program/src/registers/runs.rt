//! The register on a disk that fails at each of its calls in turn: at that one alone, at it and one of those that
//! settle a doubt, or at it and all later ones; with crashes after that. Then a run opens, each act is sent again, and
//! the register opens once more.

use super::office::{add_act, add_register, comets_of, office_call, office_with};
use std::alloc::Global;
use testkit_comets::comets_in_turn;
use testkit_sessions::{Call, Drive, NoMemory, Script, Wrong};

/// The three acts, with these answers.
fn add_first(alloc: Global, script: &mut Script, answers: &str) -> Result<(), NoMemory> {
    let answers = if answers.is_empty() { "123" } else { answers };
    for (place, answer) in answers.bytes().enumerate() {
        add_act(alloc, script, (place as u64).saturating_add(1), answer)?;
    }
    Ok(())
}

/// The register of these acts; the acts again, the last one first, with these answers; and the register of these acts.
fn add_second(
    alloc: Global,
    script: &mut Script,
    kept: &str,
    answers: &str,
    all: &str,
) -> Result<(), NoMemory> {
    add_register(alloc, script, kept)?;
    for (place, answer) in answers.bytes().enumerate() {
        add_act(alloc, script, 3u64.saturating_sub(place as u64), answer)?;
    }
    add_register(alloc, script, all)
}

/// A row of a table: the call of the disk that fails, alone or with later ones; the answers to the acts, none where the
/// register can't be opened; by how many entries it grows, and the status's number, 0 or that of a fault of the disk.
/// Then, after the crash where one comes, the numbers of the acts that are in the register, in their order; the answers
/// to the acts when they are sent again, the last one first; and their numbers in the order of the register.
type Case = (
    u64,
    &'static str,
    u64,
    u8,
    &'static str,
    &'static str,
    &'static str,
);

/// The office of a case, the acts over its disk, the acts again, and the last opening.
#[derive(Drop)]
struct Days {
    office: Script,
    first: Script,
    second: Script,
    last: Script,
}

fn days_of(alloc: Global, case: &Case) -> Result<Days, Wrong> {
    let &(_, answers, _, _, kept, again, all) = case;
    let mut days = Days {
        office: office_with(alloc, 3)?,
        first: Script::new(alloc),
        second: Script::new(alloc),
        last: Script::new(alloc),
    };
    add_first(alloc, &mut days.first, answers)?;
    add_second(alloc, &mut days.second, kept, again, all)?;
    add_register(alloc, &mut days.last, all)?;
    Ok(days)
}

/// The acts of a case; nothing of them is answered where the register can't be opened.
fn first_call<'a>(day: &'a Script, case: &Case, pick: Option<u64>) -> Call<'a> {
    let &(call, answers, added, number, _, _, _) = case;
    let whole = comets_of(call as usize, day, added);
    let length = if answers.is_empty() {
        0
    } else {
        whole.taken.len()
    };
    Call {
        status: if number == 0 { "Done" } else { "DiskFault" },
        number,
        taken: whole.taken.split_at(length).0,
        pick,
        ..whole
    }
}

/// The office, the acts over a disk with these calls failing, a crash by this pick where there is one, the acts again,
/// and a last opening.
fn stopped(alloc: Global, fails: &[u64], case: &Case, pick: Option<u64>) -> Result<(), Wrong> {
    let days = days_of(alloc, case)?;
    let mark = case.0 as usize;
    let grown = (case.6.len() as u64).saturating_sub(case.4.len() as u64);
    let calls: [Call; 4] = [
        office_call(&days.office, 3),
        first_call(&days.first, case, pick),
        comets_of(mark.saturating_add(1_000), &days.second, grown),
        comets_of(mark.saturating_add(2_000), &days.last, 0),
    ];
    let drive = Drive {
        fails,
        ..Drive::EMPTY
    };
    comets_in_turn(alloc, &drive, &calls)
}

/// Which calls of the disk fail beside that of a case.
#[derive(Clone, Copy)]
enum More {
    /// None.
    Alone,
    /// This one.
    And(u64),
    /// All after it.
    AllAfter,
    /// All from this one on.
    AllFrom(u64),
}

/// The calls that fail where all from the first on do. No run makes more.
const ALL: &[u64] = &[
    1, 2, 3, 4, 5, 6, 7, 8, 9, 10, 11, 12, 13, 14, 15, 16, 17, 18, 19, 20, 21, 22, 23, 24, 25, 26,
    27, 28, 29, 30, 31, 32,
];

/// This call, and those.
fn fails_of(alloc: Global, call: u64, more: More) -> Result<Vec<u64>, NoMemory> {
    let mut fails = Vec::new(alloc);
    fails.push(call)?;
    let then = match more {
        More::Alone => return Ok(fails),
        More::And(second) => {
            fails.push(second)?;
            return Ok(fails);
        }
        More::AllAfter => call.saturating_add(1),
        More::AllFrom(then) => then,
    };
    let place = then.saturating_sub(1) as usize;
    fails.extend_from_slice(ALL.get(place..).unwrap_or(&[]))?;
    Ok(fails)
}

/// A case with those calls failing, and each of these crashes after it.
fn each_pick(alloc: Global, more: More, case: &Case, picks: &[Option<u64>]) -> Result<(), Wrong> {
    let fails = fails_of(alloc, case.0, more)?;
    for pick in picks {
        stopped(alloc, &fails, case, *pick)?;
    }
    Ok(())
}

/// The same of all of these cases.
fn each_case(
    alloc: Global,
    more: More,
    cases: &[Case],
    picks: &[Option<u64>],
) -> Result<(), Wrong> {
    for case in cases {
        each_pick(alloc, more, case, picks)?;
    }
    Ok(())
}

/// Opening takes nine calls of an empty disk: it is synced and asked for its length, for that once more, shut, synced,
/// given its first gate, synced, put in force, and synced. An act takes four: it writes its parcel and syncs, and is
/// untouched where one of these fails; it opens the gate and syncs, and is in doubt where one of these fails. The next
/// act, or the end of the run, settles that: a gate that wasn't written drops the act, one that was written adds it.
const ALONE: &[Case] = &[
    (1, "", 0, 4, "", "123", "321"),
    (2, "", 0, 4, "", "123", "321"),
    (3, "", 0, 4, "", "123", "321"),
    (4, "", 0, 4, "", "123", "321"),
    (5, "", 0, 4, "", "123", "321"),
    (6, "", 0, 4, "", "123", "321"),
    (7, "", 0, 4, "", "123", "321"),
    (8, "", 0, 4, "", "123", "321"),
    (9, "", 0, 4, "", "123", "321"),
    (10, "-12", 2, 0, "23", "213", "231"),
    (11, "-12", 2, 0, "23", "213", "231"),
    (12, "?12", 2, 0, "23", "213", "231"),
    (13, "?23", 3, 0, "123", "321", "123"),
    (14, "1-2", 2, 0, "13", "231", "132"),
    (15, "1-2", 2, 0, "13", "231", "132"),
    (16, "1?2", 2, 0, "13", "231", "132"),
    (17, "1?3", 3, 0, "123", "321", "123"),
    (18, "12-", 2, 0, "12", "321", "123"),
    (19, "12-", 2, 0, "12", "321", "123"),
    (20, "12?", 2, 0, "12", "321", "123"),
    (21, "12?", 3, 0, "123", "321", "123"),
];

/// Four picks of a crash. A gate that was written and isn't safe is lost by the first two, and left by the others. Each
/// digit in base 5, the lowest first, says what is left of one deed since the last sync that was done: none of it, all,
/// the front half, the back half, the last byte; the front half of one byte is nothing, and the back half is all.
const LOSES: &[Option<u64>] = &[Some(0), Some(117)];

const LEAVES: &[Option<u64>] = &[Some(1), Some(298)];

const PICKS: &[Option<u64>] = &[Some(0), Some(117), Some(1), Some(298)];

/// No crash.
const STAYS: &[Option<u64>] = &[None];

#[test]
fn each_call_of_the_register_fails_alone(rt: HostRuntime) {
    each_case(rt.alloc(), More::Alone, ALONE, STAYS).expect(&rt, "as wanted");
}

/// What a crash may then take belongs to acts that weren't kept.
#[test]
fn a_crash_comes_after_a_call_that_failed(rt: HostRuntime) {
    each_case(rt.alloc(), More::Alone, ALONE, LOSES).expect(&rt, "as wanted");
}

#[test]
fn another_comes_after_a_call_that_failed(rt: HostRuntime) {
    each_case(rt.alloc(), More::Alone, ALONE, LEAVES).expect(&rt, "as wanted");
}

/// A doubt, and one of the two calls fails by which it is settled: the file is synced, and the gate is read. Then the
/// doubt stays, and an act that comes is untouched. The next act, or the end of the run, settles it; at the end of the
/// run it is left to the next opening.
const TWICE: &[(u64, Case)] = &[
    (13, (12, "?-1", 1, 0, "3", "123", "321")),
    (14, (12, "?-1", 1, 0, "3", "123", "321")),
    (14, (13, "?-2", 2, 0, "13", "231", "132")),
    (15, (13, "?-2", 2, 0, "13", "231", "132")),
    (17, (16, "1?-", 1, 0, "1", "231", "132")),
    (18, (16, "1?-", 1, 0, "1", "231", "132")),
    (18, (17, "1?-", 2, 0, "12", "321", "123")),
    (19, (17, "1?-", 2, 0, "12", "321", "123")),
    (21, (20, "12?", 2, 4, "12", "321", "123")),
    (22, (20, "12?", 2, 4, "12", "321", "123")),
    (22, (21, "12?", 2, 4, "123", "321", "123")),
    (23, (21, "12?", 2, 4, "123", "321", "123")),
];

fn each_settling(alloc: Global) -> Result<(), Wrong> {
    for (second, case) in TWICE {
        each_pick(alloc, More::And(*second), case, STAYS)?;
    }
    Ok(())
}

#[test]
fn each_call_of_a_settling_fails(rt: HostRuntime) {
    each_settling(rt.alloc()).expect(&rt, "as wanted");
}

/// From that call on all fail, and the crash takes what isn't safe. Here no gate is in doubt, so that each crash leaves
/// the same acts.
const STOPPED: &[Case] = &[
    (1, "", 0, 4, "", "123", "321"),
    (2, "", 0, 4, "", "123", "321"),
    (3, "", 0, 4, "", "123", "321"),
    (4, "", 0, 4, "", "123", "321"),
    (5, "", 0, 4, "", "123", "321"),
    (6, "", 0, 4, "", "123", "321"),
    (7, "", 0, 4, "", "123", "321"),
    (8, "", 0, 4, "", "123", "321"),
    (9, "", 0, 4, "", "123", "321"),
    (10, "---", 0, 0, "", "123", "321"),
    (11, "---", 0, 0, "", "123", "321"),
    (14, "1--", 1, 0, "1", "231", "132"),
    (15, "1--", 1, 0, "1", "231", "132"),
    (18, "12-", 2, 0, "12", "321", "123"),
    (19, "12-", 2, 0, "12", "321", "123"),
];

/// The gate of an act in doubt is lost.
const LOST: &[Case] = &[
    (12, "?--", 0, 4, "", "123", "321"),
    (13, "?--", 0, 4, "", "123", "321"),
    (16, "1?-", 1, 4, "1", "231", "132"),
    (17, "1?-", 1, 4, "1", "231", "132"),
    (20, "12?", 2, 4, "12", "321", "123"),
    (21, "12?", 2, 4, "12", "321", "123"),
];

/// The same where it is left.
const LEFT: &[Case] = &[
    (12, "?--", 0, 4, "1", "231", "132"),
    (13, "?--", 0, 4, "1", "231", "132"),
    (16, "1?-", 1, 4, "12", "321", "123"),
    (17, "1?-", 1, 4, "12", "321", "123"),
    (20, "12?", 2, 4, "123", "321", "123"),
    (21, "12?", 2, 4, "123", "321", "123"),
];

/// A doubt whose settling syncs the file and then reads no gate, since from there on all calls fail: each crash leaves
/// what the sync made safe.
const SYNCED: &[(u64, Case)] = &[
    (14, (12, "?--", 0, 4, "", "123", "321")),
    (15, (13, "?--", 0, 4, "1", "231", "132")),
    (18, (16, "1?-", 1, 4, "1", "231", "132")),
    (19, (17, "1?-", 1, 4, "12", "321", "123")),
    (22, (20, "12?", 2, 4, "12", "321", "123")),
    (23, (21, "12?", 2, 4, "123", "321", "123")),
];

#[test]
fn the_disk_of_the_register_fails_from_on(rt: HostRuntime) {
    each_case(rt.alloc(), More::AllAfter, STOPPED, PICKS).expect(&rt, "as wanted");
}

#[test]
fn the_disk_of_the_register_fails_in_a_doubt(rt: HostRuntime) {
    each_case(rt.alloc(), More::AllAfter, LOST, LOSES).expect(&rt, "as wanted");
    each_case(rt.alloc(), More::AllAfter, LEFT, LEAVES).expect(&rt, "as wanted");
}

fn each_synced(alloc: Global) -> Result<(), Wrong> {
    for (then, case) in SYNCED {
        each_pick(alloc, More::AllFrom(*then), case, PICKS)?;
    }
    Ok(())
}

#[test]
fn the_disk_of_the_register_fails_in_settling(rt: HostRuntime) {
    each_synced(rt.alloc()).expect(&rt, "as wanted");
}
