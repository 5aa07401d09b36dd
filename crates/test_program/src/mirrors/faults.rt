//! What a mirror keeps where something fails, and words that are no command.

use mirror_store::{MemMirror, Mirror};
use std::alloc::Global;
use testkit_mirror::{Holds, NOTHING, Turn, mirror_in_turn, mirror_of};
use testkit_sessions::{CHAINED, Call, Drive, Drives, PLAIN, Script, Wrong};

/// The line of an office without an entry, and of one with an observer.
const NONE: &str = "mirror 0 objects 0 sights 0\n";

const ONE: &str = "mirror 1 objects 0 sights 0\n";

/// A half-month is taken over, with a designation.
const OPENING: &str = r#"
> +founder-1 1 opening {"half":"2024 E","given":1,"carried":[1]}
< 200 receipt 1
object 2024 EA K24E00A
"#;

/// The line of that office, and what a mirror then holds.
const CARRIED: &str = "mirror 1 objects 1 sights 0\n";

const EA: Holds<'static> = Holds {
    objects: "1|2024 EA|0|0\n",
    sights: "",
};

/// A call of `mirror` that ends with this status, and writes nothing.
fn ends<'a>(mark: usize, status: &'a str, number: u8) -> Call<'a> {
    Call {
        status,
        number,
        ..mirror_of(mark, "")
    }
}

/// The first refresh fails, and the mirror holds nothing; then the third, and it holds what it held.
fn failing_mirror(alloc: Global) -> Result<(), Wrong> {
    let mut script = Script::new(alloc);
    script.add_transcript(OPENING)?;
    let run = script.call(1);
    let turns: [Turn; 5] = [
        (ends(0, "MirrorFault", 10), NOTHING),
        (mirror_of(1, NONE), NOTHING),
        (run, NOTHING),
        (ends(3, "MirrorFault", 10), NOTHING),
        (mirror_of(4, CARRIED), EA),
    ];
    // Each turn but the third is a refresh, and each asks the mirror twice after it.
    let mut mirror = MemMirror::new(alloc, &[1, 9])?;
    mirror_in_turn(alloc, &Drives::EMPTY, &mut mirror, &turns)
}

/// A mirror that holds an object, over an office on two empty disks.
fn holding<M: Mirror>(alloc: Global, mirror: &mut M) -> Result<(), Wrong> {
    let mut script = Script::new(alloc);
    script.add_transcript(OPENING)?;
    let turns: [Turn; 2] = [(script.call(1), NOTHING), (mirror_of(1, CARRIED), EA)];
    mirror_in_turn(alloc, &Drives::EMPTY, mirror, &turns)
}

/// A mirror that holds an object holds it after this call.
fn keeps<M: Mirror>(
    alloc: Global,
    drives: &Drives,
    mirror: &mut M,
    call: Call,
) -> Result<(), Wrong> {
    mirror_in_turn(alloc, drives, mirror, &[(call, EA)])
}

/// A second file that is cut short, and a first one.
fn over_cut_files<M: Mirror>(alloc: Global, mirror: &mut M) -> Result<(), Wrong> {
    let (cut, _) = CHAINED.split_at(40);
    let drives = Drives::with_second(Drive::kept(cut));
    keeps(alloc, &drives, mirror, ends(0, "Damaged in 2 at 1", 5))?;
    let (cut, _) = PLAIN.split_at(40);
    let drives = Drives {
        first: Drive::kept(cut),
        ..Drives::EMPTY
    };
    keeps(alloc, &drives, mirror, ends(1, "Damaged in 1 at 0", 5))
}

/// A second file that is cut short, a first one, a disk that fails, and words with one more: the mirror holds what it
/// held before.
fn unopened<M: Mirror>(alloc: Global, mirror: &mut M) -> Result<(), Wrong> {
    holding(alloc, mirror)?;
    over_cut_files(alloc, mirror)?;
    let drives = Drives::with_second(Drive {
        fails: &[1],
        ..Drive::EMPTY
    });
    keeps(alloc, &drives, mirror, ends(2, "DiskFault", 4))?;
    let usage = Call {
        words: &["mirror", "x"],
        ..ends(3, "Usage", 2)
    };
    keeps(alloc, &Drives::EMPTY, mirror, usage)
}

/// The same of a mirror in memory.
fn unopened_in_memory(alloc: Global) -> Result<(), Wrong> {
    unopened(alloc, &mut MemMirror::new(alloc, &[])?)
}

/// The sink fails at the line: the mirror holds the rows all the same. An office of the first file is moved, and stands
/// on the second then; a call more finds it there.
fn moved(alloc: Global) -> Result<(), Wrong> {
    let mut mirror = MemMirror::new(alloc, &[])?;
    holding(alloc, &mut mirror)?;
    let drives = Drives {
        first: Drive::kept(&PLAIN),
        second: Drive {
            left: Some(&CHAINED),
            ..Drive::EMPTY
        },
    };
    let silent = Call {
        write: 1,
        least: Some(0),
        status: "WriteFault",
        number: 7,
        ..mirror_of(0, ONE)
    };
    let turns: [Turn; 2] = [(silent, NOTHING), (mirror_of(1, ONE), NOTHING)];
    mirror_in_turn(alloc, &drives, &mut mirror, &turns)
}

#[test]
fn a_mirror_that_fails_keeps_its_rows(rt: HostRuntime) {
    failing_mirror(rt.alloc()).expect(&rt, "as wanted");
}

#[test]
fn an_office_that_is_not_opened_leaves_the_mirror(rt: HostRuntime) {
    unopened_in_memory(rt.alloc()).expect(&rt, "as wanted");
}

#[test]
fn a_sink_that_fails_and_an_office_that_is_moved(rt: HostRuntime) {
    moved(rt.alloc()).expect(&rt, "as wanted");
}
