//! The ends of a run, in pieces of every size, and with each read and each write failing in turn.

use std::alloc::Global;
use testkit_sessions::{
    Call, FIRST, FIRST_ANSWER, FRAMES, Frames, Wrong, call_alone, whole_session,
};

/// The founder's first request, and after it a length with a leading zero.
const SECOND_IS_BAD: &str = concat!(
    "+founder-1 1 station 70\n",
    "{\"code\":\"703\",\"from\":\"1998-01-01\",\"name\":\"Catalina\",\"to\":\"2199-12-31\"}",
    "+founder-1 2 submit80 00\n",
);

/// A frame that the source's end cuts off.
const CUT: &str = "+founder-1 1 station 70\n{\"code\"";

/// The source's bytes, the read and the write that fail, the status and its number, the entries, the sink's bytes.
const ENDS: &[(&str, u64, u64, &str, u8, u64, &str)] = &[
    ("", 0, 0, "Done", 0, 0, ""),
    (FIRST, 0, 0, "Done", 0, 1, FIRST_ANSWER),
    (CUT, 0, 0, "BadFrame at 0", 3, 0, ""),
    (SECOND_IS_BAD, 0, 0, "BadFrame at 94", 3, 1, FIRST_ANSWER),
    (FIRST, 2, 0, "ReadFault", 6, 1, FIRST_ANSWER),
    (FIRST, 1, 0, "ReadFault", 6, 0, ""),
    (FIRST, 0, 1, "WriteFault", 7, 1, ""),
];

/// Each end by its place in the table.
fn ends(alloc: Global) -> Result<(), Wrong> {
    for (mark, &(bytes, read, write, status, number, added, taken)) in ENDS.iter().enumerate() {
        let call = Call {
            mark,
            read,
            write,
            status,
            number,
            ..Call::run(bytes.as_bytes(), added, taken.as_bytes())
        };
        call_alone(alloc, &call)?;
    }
    Ok(())
}

#[test]
fn ends_of_a_run(rt: HostRuntime) {
    ends(rt.alloc()).expect(&rt, "as wanted");
}

/// The session, of which a read gives at most so many bytes.
fn in_pieces(alloc: Global) -> Result<(), Wrong> {
    let session = Frames::of(alloc, &whole_session())?;
    let (bytes, taken) = (session.bytes(0, FRAMES), session.answers(0, FRAMES));
    let added = session.entries(FRAMES);
    for greatest in [1usize, 2, 3, 7, 64, 4096] {
        let call = Call {
            mark: greatest,
            greatest,
            ..Call::run(bytes, added, taken)
        };
        call_alone(alloc, &call)?;
    }
    Ok(())
}

#[test]
fn session_in_pieces(rt: HostRuntime) {
    in_pieces(rt.alloc()).expect(&rt, "as wanted");
}

/// Runs the session where the read after so many fails. Each read gives 7 bytes, or what is left of the session.
fn stopped_at_read(
    alloc: Global,
    session: &Frames,
    bytes: &[u8],
    reads: usize,
) -> Result<(), Wrong> {
    let whole = session.whole_in(reads.saturating_mul(7).min(bytes.len()));
    let taken = session.answers(0, whole);
    let call = Call {
        mark: reads,
        greatest: 7,
        read: (reads as u64).saturating_add(1),
        status: "ReadFault",
        number: 6,
        ..Call::run(bytes, session.entries(whole), taken)
    };
    call_alone(alloc, &call)
}

fn stopped_at_reads(alloc: Global) -> Result<(), Wrong> {
    let session = Frames::of(alloc, &whole_session())?;
    let bytes = session.bytes(0, FRAMES);
    for reads in 0..=bytes.len().div_ceil(7) {
        stopped_at_read(alloc, &session, bytes, reads)?;
    }
    Ok(())
}

#[test]
fn each_read_fails_in_turn(rt: HostRuntime) {
    stopped_at_reads(rt.alloc()).expect(&rt, "as wanted");
}

/// Runs the session where the write after so many fails. A reply is written in two pieces, its head and its text, so
/// the write tells the frame.
fn stopped_at_write(
    alloc: Global,
    session: &Frames,
    bytes: &[u8],
    before: usize,
) -> Result<(), Wrong> {
    let frame = before / 2;
    let after = frame.saturating_add(1);
    let whole = session.answers(0, frame);
    let more = session.answers(0, after);
    let call = Call {
        mark: before,
        write: (before as u64).saturating_add(1),
        status: "WriteFault",
        number: 7,
        least: Some(whole.len()),
        ..Call::run(bytes, session.entries(after), more)
    };
    call_alone(alloc, &call)
}

fn stopped_at_writes(alloc: Global) -> Result<(), Wrong> {
    let session = Frames::of(alloc, &whole_session())?;
    let bytes = session.bytes(0, FRAMES);
    for before in 0..2 * FRAMES {
        stopped_at_write(alloc, &session, bytes, before)?;
    }
    Ok(())
}

#[test]
fn each_write_fails_in_turn(rt: HostRuntime) {
    stopped_at_writes(rt.alloc()).expect(&rt, "as wanted");
}
