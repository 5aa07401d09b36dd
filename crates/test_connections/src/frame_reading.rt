//! Tests of frames that are read from a source in any pieces, and of replies that are written.

use crate::tables::expect_none_wrong;
use desk_io::{MemSink, MemSource, NoMemory, Sink, Source};
use frame_reader::{Body, FrameReader, Halt, ReadFrame, write_reply_frame};
use std::alloc::Global;

// Three frames, one at once after the other.
const SESSION: &str =
    "+founder-1 1 submit80 11\nCOD 703\nabcnobody-here 2 tally 0\n+founder-1 3 station 5\n{} {}";

// The key, number, verb, body and size of a frame.
type Parts = (&'static str, u64, &'static str, &'static str, u64);

// The frames of the session.
const FRAMES: [Parts; 3] = [
    ("+founder-1", 1, "submit80", "COD 703\nabc", 36),
    ("nobody-here", 2, "tally", "", 22),
    ("+founder-1", 3, "station", "{} {}", 28),
];

// What a reader found.
#[derive(Clone, Copy, PartialEq, Eq)]
enum Found {
    Wanted,
    OtherFrame,
    End,
    Bad,
    Failed,
}

fn has_body(body: &Body, want: &str) -> bool {
    match body {
        Body::Whole(bytes) => bytes.as_slice() == want.as_bytes(),
        Body::TooLong(_) => false,
        Body::NoRoom => false,
    }
}

// Whether these are all the parts of the frame that was read.
fn is_read(read: &ReadFrame, want: Parts) -> bool {
    let (key, number, verb, body, size) = want;
    let has_head = read.key.as_slice() == key.as_bytes() && read.verb.as_slice() == verb.as_bytes();
    has_head && read.number == number && read.size == size && has_body(&read.body, body)
}

// Looks for this frame.
fn look_for<S: Source>(source: &mut S, reader: &mut FrameReader, want: Parts) -> Found {
    match reader.next_frame(source) {
        Ok(read) => {
            if is_read(&read, want) {
                Found::Wanted
            } else {
                Found::OtherFrame
            }
        }
        Err(Halt::End) => Found::End,
        Err(Halt::Bad) => Found::Bad,
        Err(Halt::Failed) => Found::Failed,
    }
}

// Reads the frames of the session until another answer comes: how many came, and that answer.
fn frames_until<S: Source>(source: &mut S, reader: &mut FrameReader) -> (usize, Found) {
    for (count, want) in FRAMES.iter().enumerate() {
        let found = look_for(source, reader, *want);
        if found != Found::Wanted {
            return (count, found);
        }
    }
    (FRAMES.len(), look_for(source, reader, FRAMES[0]))
}

// The same for a source in memory, of which a read gives at most `greatest` bytes and the reads numbered in `fails`
// fail; None where no source can be made: where reads would give nothing, or memory was refused.
fn frames_in(
    alloc: Global,
    bytes: &[u8],
    greatest: usize,
    fails: &[u64],
) -> Option<(usize, Found)> {
    if greatest == 0 {
        return None;
    }
    let mut source = MemSource::new(alloc, bytes, greatest, fails).ok()?;
    let mut reader = FrameReader::new(alloc).ok()?;
    Some(frames_until(&mut source, &mut reader))
}

// How many bytes of the session there are, the most that one read gives, the read that fails (0 for none),
// how many frames come, and why no more.
type Case = (usize, usize, u64, usize, Found);

const CASES: &[Case] = &[
    (86, 1, 0, 3, Found::End),
    (86, 2, 0, 3, Found::End),
    (86, 3, 0, 3, Found::End),
    (86, 7, 0, 3, Found::End),
    (86, 64, 0, 3, Found::End),
    (86, 86, 0, 3, Found::End),
    (0, 1, 0, 0, Found::End),
    (58, 5, 0, 2, Found::End),
    (1, 1, 0, 0, Found::Bad),
    (35, 64, 0, 0, Found::Bad),
    (37, 64, 0, 1, Found::Bad),
    (86, 7, 2, 0, Found::Failed),
    (86, 30, 2, 0, Found::Failed),
    (86, 64, 2, 2, Found::Failed),
];

// The frames in the first so many bytes of the session; None where it hasn't as many.
fn frames_at_front(
    alloc: Global,
    length: usize,
    greatest: usize,
    fails: u64,
) -> Option<(usize, Found)> {
    if length > SESSION.len() {
        return None;
    }
    let (bytes, _) = SESSION.as_bytes().split_at(length);
    frames_in(alloc, bytes, greatest, &[fails])
}

// The first case in which other frames come, counted from 0; None where there is none. So are those below.
fn wrong_case(alloc: Global, cases: &[Case]) -> Option<usize> {
    for (row, &(length, greatest, fails, frames, ending)) in cases.iter().enumerate() {
        if frames_at_front(alloc, length, greatest, fails) != Some((frames, ending)) {
            return Some(row);
        }
    }
    None
}

#[test]
fn frames_in_pieces(rt: HostRuntime) {
    expect_none_wrong(&rt, wrong_case(rt.alloc(), CASES));
}

// What is said of a body: how long it is, and whether it was kept.
#[derive(Clone, Copy, PartialEq, Eq)]
enum Told {
    Whole(u64),
    TooLong(u64),
    NoRoom,
    NoFrame,
}

fn body_told(body: &Body) -> Told {
    match body {
        Body::Whole(bytes) => Told::Whole(bytes.len()),
        Body::TooLong(size) => Told::TooLong(*size),
        Body::NoRoom => Told::NoRoom,
    }
}

fn next_body<S: Source>(source: &mut S, reader: &mut FrameReader) -> Told {
    match reader.next_frame(source) {
        Ok(read) => body_told(&read.body),
        Err(_) => Told::NoFrame,
    }
}

// What is said of the next three bodies.
fn three_bodies<S: Source>(source: &mut S, reader: &mut FrameReader) -> [Told; 3] {
    let first = next_body(source, reader);
    let second = next_body(source, reader);
    [first, second, next_body(source, reader)]
}

// A frame with this head that takes so many bytes, and after it a frame without a body.
fn long_session(alloc: Global, head: &str, size: usize) -> Result<Vec<u8>, NoMemory> {
    let mut bytes = Vec::from_slice(alloc, head.as_bytes())?;
    bytes.resize(size, b'x')?;
    bytes.extend_from_slice(b"k 1 v 0\n")?;
    Ok(bytes)
}

// What is said of the first three bodies of that session; None where memory was refused.
fn bodies_of(alloc: Global, head: &str, size: usize) -> Option<[Told; 3]> {
    let bytes = long_session(alloc, head, size).ok()?;
    let mut source = MemSource::new(alloc, &bytes, 60_000, &[]).ok()?;
    let mut reader = FrameReader::new(alloc).ok()?;
    Some(three_bodies(&mut source, &mut reader))
}

// A head, how many bytes its frame takes, and what is said of its body.
type LongCase = (&'static str, usize, Told);

const LONG: &[LongCase] = &[
    ("k 0 v 150000\n", 150_013, Told::Whole(150_000)),
    ("k 0 v 1048576\n", 1_048_590, Told::Whole(1_048_576)),
    ("k 0 v 1048577\n", 1_048_591, Told::TooLong(1_048_577)),
];

fn wrong_long(alloc: Global, cases: &[LongCase]) -> Option<usize> {
    for (row, &(head, size, want)) in cases.iter().enumerate() {
        if bodies_of(alloc, head, size) != Some([want, Told::Whole(0), Told::NoFrame]) {
            return Some(row);
        }
    }
    None
}

#[test]
fn long_bodies(rt: HostRuntime) {
    expect_none_wrong(&rt, wrong_long(rt.alloc(), LONG));
}

const NEVER: &[&str] = &[
    "k 0 v 9999999999\nabc",
    "k 0 v 10000000000\n",
    "k 0 v 01\nx",
    "\n",
];

fn wrong_text(alloc: Global, texts: &[&str]) -> Option<usize> {
    for (row, text) in texts.iter().enumerate() {
        if frames_in(alloc, text.as_bytes(), 64, &[]) != Some((0, Found::Bad)) {
            return Some(row);
        }
    }
    None
}

#[test]
fn frames_that_never_come(rt: HostRuntime) {
    expect_none_wrong(&rt, wrong_text(rt.alloc(), NEVER));
}

// Whether the first and the second of two replies are written.
fn two_replies<K: Sink>(sink: &mut K) -> (bool, bool) {
    let first = write_reply_frame(sink, 200, b"receipt 1\n").is_ok();
    (first, write_reply_frame(sink, 409, b"").is_ok())
}

// The same of a sink with so much room, and whether it has taken these bytes; None where memory was refused.
fn replies_into(alloc: Global, room: usize, taken: &[u8]) -> Option<((bool, bool), bool)> {
    let mut sink = MemSink::new(alloc, room, &[]).ok()?;
    let written = two_replies(&mut sink);
    Some((written, sink.bytes() == taken))
}

#[test]
fn reply_into_a_sink(rt: HostRuntime) {
    let found = replies_into(rt.alloc(), 40, b"200 10\nreceipt 1\n409 0\n");
    assert_eq!(rt; found, Some(((true, true), true)));
}

#[test]
fn reply_into_a_narrow_sink(rt: HostRuntime) {
    let found = replies_into(rt.alloc(), 9, b"200 10\nre");
    assert_eq!(rt; found, Some(((false, false), true)));
}
