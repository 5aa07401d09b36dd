//! Answers that are written into a sink in memory.

use act_model::{Excess, Part, Refusal, Reply};
use desk_http::{SendFault, write_reply};
use desk_io::MemSink;
use item_list::Bytes;
use std::alloc::Global;

const DONE: &str = concat!(
    "HTTP/1.1 200 OK\r\n",
    "Content-Length: 10\r\n",
    "Content-Type: text/plain\r\n",
    "\r\n",
    "receipt 1\n",
);

const UNREAD_VERB: &str = concat!(
    "HTTP/1.1 400 Bad Request\r\n",
    "Content-Length: 22\r\n",
    "Content-Type: text/plain\r\n",
    "Connection: close\r\n",
    "\r\n",
    "refused 1 Unread verb\n",
);

const TOO_LARGE: &str = concat!(
    "HTTP/1.1 413 Content Too Large\r\n",
    "Content-Length: 32\r\n",
    "Content-Type: text/plain\r\n",
    "\r\n",
    "refused 14 TooLarge lines 10001\n",
);

const NO_MEMORY: &str = concat!(
    "HTTP/1.1 507 Insufficient Storage\r\n",
    "Content-Length: 20\r\n",
    "Content-Type: text/plain\r\n",
    "\r\n",
    "refused 17 NoMemory\n",
);

// Whether an answer is sent so into a sink of so many bytes, and the sink has this then; false where memory was
// refused, here and below.
fn is_sent(
    alloc: Global,
    room: usize,
    reply: &Reply,
    last: bool,
    want: Result<(), SendFault>,
    taken: &str,
) -> bool {
    match MemSink::new(alloc, room, &[]) {
        Ok(mut sink) => {
            write_reply(alloc, &mut sink, reply, last) == want && sink.bytes() == taken.as_bytes()
        }
        Err(_) => false,
    }
}

fn is_refused(alloc: Global, refusal: Refusal, last: bool, taken: &str) -> bool {
    is_sent(alloc, 400, &Reply::Refused(refusal), last, Ok(()), taken)
}

fn is_done(alloc: Global) -> bool {
    match Bytes::from_slice(alloc, b"receipt 1\n") {
        Ok(text) => is_sent(alloc, 400, &Reply::Done(text), false, Ok(()), DONE),
        Err(_) => false,
    }
}

#[test]
fn done(rt: HostRuntime) {
    assert!(rt; is_done(rt.alloc()));
}

#[test]
fn refused(rt: HostRuntime) {
    let unread = is_refused(rt.alloc(), Refusal::Unread(Part::Verb), true, UNREAD_VERB);
    assert!(rt; unread);
    let excess = Excess::Lines(10_001);
    let too_large = is_refused(rt.alloc(), Refusal::TooLarge(excess), false, TOO_LARGE);
    assert!(rt; too_large);
    let no_memory = is_refused(rt.alloc(), Refusal::NoMemory, false, NO_MEMORY);
    assert!(rt; no_memory);
}

fn is_cut_off(alloc: Global) -> bool {
    let reply = Reply::Refused(Refusal::Role);
    is_sent(
        alloc,
        12,
        &reply,
        false,
        Err(SendFault::WriteFault),
        "HTTP/1.1 403",
    )
}

#[test]
fn answer_into_a_narrow_sink(rt: HostRuntime) {
    assert!(rt; is_cut_off(rt.alloc()));
}

// Answers 200 with so many bytes of text, into a sink of which the write with this number fails, and whether they are
// sent. The head has 67 bytes beside a text of four digits, so that the second answer has 4,096 bytes and leaves in one
// write, and the third one has a byte more and takes two; the last one takes no third.
const WRITES: &[(u64, u64, bool)] = &[
    (10, 1, false),
    (10, 2, true),
    (4_029, 2, true),
    (4_030, 2, false),
    (4_030, 3, true),
    (1_000_000, 2, false),
    (1_000_000, 3, true),
];

// Whether such an answer is sent, or isn't, as it is wanted.
fn is_written(alloc: Global, size: u64, fails: u64, is_wanted: bool) -> bool {
    let mut text = Bytes::new(alloc);
    for _ in 0..size {
        if text.push(b'x').is_err() {
            return false;
        }
    }
    match MemSink::new(alloc, 2_000_000, &[fails]) {
        Ok(mut sink) => {
            write_reply(alloc, &mut sink, &Reply::Done(text), false).is_ok() == is_wanted
        }
        Err(_) => false,
    }
}

// The first row that is written otherwise, counted from 0; None where there is none.
fn wrong_write(alloc: Global, rows: &[(u64, u64, bool)]) -> Option<usize> {
    for (place, &(size, fails, is_wanted)) in rows.iter().enumerate() {
        if !is_written(alloc, size, fails, is_wanted) {
            return Some(place);
        }
    }
    None
}

#[test]
fn writes_of_an_answer(rt: HostRuntime) {
    assert_eq!(rt; wrong_write(rt.alloc(), WRITES), None);
}
