//! A connection that is held at each place while another one is answered: the turn is never held over a device of a
//! connection.

use std::alloc::Global;
use std::sync::Wait;
use std::thread::Threads;
use testkit_program::{End, Left, Place, call_met};
use testkit_sessions::{Call, Wrong};

const SERVE: [&str; 5] = ["serve", "--connections", "2", "--key", "+founder-1"];

// Two messages of 126 bytes each, a head of 75 and a body of 51. They are sent in pieces of seven bytes.
const HELD: &str = concat!(
    "POST /v1/act/1/enrol HTTP/1.1\r\n",
    "Desk-Key: +founder-1\r\n",
    "Content-Length: 51\r\n",
    "\r\n",
    "{\"key\":\"observer-1\",\"name\":\"Ann\",\"role\":\"observer\"}",
    "POST /v1/act/2/enrol HTTP/1.1\r\n",
    "Desk-Key: +founder-1\r\n",
    "Content-Length: 51\r\n",
    "\r\n",
    "{\"key\":\"observer-2\",\"name\":\"Bob\",\"role\":\"observer\"}",
);

// Two answers of 84 bytes each, a head of 65 and a text of 19.
const HELD_ANSWERS: &str = concat!(
    "HTTP/1.1 200 OK\r\n",
    "Content-Length: 19\r\n",
    "Content-Type: text/plain\r\n",
    "\r\n",
    "receipt 1\n",
    "caller 1\n",
    "HTTP/1.1 200 OK\r\n",
    "Content-Length: 19\r\n",
    "Content-Type: text/plain\r\n",
    "\r\n",
    "receipt 2\n",
    "caller 2\n",
);

// The other connection asks how many entries there are.
const OTHER: &str = "GET /v1/ask/tally HTTP/1.1\r\nDesk-Key: +founder-1\r\n\r\n";

/// How many bytes the other one's answer has, whatever it tells.
const OTHER_BYTES: u64 = 119;

const NO_ENTRY: &str = concat!(
    "HTTP/1.1 200 OK\r\n",
    "Content-Length: 54\r\n",
    "Content-Type: text/plain\r\n",
    "\r\n",
    "entries 0\nisolated 0\nobjects 0\nretracted 0\naccepted 0\n",
);

const ONE_ENTRY: &str = concat!(
    "HTTP/1.1 200 OK\r\n",
    "Content-Length: 54\r\n",
    "Content-Type: text/plain\r\n",
    "\r\n",
    "entries 1\nisolated 0\nobjects 0\nretracted 0\naccepted 0\n",
);

const TWO_ENTRIES: &str = concat!(
    "HTTP/1.1 200 OK\r\n",
    "Content-Length: 54\r\n",
    "Content-Type: text/plain\r\n",
    "\r\n",
    "entries 2\nisolated 0\nobjects 0\nretracted 0\naccepted 0\n",
);

/// A place where the one connection is held, and what the other one is answered meanwhile: the acts that were taken
/// before are there.
type Row = (Place, &'static str);

/// Inside a head: the first and the second message's, after 14 and after 35 of its bytes.
const HEADS: &[Row] = &[(Place::Sent(14), NO_ENTRY), (Place::Sent(161), ONE_ENTRY)];

/// Inside a body: the first and the second message's, after 23 of its bytes.
const BODIES: &[Row] = &[(Place::Sent(98), NO_ENTRY), (Place::Sent(224), ONE_ENTRY)];

/// Before a message: the first and the second one.
const MESSAGES: &[Row] = &[(Place::Sent(0), NO_ENTRY), (Place::Sent(126), ONE_ENTRY)];

/// Before an answer and inside its head and its text: the first one's, and the second one's.
const ANSWERS: &[Row] = &[
    (Place::Answered(0), ONE_ENTRY),
    (Place::Answered(40), ONE_ENTRY),
    (Place::Answered(75), ONE_ENTRY),
    (Place::Answered(84), TWO_ENTRIES),
    (Place::Answered(124), TWO_ENTRIES),
    (Place::Answered(159), TWO_ENTRIES),
];

/// At its end: all is answered, and nothing more comes.
const END: &[Row] = &[(Place::Sent(252), TWO_ENTRIES)];

/// The first of these places at which the two are answered otherwise.
fn wrong_place<R: Threads + Wait + Sync>(
    rt: &R,
    alloc: Global,
    rows: &[Row],
) -> Result<Option<Place>, Wrong> {
    let call = Call {
        words: &SERVE,
        ..Call::run(b"", 2, b"connections 2\nentries 2\n")
    };
    for &(place, meanwhile) in rows {
        let wanted: [End; 2] = [(Left::Ended, HELD_ANSWERS), (Left::Ended, meanwhile)];
        let other = (OTHER, OTHER_BYTES);
        if call_met(rt, alloc, &call, HELD, place, other, &wanted)?.is_some() {
            return Ok(Some(place));
        }
    }
    Ok(None)
}

#[test]
fn inside_a_head(rt: HostRuntime) {
    let wrong = wrong_place(&rt, rt.alloc(), HEADS);
    assert_eq!(rt; wrong.expect(&rt, "as wanted"), None);
}

#[test]
fn inside_a_body(rt: HostRuntime) {
    let wrong = wrong_place(&rt, rt.alloc(), BODIES);
    assert_eq!(rt; wrong.expect(&rt, "as wanted"), None);
}

#[test]
fn before_a_message(rt: HostRuntime) {
    let wrong = wrong_place(&rt, rt.alloc(), MESSAGES);
    assert_eq!(rt; wrong.expect(&rt, "as wanted"), None);
}

#[test]
fn inside_an_answer(rt: HostRuntime) {
    let wrong = wrong_place(&rt, rt.alloc(), ANSWERS);
    assert_eq!(rt; wrong.expect(&rt, "as wanted"), None);
}

#[test]
fn at_its_end(rt: HostRuntime) {
    let wrong = wrong_place(&rt, rt.alloc(), END);
    assert_eq!(rt; wrong.expect(&rt, "as wanted"), None);
}
