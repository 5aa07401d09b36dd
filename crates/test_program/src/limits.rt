//! Messages that an office can't read, or that are at its limits: what each is answered, and whether its connection
//! goes on.

use testkit_program::{Exchanged, Left, call_over_long_links};
use testkit_sessions::Call;

const SERVE: [&str; 5] = ["serve", "--connections", "10", "--key", "+founder-1"];

/// An enrolment that says the length of its body twice.
const TWICE: &str = concat!(
    "POST /v1/act/1/enrol HTTP/1.1\r\n",
    "Desk-Key: +founder-1\r\n",
    "Content-Length: 51\r\n",
    "Content-Length: 51\r\n",
    "\r\n",
    "{\"key\":\"observer-1\",\"name\":\"Ann\",\"role\":\"observer\"}",
);

/// A length of 11 digits.
const ELEVEN_DIGITS: &str = concat!(
    "POST /v1/act/1/enrol HTTP/1.1\r\n",
    "Desk-Key: +founder-1\r\n",
    "Content-Length: 00000000051\r\n",
    "\r\n",
    "{\"key\":\"observer-1\",\"name\":\"Ann\",\"role\":\"observer\"}",
);

/// The last byte of the body doesn't come.
const CUT: &str = concat!(
    "POST /v1/act/1/enrol HTTP/1.1\r\n",
    "Desk-Key: +founder-1\r\n",
    "Content-Length: 51\r\n",
    "\r\n",
    "{\"key\":\"observer-1\",\"name\":\"Ann\",\"role\":\"observer\"",
);

const UNREAD: &str = concat!(
    "HTTP/1.1 400 Bad Request\r\n",
    "Content-Length: 22\r\n",
    "Content-Type: text/plain\r\n",
    "Connection: close\r\n",
    "\r\n",
    "refused 1 Unread head\n",
);

const TALLY: &str = "GET /v1/ask/tally HTTP/1.1\r\nDesk-Key: +founder-1\r\n\r\n";

const TALLIED: &str = concat!(
    "HTTP/1.1 200 OK\r\n",
    "Content-Length: 54\r\n",
    "Content-Type: text/plain\r\n",
    "\r\n",
    "entries 0\nisolated 0\nobjects 0\nretracted 0\naccepted 0\n",
);

const TALLIED_LAST: &str = concat!(
    "HTTP/1.1 200 OK\r\n",
    "Content-Length: 54\r\n",
    "Content-Type: text/plain\r\n",
    "Connection: close\r\n",
    "\r\n",
    "entries 0\nisolated 0\nobjects 0\nretracted 0\naccepted 0\n",
);

/// A number with a zero in front is none.
const ZERO_IN_FRONT: &str = concat!(
    "POST /v1/act/01/enrol HTTP/1.1\r\n",
    "Desk-Key: +founder-1\r\n",
    "Content-Length: 51\r\n",
    "\r\n",
    "{\"key\":\"observer-1\",\"name\":\"Ann\",\"role\":\"observer\"}",
    "GET /v1/ask/tally HTTP/1.1\r\n",
    "Desk-Key: +founder-1\r\n",
    "\r\n",
);

const UNREAD_NUMBER: &str = concat!(
    "HTTP/1.1 400 Bad Request\r\n",
    "Content-Length: 24\r\n",
    "Content-Type: text/plain\r\n",
    "\r\n",
    "refused 1 Unread number\n",
    "HTTP/1.1 200 OK\r\n",
    "Content-Length: 54\r\n",
    "Content-Type: text/plain\r\n",
    "\r\n",
    "entries 0\nisolated 0\nobjects 0\nretracted 0\naccepted 0\n",
);

/// A body of one byte more than 1 MiB, which is thrown away.
const TOO_LARGE: &str = concat!(
    "POST /v1/act/1/enrol HTTP/1.1\r\n",
    "Desk-Key: +founder-1\r\n",
    "Content-Length: 1048577\r\n",
    "\r\n",
);

const TOO_LARGE_BYTES: &str = concat!(
    "HTTP/1.1 413 Content Too Large\r\n",
    "Content-Length: 34\r\n",
    "Content-Type: text/plain\r\n",
    "\r\n",
    "refused 14 TooLarge bytes 1048577\n",
    "HTTP/1.1 200 OK\r\n",
    "Content-Length: 54\r\n",
    "Content-Type: text/plain\r\n",
    "\r\n",
    "entries 0\nisolated 0\nobjects 0\nretracted 0\naccepted 0\n",
);

/// A body of 1 MiB that is no enrolment.
const LARGEST: &str = concat!(
    "POST /v1/act/1/enrol HTTP/1.1\r\n",
    "Desk-Key: +founder-1\r\n",
    "Content-Length: 1048576\r\n",
    "\r\n",
);

const UNREAD_BODY: &str = concat!(
    "HTTP/1.1 400 Bad Request\r\n",
    "Content-Length: 22\r\n",
    "Content-Type: text/plain\r\n",
    "\r\n",
    "refused 1 Unread body\n",
    "HTTP/1.1 200 OK\r\n",
    "Content-Length: 54\r\n",
    "Content-Type: text/plain\r\n",
    "\r\n",
    "entries 0\nisolated 0\nobjects 0\nretracted 0\naccepted 0\n",
);

/// A batch of ten lines that are too short.
const TEN_LINES: &str = concat!(
    "POST /v1/act/1/submit80 HTTP/1.1\r\n",
    "Desk-Key: +founder-1\r\n",
    "Content-Length: 20\r\n",
    "\r\n",
);

const TEN_FAULTS: &str = concat!(
    "HTTP/1.1 422 Unprocessable Content\r\n",
    "Content-Length: 198\r\n",
    "Content-Type: text/plain\r\n",
    "\r\n",
    "refused 7 NoLine\n",
    "line 1 refused S1\n",
    "line 2 refused S1\n",
    "line 3 refused S1\n",
    "line 4 refused S1\n",
    "line 5 refused S1\n",
    "line 6 refused S1\n",
    "line 7 refused S1\n",
    "line 8 refused S1\n",
    "line 9 refused S1\n",
    "line 10 refused S1\n",
);

const LINKS: &[Exchanged] = &[
    (
        (ELEVEN_DIGITS, "", 0, ""),
        Left::Unread,
        (UNREAD, "", 0, ""),
    ),
    ((TWICE, "", 0, ""), Left::Unread, (UNREAD, "", 0, "")),
    (
        ("GET /v1/ask/tally HTTP/1.1\r\n", "a:b\r\n", 33, "\r\n"),
        Left::Unread,
        (UNREAD, "", 0, ""),
    ),
    // 8,192 bytes in which no head ends: its line has 28, the field's name and colon two.
    (
        ("GET /v1/ask/tally HTTP/1.1\r\na:", "x", 8_162, ""),
        Left::Unread,
        (UNREAD, "", 0, ""),
    ),
    ((CUT, "", 0, ""), Left::Unread, (UNREAD, "", 0, "")),
    (
        (ZERO_IN_FRONT, "", 0, ""),
        Left::Ended,
        (UNREAD_NUMBER, "", 0, ""),
    ),
    (
        (TOO_LARGE, "x", 1_048_577, TALLY),
        Left::Ended,
        (TOO_LARGE_BYTES, "", 0, ""),
    ),
    (
        (LARGEST, "x", 1_048_576, TALLY),
        Left::Ended,
        (UNREAD_BODY, "", 0, ""),
    ),
    (
        (TEN_LINES, "x\n", 10, ""),
        Left::Ended,
        (TEN_FAULTS, "", 0, ""),
    ),
    // The thousandth answer is the last.
    (
        ("", TALLY, 1_001, ""),
        Left::Enough,
        ("", TALLIED, 999, TALLIED_LAST),
    ),
];

#[test]
fn messages_at_their_limits(rt: HostRuntime) {
    let call = Call {
        words: &SERVE,
        ..Call::run(b"", 0, b"connections 10\nentries 0\n")
    };
    let wrong = call_over_long_links(&rt, rt.alloc(), &call, LINKS);
    assert_eq!(rt; wrong.expect(&rt, "as wanted"), None);
}
