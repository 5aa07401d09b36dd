//! Two connections that both submit, of which the first is held inside its first message until the second was answered.

use testkit_program::{End, Held, Left, call_held};
use testkit_sessions::Call;

const SERVE: [&str; 5] = ["serve", "--connections", "4", "--key", "+founder-1"];

// Each observer submits a tracklet and asks for its own receipt.
const FIRST: &str = concat!(
    "POST /v1/act/1/submit80 HTTP/1.1\r\n",
    "Desk-Key: observer-1\r\n",
    "Content-Length: 162\r\n",
    "\r\n",
    "     P10abcd   2024 03 15.12345 06 12 34.56 +23 45 01.2                      703\n",
    "     P10abcd   2024 03 15.13345 06 12 35.10 +23 45 05.0                      703\n",
    "POST /v1/ask/receipt HTTP/1.1\r\n",
    "Desk-Key: observer-1\r\n",
    "Content-Length: 1\r\n",
    "\r\n",
    "1",
);

const FIRST_ANSWERS: &str = concat!(
    "HTTP/1.1 200 OK\r\n",
    "Content-Length: 73\r\n",
    "Content-Type: text/plain\r\n",
    "\r\n",
    "receipt 5\naccepted 2 refused 0\nline 1 obs 3 track 2\nline 2 obs 4 track 2\n",
    "HTTP/1.1 200 OK\r\n",
    "Content-Length: 73\r\n",
    "Content-Type: text/plain\r\n",
    "\r\n",
    "receipt 5\naccepted 2 refused 0\nline 1 obs 3 track 2\nline 2 obs 4 track 2\n",
);

const SECOND: &str = concat!(
    "POST /v1/act/1/submit80 HTTP/1.1\r\n",
    "Desk-Key: observer-2\r\n",
    "Content-Length: 162\r\n",
    "\r\n",
    "     P10abce   2024 03 15.14345 06 12 35.64 +23 45 08.8                      703\n",
    "     P10abce   2024 03 15.15345 06 12 36.18 +23 45 12.6                      703\n",
    "POST /v1/ask/receipt HTTP/1.1\r\n",
    "Desk-Key: observer-2\r\n",
    "Content-Length: 1\r\n",
    "\r\n",
    "1",
);

const SECOND_ANSWERS: &str = concat!(
    "HTTP/1.1 200 OK\r\n",
    "Content-Length: 73\r\n",
    "Content-Type: text/plain\r\n",
    "\r\n",
    "receipt 4\naccepted 2 refused 0\nline 1 obs 1 track 1\nline 2 obs 2 track 1\n",
    "HTTP/1.1 200 OK\r\n",
    "Content-Length: 73\r\n",
    "Content-Type: text/plain\r\n",
    "\r\n",
    "receipt 4\naccepted 2 refused 0\nline 1 obs 1 track 1\nline 2 obs 2 track 1\n",
);

// The founder enters the station and enrols both.
const FOUNDER: &str = concat!(
    "POST /v1/act/1/station HTTP/1.1\r\n",
    "Desk-Key: +founder-1\r\n",
    "Content-Length: 70\r\n",
    "\r\n",
    "{\"code\":\"703\",\"from\":\"1998-01-01\",\"name\":\"Catalina\",\"to\":\"2199-12-31\"}",
    "POST /v1/act/2/enrol HTTP/1.1\r\n",
    "Desk-Key: +founder-1\r\n",
    "Content-Length: 51\r\n",
    "\r\n",
    "{\"key\":\"observer-1\",\"name\":\"Ann\",\"role\":\"observer\"}",
    "POST /v1/act/3/enrol HTTP/1.1\r\n",
    "Desk-Key: +founder-1\r\n",
    "Content-Length: 51\r\n",
    "\r\n",
    "{\"key\":\"observer-2\",\"name\":\"Bob\",\"role\":\"observer\"}",
);

const FOUNDER_ANSWERS: &str = concat!(
    "HTTP/1.1 200 OK\r\n",
    "Content-Length: 10\r\n",
    "Content-Type: text/plain\r\n",
    "\r\n",
    "receipt 1\n",
    "HTTP/1.1 200 OK\r\n",
    "Content-Length: 19\r\n",
    "Content-Type: text/plain\r\n",
    "\r\n",
    "receipt 2\ncaller 1\n",
    "HTTP/1.1 200 OK\r\n",
    "Content-Length: 19\r\n",
    "Content-Type: text/plain\r\n",
    "\r\n",
    "receipt 3\ncaller 2\n",
);

// A tally counts both batches.
const LAST: &str = "GET /v1/ask/tally HTTP/1.1\r\nDesk-Key: +founder-1\r\n\r\n";

const LAST_ANSWER: &str = concat!(
    "HTTP/1.1 200 OK\r\n",
    "Content-Length: 54\r\n",
    "Content-Type: text/plain\r\n",
    "\r\n",
    "entries 5\nisolated 4\nobjects 0\nretracted 0\naccepted 4\n",
);

/// The connections. The founder's answers have 243 bytes, and each observer's 276: the second observer awaits the
/// founder's, the first one the second one's too, and the last connection all of them.
const SENT: &[Held] = &[
    (FIRST, 519, 0),
    (SECOND, 243, 0),
    (FOUNDER, 0, 0),
    (LAST, 795, 0),
];

const WANTED: &[End] = &[
    (Left::Ended, FIRST_ANSWERS),
    (Left::Ended, SECOND_ANSWERS),
    (Left::Ended, FOUNDER_ANSWERS),
    (Left::Ended, LAST_ANSWER),
];

#[test]
fn two_that_submit(rt: HostRuntime) {
    let call = Call {
        words: &SERVE,
        ..Call::run(b"", 5, b"connections 4\nentries 5\n")
    };
    let wrong = call_held(&rt, rt.alloc(), &call, SENT, WANTED);
    assert_eq!(rt; wrong.expect(&rt, "as wanted"), None);
}
