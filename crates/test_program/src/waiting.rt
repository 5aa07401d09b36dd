//! Connections that wait for one another, so that only a server that attends them side by side answers them all.

use testkit_program::{End, Held, Left, call_held};
use testkit_sessions::Call;

const SERVE: [&str; 5] = ["serve", "--connections", "4", "--key", "+founder-1"];

// The first connection enrols a caller, and asks for what its act was answered. It is held inside its first message
// until the second one was answered, so that its act is the later one.
const FIRST: &str = concat!(
    "POST /v1/act/1/enrol HTTP/1.1\r\n",
    "Desk-Key: +founder-1\r\n",
    "Content-Length: 51\r\n",
    "\r\n",
    "{\"key\":\"observer-1\",\"name\":\"Ann\",\"role\":\"observer\"}",
    "POST /v1/ask/receipt HTTP/1.1\r\n",
    "Desk-Key: +founder-1\r\n",
    "Content-Length: 1\r\n",
    "\r\n",
    "1",
);

const FIRST_ANSWERS: &str = concat!(
    "HTTP/1.1 200 OK\r\n",
    "Content-Length: 19\r\n",
    "Content-Type: text/plain\r\n",
    "\r\n",
    "receipt 2\n",
    "caller 2\n",
    "HTTP/1.1 200 OK\r\n",
    "Content-Length: 19\r\n",
    "Content-Type: text/plain\r\n",
    "\r\n",
    "receipt 2\n",
    "caller 2\n",
);

// The second connection does the same. It is held inside its first answer until the fourth one was answered, which can
// be only where it has given its turn back.
const SECOND: &str = concat!(
    "POST /v1/act/2/enrol HTTP/1.1\r\n",
    "Desk-Key: +founder-1\r\n",
    "Content-Length: 51\r\n",
    "\r\n",
    "{\"key\":\"observer-2\",\"name\":\"Bob\",\"role\":\"observer\"}",
    "POST /v1/ask/receipt HTTP/1.1\r\n",
    "Desk-Key: +founder-1\r\n",
    "Content-Length: 1\r\n",
    "\r\n",
    "2",
);

const SECOND_ANSWERS: &str = concat!(
    "HTTP/1.1 200 OK\r\n",
    "Content-Length: 19\r\n",
    "Content-Type: text/plain\r\n",
    "\r\n",
    "receipt 1\n",
    "caller 1\n",
    "HTTP/1.1 200 OK\r\n",
    "Content-Length: 19\r\n",
    "Content-Type: text/plain\r\n",
    "\r\n",
    "receipt 1\n",
    "caller 1\n",
);

// The third connection is held until the first two were answered. Its tally counts both acts.
const THIRD: &str = "GET /v1/ask/tally HTTP/1.1\r\nDesk-Key: +founder-1\r\n\r\n";

const THIRD_ANSWER: &str = concat!(
    "HTTP/1.1 200 OK\r\n",
    "Content-Length: 54\r\n",
    "Content-Type: text/plain\r\n",
    "\r\n",
    "entries 2\nisolated 0\nobjects 0\nretracted 0\naccepted 0\n",
);

// The fourth connection waits for nobody. Nobody has its key, whatever was enrolled before.
const FOURTH: &str = "GET /v1/ask/tally HTTP/1.1\r\nDesk-Key: nobody-here\r\n\r\n";

const FOURTH_ANSWER: &str = concat!(
    "HTTP/1.1 401 Unauthorized\r\n",
    "Content-Length: 21\r\n",
    "Content-Type: text/plain\r\n",
    "\r\n",
    "refused 2 UnknownKey\n",
);

/// The connections. The fourth one's answer has 96 bytes, the second one's answers have 168 and the first one's too.
const SENT: &[Held] = &[
    (FIRST, 264, 0),
    (SECOND, 0, 96),
    (THIRD, 432, 0),
    (FOURTH, 0, 0),
];

const WANTED: &[End] = &[
    (Left::Ended, FIRST_ANSWERS),
    (Left::Ended, SECOND_ANSWERS),
    (Left::Ended, THIRD_ANSWER),
    (Left::Ended, FOURTH_ANSWER),
];

#[test]
fn connections_side_by_side(rt: HostRuntime) {
    let call = Call {
        words: &SERVE,
        ..Call::run(b"", 2, b"connections 4\nentries 2\n")
    };
    let wrong = call_held(&rt, rt.alloc(), &call, SENT, WANTED);
    assert_eq!(rt; wrong.expect(&rt, "as wanted"), None);
}
