//! Connections that come through a door in memory.

use testkit_program::{End, Left, Sent, call_over_links};
use testkit_sessions::Call;

const SERVE: [&str; 5] = ["serve", "--connections", "3", "--key", "+founder-1"];

const ENROL: &str = concat!(
    "POST /v1/act/1/enrol HTTP/1.1\r\n",
    "Host: localhost\r\n",
    "Desk-Key: +founder-1\r\n",
    "Content-Length: 51\r\n",
    "\r\n",
    "{\"key\":\"observer-1\",\"name\":\"Ann\",\"role\":\"observer\"}",
);

const ENROLLED: &str = concat!(
    "HTTP/1.1 200 OK\r\n",
    "Content-Length: 19\r\n",
    "Content-Type: text/plain\r\n",
    "\r\n",
    "receipt 1\n",
    "caller 1\n",
);

const TALLY: &str = "GET /v1/ask/tally HTTP/1.1\r\nDesk-Key: +founder-1\r\n\r\n";

const TALLIED: &str = concat!(
    "HTTP/1.1 200 OK\r\n",
    "Content-Length: 54\r\n",
    "Content-Type: text/plain\r\n",
    "\r\n",
    "entries 0\nisolated 0\nobjects 0\nretracted 0\naccepted 0\n",
);

const CHUNKED: &str = "POST /v1/act/1/enrol HTTP/1.1\r\nTransfer-Encoding: chunked\r\n\r\n";

const UNREAD: &str = concat!(
    "HTTP/1.1 400 Bad Request\r\n",
    "Content-Length: 22\r\n",
    "Content-Type: text/plain\r\n",
    "Connection: close\r\n",
    "\r\n",
    "refused 1 Unread head\n",
);

/// The links of a call, the call of the door that fails, the status and its number, the entries, what is written, and
/// how the links end.
const ROWS: &[(&[Sent], u64, &str, u8, u64, &str, &[End])] = &[
    (
        &[(ENROL, 0)],
        0,
        "Done",
        0,
        1,
        "connections 1\nentries 1\n",
        &[(Left::Ended, ENROLLED)],
    ),
    (
        &[(TALLY, 0), (ENROL, 1), (TALLY, 0)],
        0,
        "Done",
        0,
        0,
        "connections 3\nentries 0\n",
        &[
            (Left::Ended, TALLIED),
            (Left::ReadFault, ""),
            (Left::Ended, TALLIED),
        ],
    ),
    (
        &[(CHUNKED, 0)],
        0,
        "Done",
        0,
        0,
        "connections 1\nentries 0\n",
        &[(Left::Unread, UNREAD)],
    ),
    (&[("", 0)], 2, "DoorFault", 9, 0, "", &[(Left::Ended, "")]),
];

#[test]
fn connections(rt: HostRuntime) {
    for &(links, fails, status, number, added, taken, wanted) in ROWS {
        let call = Call {
            words: &SERVE,
            status,
            number,
            ..Call::run(b"", added, taken.as_bytes())
        };
        let wrong = call_over_links(&rt, rt.alloc(), &call, links, fails, wanted);
        assert_eq!(rt; wrong.expect(&rt, "as wanted"), None);
    }
}
