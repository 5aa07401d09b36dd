//! One connection over a real socket of this machine.

use testkit_program::{is_free, serve_peer};
use testkit_sessions::Call;

const SERVE: [&str; 5] = ["serve", "--connections", "1", "--key", "+founder-1"];

/// An act, and a query after which the connection is left.
const SENT: &str = concat!(
    "POST /v1/act/1/enrol HTTP/1.1\r\n",
    "Host: localhost\r\n",
    "Desk-Key: +founder-1\r\n",
    "Content-Length: 51\r\n",
    "\r\n",
    "{\"key\":\"observer-1\",\"name\":\"Ann\",\"role\":\"observer\"}",
    "GET /v1/ask/tally HTTP/1.1\r\n",
    "Desk-Key: observer-1\r\n",
    "Connection: close\r\n",
    "\r\n",
);

const ANSWER: &str = concat!(
    "HTTP/1.1 200 OK\r\n",
    "Content-Length: 19\r\n",
    "Content-Type: text/plain\r\n",
    "\r\n",
    "receipt 1\n",
    "caller 1\n",
    "HTTP/1.1 200 OK\r\n",
    "Content-Length: 54\r\n",
    "Content-Type: text/plain\r\n",
    "Connection: close\r\n",
    "\r\n",
    "entries 1\nisolated 0\nobjects 0\nretracted 0\naccepted 0\n",
);

#[test]
fn an_act_over_a_socket(rt: HostRuntime) {
    assert!(rt; is_free(&rt));
    let call = Call {
        words: &SERVE,
        ..Call::run(b"", 1, b"connections 1\nentries 1\n")
    };
    let served = serve_peer(&rt, rt, rt.alloc(), &call, SENT).expect(&rt, "as wanted");
    let answer = served.answer.expect(&rt, "an answer");
    assert_eq!(rt; answer.as_slice(), ANSWER.as_bytes());
    assert_eq!(rt; served.links, 1);
}
