//! A target that names nothing: its connection goes on.

use testkit_program::{Left, call_over_links};
use testkit_sessions::Call;

const SERVE: [&str; 5] = ["serve", "--connections", "1", "--key", "+founder-1"];

const SENT: &str = concat!(
    "GET / HTTP/1.1\r\n",
    "\r\n",
    "GET /v1/ask/tally HTTP/1.1\r\n",
    "Desk-Key: +founder-1\r\n",
    "\r\n",
);

const ANSWERED: &str = concat!(
    "HTTP/1.1 400 Bad Request\r\n",
    "Content-Length: 22\r\n",
    "Content-Type: text/plain\r\n",
    "\r\n",
    "refused 1 Unread verb\n",
    "HTTP/1.1 200 OK\r\n",
    "Content-Length: 54\r\n",
    "Content-Type: text/plain\r\n",
    "\r\n",
    "entries 0\nisolated 0\nobjects 0\nretracted 0\naccepted 0\n",
);

#[test]
fn target_that_names_nothing(rt: HostRuntime) {
    let call = Call {
        words: &SERVE,
        ..Call::run(b"", 0, b"connections 1\nentries 0\n")
    };
    let wanted = [(Left::Ended, ANSWERED)];
    let wrong = call_over_links(&rt, rt.alloc(), &call, &[(SENT, 0)], 0, &wanted);
    assert_eq!(rt; wrong.expect(&rt, "as wanted"), None);
}
