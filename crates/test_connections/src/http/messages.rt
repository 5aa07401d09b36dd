//! Messages in memory, heard.

use std::alloc::Global;
use testkit_messages::{Want, is_heard};

// A text, and what is heard first of it.
type Row = (&'static str, Want);

const ROUTES: &[Row] = &[
    (
        "POST /v1/act/7/submit80 HTTP/1.1\r\n\r\n",
        Want::Asks("", Some(7), "submit80", "", false),
    ),
    (
        "POST /v1/act/0/enrol HTTP/1.1\r\n\r\n",
        Want::Asks("", Some(0), "enrol", "", false),
    ),
    (
        "POST /v1/act/1/station HTTP/1.1\r\n\r\n",
        Want::Asks("", Some(1), "station", "", false),
    ),
    (
        "POST /v1/act/2/code HTTP/1.1\r\n\r\n",
        Want::Asks("", Some(2), "code", "", false),
    ),
    (
        "POST /v1/act/3/submitpsv HTTP/1.1\r\n\r\n",
        Want::Asks("", Some(3), "submitpsv", "", false),
    ),
    (
        "POST /v1/act/999999999999999999/code HTTP/1.1\r\n\r\n",
        Want::Asks("", Some(999_999_999_999_999_999), "code", "", false),
    ),
    (
        "POST /v1/act/1000000000000000000/code HTTP/1.1\r\n\r\n",
        Want::Asks("", None, "code", "", false),
    ),
    (
        "POST /v1/act/07/submit80 HTTP/1.1\r\n\r\n",
        Want::Asks("", None, "submit80", "", false),
    ),
    (
        "POST /v1/act/00/submit80 HTTP/1.1\r\n\r\n",
        Want::Asks("", None, "submit80", "", false),
    ),
    (
        "POST /v1/act/-7/submit80 HTTP/1.1\r\n\r\n",
        Want::Asks("", None, "submit80", "", false),
    ),
    (
        "POST /v1/act/+7/submit80 HTTP/1.1\r\n\r\n",
        Want::Asks("", None, "submit80", "", false),
    ),
    (
        "POST /v1/act/7x/submit80 HTTP/1.1\r\n\r\n",
        Want::Asks("", None, "submit80", "", false),
    ),
    (
        "POST /v1/act/%37/submit80 HTTP/1.1\r\n\r\n",
        Want::Asks("", None, "submit80", "", false),
    ),
    (
        "POST /v1/act/7/submit%380 HTTP/1.1\r\n\r\n",
        Want::Asks("", Some(7), "", "", false),
    ),
    (
        "POST /v1/act/7/submit80?x=1 HTTP/1.1\r\n\r\n",
        Want::Asks("", Some(7), "", "", false),
    ),
    (
        "POST /v1/act/7/submit80/ HTTP/1.1\r\n\r\n",
        Want::Asks("", Some(7), "", "", false),
    ),
    (
        "POST /v1/act/7/Submit80 HTTP/1.1\r\n\r\n",
        Want::Asks("", Some(7), "", "", false),
    ),
    (
        "POST /v1/act/7/nothing HTTP/1.1\r\n\r\n",
        Want::Asks("", Some(7), "", "", false),
    ),
    (
        "POST /v1/act//submit80 HTTP/1.1\r\n\r\n",
        Want::Asks("", Some(0), "", "", false),
    ),
    (
        "POST /v1/act/submit80 HTTP/1.1\r\n\r\n",
        Want::Asks("", Some(0), "", "", false),
    ),
    (
        "GET /v1/act/7/submit80 HTTP/1.1\r\n\r\n",
        Want::Asks("", Some(0), "", "", false),
    ),
    (
        "PUT /v1/act/7/submit80 HTTP/1.1\r\n\r\n",
        Want::Asks("", Some(0), "", "", false),
    ),
    (
        "GET /v1/ask/tally HTTP/1.1\r\n\r\n",
        Want::Asks("", Some(0), "tally", "", false),
    ),
    (
        "POST /v1/ask/object HTTP/1.1\r\nContent-Length: 9\r\n\r\n2024 AA12",
        Want::Asks("", Some(0), "object", "2024 AA12", false),
    ),
    (
        "GET /v1/ask/submit80 HTTP/1.1\r\n\r\n",
        Want::Asks("", Some(0), "", "", false),
    ),
    (
        "HEAD /v1/ask/tally HTTP/1.1\r\n\r\n",
        Want::Asks("", Some(0), "", "", false),
    ),
    (
        "get /v1/ask/tally HTTP/1.1\r\n\r\n",
        Want::Asks("", Some(0), "", "", false),
    ),
    (
        "GET / HTTP/1.1\r\n\r\n",
        Want::Asks("", Some(0), "", "", false),
    ),
    (
        "GET /V1/ask/tally HTTP/1.1\r\n\r\n",
        Want::Asks("", Some(0), "", "", false),
    ),
    (
        "GET http://desk/v1/ask/tally HTTP/1.1\r\n\r\n",
        Want::Asks("", Some(0), "", "", false),
    ),
];

const FIELDS: &[Row] = &[
    ("", Want::End),
    ("P", Want::Unread),
    ("\r\n", Want::Unread),
    ("POST /v1/act/7/submit80 HTTP/1.1\r\n", Want::Unread),
    (
        "POST /v1/act/7/submit80 HTTP/1.1\r\nContent-Length: 3\r\n\r\nab",
        Want::Unread,
    ),
    (
        "POST /v1/act/7/submit80 HTTP/1.1\r\nContent-Length: 3\r\n\r\nabc",
        Want::Asks("", Some(7), "submit80", "abc", false),
    ),
    (
        "POST /v1/act/7/submit80 HTTP/1.1\r\ncontent-LENGTH: 003\r\n\r\nabcd",
        Want::Asks("", Some(7), "submit80", "abc", false),
    ),
    (
        "\r\n\nPOST /v1/act/7/submit80 HTTP/1.1\nContent-Length:2\n\nab",
        Want::Asks("", Some(7), "submit80", "ab", false),
    ),
    (
        "POST /v1/act/7/submit80 HTTP/1.1\r\nContent-Length: 0000000000\r\n\r\n",
        Want::Asks("", Some(7), "submit80", "", false),
    ),
    (
        "POST /v1/act/7/submit80 HTTP/1.1\r\nContent-Length: 00000000000\r\n\r\n",
        Want::Unread,
    ),
    (
        "POST /v1/act/7/submit80 HTTP/1.1\r\nContent-Length: \r\n\r\n",
        Want::Unread,
    ),
    (
        "POST /v1/act/7/submit80 HTTP/1.1\r\nContent-Length: -1\r\n\r\n",
        Want::Unread,
    ),
    (
        "POST /v1/act/7/submit80 HTTP/1.1\r\nContent-Length: 1 1\r\n\r\n",
        Want::Unread,
    ),
    (
        "POST /v1/act/7/submit80 HTTP/1.1\r\nContent-Length: 0, 0\r\n\r\n",
        Want::Unread,
    ),
    (
        "POST /v1/act/7/submit80 HTTP/1.1\r\nContent-Length: 0\r\nContent-Length: 0\r\n\r\n",
        Want::Unread,
    ),
    (
        "POST /v1/act/7/submit80 HTTP/1.1\r\nTransfer-Encoding: chunked\r\n\r\n",
        Want::Unread,
    ),
    (
        "POST /v1/act/7/submit80 HTTP/1.1\r\ntransfer-encoding:\r\n\r\n",
        Want::Unread,
    ),
    (
        "POST /v1/act/7/submit80 HTTP/1.1\r\nDesk-Key: +founder-1\r\n\r\n",
        Want::Asks("+founder-1", Some(7), "submit80", "", false),
    ),
    (
        "POST /v1/act/7/submit80 HTTP/1.1\r\nDESK-key:\t +a b \t\r\n\r\n",
        Want::Asks("+a b", Some(7), "submit80", "", false),
    ),
    (
        "POST /v1/act/7/submit80 HTTP/1.1\r\nDesk-Key:\r\n\r\n",
        Want::Asks("", Some(7), "submit80", "", false),
    ),
    (
        "POST /v1/act/7/submit80 HTTP/1.1\r\nDesk-Key: a\r\ndesk-key: a\r\n\r\n",
        Want::Unread,
    ),
    (
        "POST /v1/act/7/submit80 HTTP/1.1\r\nHost: desk\r\nExpect: 100-continue\r\n\r\n",
        Want::Asks("", Some(7), "submit80", "", false),
    ),
    (
        "POST /v1/act/7/submit80 HTTP/1.1\r\nConnection: close\r\n\r\n",
        Want::Asks("", Some(7), "submit80", "", true),
    ),
    (
        "POST /v1/act/7/submit80 HTTP/1.1\r\nconnection: keep-alive ,\tCLOSE\r\n\r\n",
        Want::Asks("", Some(7), "submit80", "", true),
    ),
    (
        "POST /v1/act/7/submit80 HTTP/1.1\r\nConnection: keep-alive\r\nConnection: Close\r\n\r\n",
        Want::Asks("", Some(7), "submit80", "", true),
    ),
    (
        "POST /v1/act/7/submit80 HTTP/1.1\r\nConnection: closed, enclose, clos\r\n\r\n",
        Want::Asks("", Some(7), "submit80", "", false),
    ),
    (
        "POST /v1/act/7/submit80 HTTP/1.1\r\nConnection: keep-alive close\r\n\r\n",
        Want::Asks("", Some(7), "submit80", "", false),
    ),
    (
        "POST /v1/act/7/submit80 HTTP/1.1\r\nX-Connection: close\r\n\r\n",
        Want::Asks("", Some(7), "submit80", "", false),
    ),
    (
        "POST /v1/act/7/submit80 HTTP/1.0\r\n\r\n",
        Want::Asks("", Some(7), "submit80", "", true),
    ),
    (
        "POST /v1/act/7/submit80 HTTP/1.0\r\nConnection: keep-alive\r\n\r\n",
        Want::Asks("", Some(7), "submit80", "", true),
    ),
    ("POST /v1/act/7/submit80 HTTP/1.2\r\n\r\n", Want::Unread),
    ("POST /v1/act/7/submit80 HTTP/2.0\r\n\r\n", Want::Unread),
    ("POST  /v1/act/7/submit80 HTTP/1.1\r\n\r\n", Want::Unread),
    ("POST /v1/act/7/submit80\r\n\r\n", Want::Unread),
    (
        "POST /v1/act/7/submit80 HTTP/1.1\r\nDesk Key: a\r\n\r\n",
        Want::Unread,
    ),
    (
        "POST /v1/act/7/submit80 HTTP/1.1\r\nDesk-Key : a\r\n\r\n",
        Want::Unread,
    ),
];

// Whether this is heard first of a text that comes in pieces of several sizes.
fn is_heard_in_pieces(alloc: Global, text: &str, want: Want) -> bool {
    let wants = [want];
    is_heard(alloc, text.as_bytes(), 1, 0, &wants)
        && is_heard(alloc, text.as_bytes(), 7, 0, &wants)
        && is_heard(alloc, text.as_bytes(), 4_096, 0, &wants)
}

// The first row of which something else is heard, counted from 0; None where there is none.
fn wrong_row(alloc: Global, rows: &[Row]) -> Option<usize> {
    for (place, (text, want)) in rows.iter().enumerate() {
        if !is_heard_in_pieces(alloc, text, *want) {
            return Some(place);
        }
    }
    None
}

#[test]
fn routes(rt: HostRuntime) {
    assert_eq!(rt; wrong_row(rt.alloc(), ROUTES), None);
}

// Targets with bytes above 127. A byte 200 alone is no text, and a head with it is none; 195 and 169 are one letter.
const BYTES: &[(&[u8], Want)] = &[
    (b"POST /v1/act/\xc8/submit80 HTTP/1.1\r\n\r\n", Want::Unread),
    (
        b"POST /v1/act/7\xc8/submit80 HTTP/1.1\r\n\r\n",
        Want::Unread,
    ),
    (
        b"POST /v1/act/7/submit80\xc8 HTTP/1.1\r\n\r\n",
        Want::Unread,
    ),
    (
        b"POST /v1\xc8/act/7/submit80 HTTP/1.1\r\n\r\n",
        Want::Unread,
    ),
    (b"GET /v1/ask/tally\xc8 HTTP/1.1\r\n\r\n", Want::Unread),
    (
        b"POST /v1/act/\xc3\xa9/submit80 HTTP/1.1\r\n\r\n",
        Want::Asks("", None, "submit80", "", false),
    ),
    (
        b"POST /v1/act/7/submit80\xc3\xa9 HTTP/1.1\r\n\r\n",
        Want::Asks("", Some(7), "", "", false),
    ),
    // a path with a slash more, or without a verb, has no route, and a number all the same
    (
        b"POST /v1/act/7/submit80/ HTTP/1.1\r\n\r\n",
        Want::Asks("", Some(7), "", "", false),
    ),
    (
        b"POST /v1/act/7/ HTTP/1.1\r\n\r\n",
        Want::Asks("", Some(7), "", "", false),
    ),
];

// The first of them of which something else is heard, counted from 0; None where there is none.
fn wrong_bytes(alloc: Global, rows: &[(&[u8], Want)]) -> Option<usize> {
    for (place, &(text, want)) in rows.iter().enumerate() {
        if !is_heard(alloc, text, 4_096, 0, &[want]) {
            return Some(place);
        }
    }
    None
}

#[test]
fn targets_of_any_bytes(rt: HostRuntime) {
    assert_eq!(rt; wrong_bytes(rt.alloc(), BYTES), None);
}

#[test]
fn fields(rt: HostRuntime) {
    assert_eq!(rt; wrong_row(rt.alloc(), FIELDS), None);
}

// Three messages, one at once after the other.
const STREAM: &str = "POST /v1/act/7/submit80 HTTP/1.1\r\nContent-Length: 3\r\n\r\nabc\
    \nPOST /v1/act/7/submit80 HTTP/1.1\nContent-Length: 2\n\nxy\
    POST /v1/act/7/submit80 HTTP/1.1\r\nConnection: close\r\n\r\n";

const STREAMED: &[Want] = &[
    Want::Asks("", Some(7), "submit80", "abc", false),
    Want::Asks("", Some(7), "submit80", "xy", false),
    Want::Asks("", Some(7), "submit80", "", true),
    Want::End,
];

// A line end after the last body is a part of a further message.
const LINE_END_BEHIND: &str = "POST /v1/act/7/submit80 HTTP/1.1\r\nContent-Length: 2\r\n\r\nab\r\n";

const MESSAGE_AND_FAULT: &[Want] = &[
    Want::Asks("", Some(7), "submit80", "ab", false),
    Want::Unread,
];

// The first of these sizes of pieces by which something else is heard of the stream; None where there is none.
fn wrong_size(alloc: Global, sizes: &[usize]) -> Option<usize> {
    for size in sizes {
        if !is_heard(alloc, STREAM.as_bytes(), *size, 0, STREAMED) {
            return Some(*size);
        }
    }
    None
}

#[test]
fn pipelined(rt: HostRuntime) {
    assert_eq!(rt; wrong_size(rt.alloc(), &[1, 2, 3, 50, 4_096]), None);
    let bytes = LINE_END_BEHIND.as_bytes();
    let behind = is_heard(rt.alloc(), bytes, 4_096, 0, MESSAGE_AND_FAULT);
    assert!(rt; behind);
}

// What is heard of the stream by 40 bytes where its first read fails, and where its third one does.
const FIRST_FAILS: &[Want] = &[
    Want::Fault,
    Want::Asks("", Some(7), "submit80", "abc", false),
];

const THIRD_FAILS: &[Want] = &[
    Want::Asks("", Some(7), "submit80", "abc", false),
    Want::Fault,
];

#[test]
fn source_fails(rt: HostRuntime) {
    let first = is_heard(rt.alloc(), STREAM.as_bytes(), 40, 1, FIRST_FAILS);
    assert!(rt; first);
    let third = is_heard(rt.alloc(), STREAM.as_bytes(), 40, 3, THIRD_FAILS);
    assert!(rt; third);
}
