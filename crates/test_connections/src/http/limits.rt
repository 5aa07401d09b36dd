//! Heads and bodies at their limits.

use act_model::{Body, Request};
use desk_http::{Heard, Wire};
use desk_io::MemSource;
use std::alloc::Global;
use testkit_messages::{Want, hears, is_heard};

// A text: its front, so many fields of five bytes, more text, `x` up to a size, and its end; and what is heard of it.
#[derive(Clone, Copy)]
struct Long {
    front: &'static str,
    fields: usize,
    more: &'static str,
    size: usize,
    end: &'static str,
    want: Want,
}

const LINE: &str = "POST /v1/act/7/submit80 HTTP/1.1\r\n";

const ASKS: Want = Want::Asks("", Some(7), "submit80", "", false);

fn put(bytes: &mut Vec<u8>, text: &str) -> bool {
    bytes.extend_from_slice(text.as_bytes()).is_ok()
}

fn put_up_to(bytes: &mut Vec<u8>, size: usize) -> bool {
    bytes.len() >= size || bytes.resize(size, b'x').is_ok()
}

fn put_fields(bytes: &mut Vec<u8>, fields: usize) -> bool {
    for _ in 0..fields {
        if !put(bytes, "a:b\r\n") {
            return false;
        }
    }
    true
}

// The text; None where memory was refused.
fn long_text(alloc: Global, row: &Long) -> Option<Vec<u8>> {
    let mut bytes = Vec::new(alloc);
    let is_whole = put(&mut bytes, row.front)
        && put_fields(&mut bytes, row.fields)
        && put(&mut bytes, row.more)
        && put_up_to(&mut bytes, row.size)
        && put(&mut bytes, row.end);
    if is_whole { Some(bytes) } else { None }
}

// Heads of 32 and of 33 fields; of 8,192 and of 8,193 bytes; and 8,192 bytes in which none ends.
const LONG_HEADS: &[Long] = &[
    Long {
        front: LINE,
        fields: 32,
        more: "",
        size: 0,
        end: "\r\n",
        want: ASKS,
    },
    Long {
        front: LINE,
        fields: 33,
        more: "",
        size: 0,
        end: "\r\n",
        want: Want::Unread,
    },
    Long {
        front: LINE,
        fields: 0,
        more: "a:",
        size: 8_188,
        end: "\r\n\r\n",
        want: ASKS,
    },
    Long {
        front: LINE,
        fields: 0,
        more: "a:",
        size: 8_189,
        end: "\r\n\r\n",
        want: Want::Unread,
    },
    Long {
        front: LINE,
        fields: 0,
        more: "a:",
        size: 8_192,
        end: "",
        want: Want::Unread,
    },
];

// Whether this is heard first of a text that comes in pieces of a byte and of 1,000; false where memory was refused.
fn is_long_heard(alloc: Global, row: &Long) -> bool {
    match long_text(alloc, row) {
        Some(bytes) => {
            is_heard(alloc, &bytes, 1, 0, &[row.want])
                && is_heard(alloc, &bytes, 1_000, 0, &[row.want])
        }
        None => false,
    }
}

// The first head of which something else is heard, counted from 0; None where there is none.
fn wrong_head(alloc: Global, rows: &[Long]) -> Option<usize> {
    for (place, row) in rows.iter().enumerate() {
        if !is_long_heard(alloc, row) {
            return Some(place);
        }
    }
    None
}

#[test]
fn limits_of_heads(rt: HostRuntime) {
    assert_eq!(rt; wrong_head(rt.alloc(), LONG_HEADS), None);
}

// 8,192 empty lines, byte by byte.
#[test]
fn empty_lines(rt: HostRuntime) {
    let is_unread = is_heard(rt.alloc(), &[b'\n'; 8_192], 1, 0, &[Want::Unread]);
    assert!(rt; is_unread);
}

fn body_length(request: &Request) -> u64 {
    match &request.body {
        Body::Whole(bytes) => bytes.len(),
        Body::TooLong(size) => *size,
        Body::NoRoom => 0,
    }
}

// How long the body of the next message is.
fn next_length(wire: &mut Wire, source: &mut MemSource) -> u64 {
    match wire.read_request(source) {
        Heard::Request { request, .. } => body_length(&request),
        _ => 0,
    }
}

// How long the body of the first message is, and whether the next message is heard.
fn first_length(wire: &mut Wire, source: &mut MemSource) -> (u64, bool) {
    let length = next_length(wire, source);
    (length, hears(wire, source, ASKS))
}

// Bodies of 1,048,576 bytes, after 61 bytes, and of one byte more.
const LONG_BODIES: &[(Long, u64)] = &[
    (
        Long {
            front: LINE,
            fields: 0,
            more: "Content-Length: 1048576\r\n\r\n",
            size: 1_048_637,
            end: "POST /v1/act/7/submit80 HTTP/1.1\r\n\r\n",
            want: ASKS,
        },
        1_048_576,
    ),
    (
        Long {
            front: LINE,
            fields: 0,
            more: "Content-Length: 1048577\r\n\r\n",
            size: 1_048_638,
            end: "POST /v1/act/7/submit80 HTTP/1.1\r\n\r\n",
            want: ASKS,
        },
        1_048_577,
    ),
];

// The same of a text that comes in pieces of 60,000 bytes; None where memory was refused.
fn first_length_of(alloc: Global, bytes: &[u8]) -> Option<(u64, bool)> {
    match (MemSource::new(alloc, bytes, 60_000, &[0]), Wire::new(alloc)) {
        (Ok(mut source), Ok(mut wire)) => Some(first_length(&mut wire, &mut source)),
        _ => None,
    }
}

fn long_length(alloc: Global, row: &Long) -> Option<(u64, bool)> {
    let bytes = long_text(alloc, row)?;
    first_length_of(alloc, &bytes)
}

// The first body that has another length, counted from 0; None where there is none.
fn wrong_body(alloc: Global, rows: &[(Long, u64)]) -> Option<usize> {
    for (place, (row, length)) in rows.iter().enumerate() {
        if long_length(alloc, row) != Some((*length, true)) {
            return Some(place);
        }
    }
    None
}

#[test]
fn long_bodies(rt: HostRuntime) {
    assert_eq!(rt; wrong_body(rt.alloc(), LONG_BODIES), None);
}

// Fronts of no head, in pieces of so many bytes, and the read that fails: what settles that no head comes has come
// before. That is a line feed, or not half of the bytes.
const SETTLED: &[(&[u8], usize, u64)] = &[
    // the first byte of a TLS hello: no method has it
    (b"\x16\x03\x01\x02\x00\x01\x00", 1, 2),
    // a word, and the end of its line
    (b"hello\nyou", 1, 7),
    (b"GET\r\nyou", 1, 6),
    // the 24th byte is a version that there isn't, and no line ends
    (
        b"GET /v1/ask/tally HTTP/2.0 and so on without an end of the line",
        1,
        48,
    ),
    // a field without a colon, at its line's end
    (b"GET / HTTP/1.1\r\nbad field\r\nyou", 1, 28),
    // the same, and its line ends inside the second piece
    (b"GET / HTTP/1.1\r\nHost: localhost\r\nx y\r\nmore", 33, 3),
    // the fifth byte, after two empty lines: no method has it
    (b"\r\n\r\n\x80 and so on", 1, 10),
    // the 33rd field, of five bytes as the 32 before it
    (
        b"GET / HTTP/1.1\r\n\
          a:b\r\na:b\r\na:b\r\na:b\r\na:b\r\na:b\r\na:b\r\na:b\r\n\
          a:b\r\na:b\r\na:b\r\na:b\r\na:b\r\na:b\r\na:b\r\na:b\r\n\
          a:b\r\na:b\r\na:b\r\na:b\r\na:b\r\na:b\r\na:b\r\na:b\r\n\
          a:b\r\na:b\r\na:b\r\na:b\r\na:b\r\na:b\r\na:b\r\na:b\r\n\
          a:b\r\nyou",
        1,
        182,
    ),
];

// The first of them that isn't answered before that read, counted from 0; None where each is.
fn late_answer(alloc: Global, rows: &[(&[u8], usize, u64)]) -> Option<usize> {
    for (place, &(text, greatest, fails)) in rows.iter().enumerate() {
        if !is_heard(alloc, text, greatest, fails, &[Want::Unread]) {
            return Some(place);
        }
    }
    None
}

#[test]
fn settled_before_the_end(rt: HostRuntime) {
    assert_eq!(rt; late_answer(rt.alloc(), SETTLED), None);
}
