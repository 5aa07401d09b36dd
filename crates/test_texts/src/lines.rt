//! Texts that are cut, into lines and at the end of a line.

use crate::tables::expect_none_wrong;
use text_lines::cutting::cut;
use text_lines::lines::{next_complete, next_line};
use text_lines::pieces::line_end;

/// A text, what stands before its first bar, and what after it.
const CUT: &[(&[u8], &[u8], Option<&[u8]>)] = &[
    (b"a|b|c", b"a", Some(b"b|c")),
    (b"|", b"", Some(b"")),
    (b"abc", b"abc", None),
];

/// The first row that is cut otherwise, counted from 0; None where there is none. So are those below.
fn wrong_cut() -> Option<usize> {
    for (row, &(text, front, after)) in CUT.iter().enumerate() {
        if cut(b'|', text) != (front, after) {
            return Some(row);
        }
    }
    None
}

#[test]
fn cuts_at_the_first_byte(rt: HostRuntime) {
    expect_none_wrong(&rt, wrong_cut());
}

/// The first line of a text, and the text after it; nothing for an empty text.
fn first_line(text: &[u8]) -> Option<(&[u8], &[u8])> {
    if text.is_empty() {
        return None;
    }
    Some(next_line(text))
}

/// A line of a text, and the text after it.
type FirstLine = Option<(&'static [u8], &'static [u8])>;

/// A text, its first line, and whether the line is complete.
const LINES: &[(&[u8], FirstLine, bool)] = &[
    (b"a\nb", Some((b"a", b"b")), true),
    (b"a\r\nb", Some((b"a", b"b")), true),
    (b"\r\r\n", Some((b"\r", b"")), true),
    (b"\n\n", Some((b"", b"\n")), true),
    // a carriage return at the end of the text is part of the line
    (b"a\r", Some((b"a\r", b"")), false),
    (b"a\rb", Some((b"a\rb", b"")), false),
    (b"", None, false),
];

fn wrong_line() -> Option<usize> {
    for (row, &(text, whole, complete)) in LINES.iter().enumerate() {
        if first_line(text) != whole {
            return Some(row);
        }
        let wanted = if complete { whole } else { None };
        if next_complete(text) != wanted {
            return Some(row);
        }
    }
    None
}

#[test]
fn ends_lines_at_line_feeds(rt: HostRuntime) {
    expect_none_wrong(&rt, wrong_line());
}

/// A piece of a text, which is cut after the end of a line.
const ENDS: &[(&[u8], FirstLine)] = &[
    (b"\nab", Some((b"\n", b"ab"))),
    (b"a\r\nb\n", Some((b"a\r\n", b"b\n"))),
    (b"ab\r", None),
    (b"", None),
];

fn wrong_end() -> Option<usize> {
    for (row, &(piece, wanted)) in ENDS.iter().enumerate() {
        if line_end(piece) != wanted {
            return Some(row);
        }
    }
    None
}

#[test]
fn finds_the_end_of_a_line(rt: HostRuntime) {
    expect_none_wrong(&rt, wrong_end());
}
