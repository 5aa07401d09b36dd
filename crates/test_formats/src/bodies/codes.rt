//! Tests of the bodies that enter codes.

use crate::tables::expect_none_wrong;
use act_bodies::{BodyFault, Code, read_code};
use obs_record::Short;
use station_tables::Kind;
use std::alloc::Global;

/// A body, and the kind, the letter and the word that it stands for.
type Row = (&'static [u8], Kind, u8, &'static [u8]);

const READ: &[Row] = &[
    (
        b"{\"kind\":\"mode\",\"letter\":\"C\",\"word\":\"CCD\"}",
        Kind::Mode,
        b'C',
        b"CCD",
    ),
    (
        b"{\"kind\":\"band\",\"letter\":\"V\",\"word\":\"V\"}",
        Kind::Band,
        b'V',
        b"V",
    ),
    (
        b"{\"kind\":\"catalogue\",\"letter\":\"W\",\"word\":\"Gaia3\"}",
        Kind::Catalogue,
        b'W',
        b"Gaia3",
    ),
    // In another order, with white space and an escape.
    (
        b"{ \"word\" : \"\\u0043CD\", \"kind\" : \"mode\", \"letter\" : \"C\" }",
        Kind::Mode,
        b'C',
        b"CCD",
    ),
    // A member twice.
    (
        b"{\"kind\":\"mode\",\"letter\":\"V\",\"word\":\"V\",\"kind\":\"band\"}",
        Kind::Band,
        b'V',
        b"V",
    ),
    // Letters that no mode has.
    (
        b"{\"kind\":\"catalogue\",\"letter\":\"s\",\"word\":\"SDSS7\"}",
        Kind::Catalogue,
        b's',
        b"SDSS7",
    ),
    // The first and the last printable character but the blank.
    (
        b"{\"kind\":\"mode\",\"letter\":\"!\",\"word\":\"~\"}",
        Kind::Mode,
        b'!',
        b"~",
    ),
    (
        b"{\"kind\":\"band\",\"letter\":\"~\",\"word\":\"!\"}",
        Kind::Band,
        b'~',
        b"!",
    ),
    // The longest word, of 11 characters. A letter may be a bar.
    (
        b"{\"kind\":\"mode\",\"letter\":\"|\",\"word\":\"ABCDEFGHIJK\"}",
        Kind::Mode,
        b'|',
        b"ABCDEFGHIJK",
    ),
];

const UNREAD: &[&[u8]] = &[
    // One member too many, one too few, another in the place of one.
    b"{\"kind\":\"band\",\"letter\":\"V\",\"word\":\"V\",\"more\":\"V\"}",
    b"{\"kind\":\"band\",\"word\":\"V\"}",
    b"{\"kind\":\"band\",\"Letter\":\"V\",\"word\":\"V\"}",
    // Other kinds.
    b"{\"kind\":\"Mode\",\"letter\":\"C\",\"word\":\"CCD\"}",
    b"{\"kind\":\"modes\",\"letter\":\"C\",\"word\":\"CCD\"}",
    b"{\"kind\":\"\",\"letter\":\"C\",\"word\":\"CCD\"}",
    b"{\"kind\":null,\"letter\":\"C\",\"word\":\"CCD\"}",
    // A blank, no letter, two letters, and others than printable characters.
    b"{\"kind\":\"band\",\"letter\":\" \",\"word\":\"V\"}",
    b"{\"kind\":\"band\",\"letter\":\"\",\"word\":\"V\"}",
    b"{\"kind\":\"band\",\"letter\":\"VV\",\"word\":\"V\"}",
    b"{\"kind\":\"band\",\"letter\":\"\x7f\",\"word\":\"V\"}",
    b"{\"kind\":\"band\",\"letter\":\"\\u0000\",\"word\":\"V\"}",
    b"{\"kind\":\"band\",\"letter\":\"\\u00c4\",\"word\":\"V\"}",
    b"{\"kind\":\"band\",\"letter\":1,\"word\":\"V\"}",
    // Letters that no mode has.
    b"{\"kind\":\"mode\",\"letter\":\"V\",\"word\":\"CCD\"}",
    b"{\"kind\":\"mode\",\"letter\":\"v\",\"word\":\"CCD\"}",
    b"{\"kind\":\"mode\",\"letter\":\"R\",\"word\":\"CCD\"}",
    b"{\"kind\":\"mode\",\"letter\":\"r\",\"word\":\"CCD\"}",
    b"{\"kind\":\"mode\",\"letter\":\"S\",\"word\":\"CCD\"}",
    b"{\"kind\":\"mode\",\"letter\":\"s\",\"word\":\"CCD\"}",
    b"{\"kind\":\"mode\",\"letter\":\" \",\"word\":\"CCD\"}",
    // Words of 12 characters and of none, with a blank, with a bar, and with others than printable characters.
    b"{\"kind\":\"mode\",\"letter\":\"C\",\"word\":\"ABCDEFGHIJKL\"}",
    b"{\"kind\":\"mode\",\"letter\":\"C\",\"word\":\"\"}",
    b"{\"kind\":\"mode\",\"letter\":\"C\",\"word\":\"C CD\"}",
    b"{\"kind\":\"mode\",\"letter\":\"C\",\"word\":\"C|D\"}",
    b"{\"kind\":\"mode\",\"letter\":\"C\",\"word\":\"C\\nD\"}",
    b"{\"kind\":\"mode\",\"letter\":\"C\",\"word\":[\"CCD\"]}",
];

fn is_read(alloc: Global, body: &[u8], want: Code) -> bool {
    read_code(alloc, body) == Ok(want)
}

/// The first row that is read as another code, counted from 0; None where there is none.
fn wrong_read(alloc: Global) -> Option<usize> {
    for (row, &(body, kind, letter, word)) in READ.iter().enumerate() {
        let word = Short::new(word);
        if !is_read(alloc, body, Code { kind, letter, word }) {
            return Some(row);
        }
    }
    None
}

#[test]
fn codes_are_read(rt: HostRuntime) {
    let wrong = wrong_read(rt.alloc());
    expect_none_wrong(&rt, wrong);
}

/// The first row that is read, counted from 0; None where there is none.
fn wrong_unread(alloc: Global) -> Option<usize> {
    for (row, &body) in UNREAD.iter().enumerate() {
        if read_code(alloc, body).err() != Some(BodyFault::Unread) {
            return Some(row);
        }
    }
    None
}

#[test]
fn other_bodies_enter_no_code(rt: HostRuntime) {
    let wrong = wrong_unread(rt.alloc());
    expect_none_wrong(&rt, wrong);
}
