//! Tests of the bodies that enrol callers.

use crate::tables::expect_none_wrong;
use act_bodies::{BodyFault, Enrol, Rank, read_enrol};
use std::alloc::Global;

/// A body, and the key, the name and the rank that it stands for.
type Row = (&'static [u8], &'static [u8], &'static [u8], Rank);

const READ: &[Row] = &[
    (
        b"{\"key\":\"observer-1\",\"name\":\"Ann\",\"role\":\"observer\"}",
        b"observer-1",
        b"Ann",
        Rank::Observer,
    ),
    // In another order.
    (
        b"{\"role\":\"officer\",\"key\":\"Officer-02\",\"name\":\"Bo Li\"}",
        b"Officer-02",
        b"Bo Li",
        Rank::Officer,
    ),
    // White space between tokens.
    (
        b" {\n\t\"key\" : \"observer-1\" ,\r\n \"name\":\"Ann\",\"role\":\"observer\" } \n",
        b"observer-1",
        b"Ann",
        Rank::Observer,
    ),
    // Escapes.
    (
        b"{\"k\\u0065y\":\"obs\\u0065rver-1\",\"name\":\"\\\"A\\\\n\\/n\",\"role\":\"obs\\u0065rver\"}",
        b"observer-1",
        b"\"A\\n/n",
        Rank::Observer,
    ),
    // A member twice.
    (
        b"{\"key\":\"observer-1\",\"role\":\"officer\",\"name\":\"Ann\",\"role\":\"observer\"}",
        b"observer-1",
        b"Ann",
        Rank::Observer,
    ),
    (
        b"{\"key\":7,\"key\":\"observer-1\",\"name\":\"Ann\",\"role\":\"observer\"}",
        b"observer-1",
        b"Ann",
        Rank::Observer,
    ),
    // The shortest key and name.
    (
        b"{\"key\":\"--Zz09aA\",\"name\":\"~\",\"role\":\"officer\"}",
        b"--Zz09aA",
        b"~",
        Rank::Officer,
    ),
    // The longest key, of 32 characters.
    (
        b"{\"key\":\"0123456789abcdefghijABCDEFGHIJ-9\",\"name\":\" \",\"role\":\"officer\"}",
        b"0123456789abcdefghijABCDEFGHIJ-9",
        b" ",
        Rank::Officer,
    ),
    // The longest name, of 100 characters.
    (
        b"{\"key\":\"observer-1\",\"name\":\"0123456789 123456789 123456789 123456789 12345678\
          9 123456789 123456789 123456789 123456789 123456789\",\"role\":\"observer\"}",
        b"observer-1",
        b"0123456789 123456789 123456789 123456789 123456789 123456789 123456789 123456789 123456789 123456789",
        Rank::Observer,
    ),
];

const UNREAD: &[&[u8]] = &[
    // One member too many, one too few, another in the place of one.
    b"{\"key\":\"observer-1\",\"name\":\"Ann\",\"role\":\"observer\",\"more\":1}",
    b"{\"key\":\"observer-1\",\"name\":\"Ann\"}",
    b"{\"key\":\"observer-1\",\"name\":\"Ann\",\"rank\":\"observer\"}",
    b"{}",
    // The last value of a member that stands twice.
    b"{\"key\":\"observer-1\",\"name\":\"Ann\",\"role\":\"observer\",\"role\":\"judge\"}",
    // A number, an array, null or true in the place of a string.
    b"{\"key\":1.0,\"name\":\"Ann\",\"role\":\"observer\"}",
    b"{\"key\":1e2,\"name\":\"Ann\",\"role\":\"observer\"}",
    b"{\"key\":-0,\"name\":\"Ann\",\"role\":\"observer\"}",
    b"{\"key\":18446744073709551616,\"name\":\"Ann\",\"role\":\"observer\"}",
    b"{\"key\":12345678,\"name\":\"Ann\",\"role\":\"observer\"}",
    b"{\"key\":[\"observer-1\"],\"name\":\"Ann\",\"role\":\"observer\"}",
    b"{\"key\":\"observer-1\",\"name\":null,\"role\":\"observer\"}",
    b"{\"key\":\"observer-1\",\"name\":\"Ann\",\"role\":true}",
    b"{\"key\":\"observer-1\",\"name\":\"Ann\",\"role\":{\"observer\":\"observer\"}}",
    // No object.
    b"[\"observer-1\",\"Ann\",\"observer\"]",
    b"\"observer-1\"",
    b"null",
    // No JSON.
    b"",
    b" ",
    b"{\"key\":\"observer-1\",\"name\":\"Ann\",\"role\":\"observer\"",
    b"{\"key\":\"observer-1\",\"name\":\"Ann\",\"role\":\"observer\",}",
    b"{'key':'observer-1','name':'Ann','role':'observer'}",
    b"{\"key\":\"observer-1\",\"name\":\"A\xffn\",\"role\":\"observer\"}",
    b"\xff{\"key\":\"observer-1\",\"name\":\"Ann\",\"role\":\"observer\"}",
    // Text after the object.
    b"{\"key\":\"observer-1\",\"name\":\"Ann\",\"role\":\"observer\"}.",
    b"{\"key\":\"observer-1\",\"name\":\"Ann\",\"role\":\"observer\"}{}",
    // Keys of 7 and 33 characters, and of others than letters, digits and dashes.
    b"{\"key\":\"observ-\",\"name\":\"Ann\",\"role\":\"observer\"}",
    b"{\"key\":\"0123456789abcdefghijABCDEFGHIJ-9z\",\"name\":\"Ann\",\"role\":\"observer\"}",
    b"{\"key\":\"+bserver-1\",\"name\":\"Ann\",\"role\":\"observer\"}",
    b"{\"key\":\"observer_1\",\"name\":\"Ann\",\"role\":\"observer\"}",
    b"{\"key\":\"observer 1\",\"name\":\"Ann\",\"role\":\"observer\"}",
    // Names of no and of 101 characters, and with others than printable characters.
    b"{\"key\":\"observer-1\",\"name\":\"\",\"role\":\"observer\"}",
    b"{\"key\":\"observer-1\",\"name\":\"0123456789 123456789 123456789 123456789 12345678\
      9 123456789 123456789 123456789 123456789 1234567890\",\"role\":\"observer\"}",
    b"{\"key\":\"observer-1\",\"name\":\"A\x7fn\",\"role\":\"observer\"}",
    b"{\"key\":\"observer-1\",\"name\":\"A\\tn\",\"role\":\"observer\"}",
    b"{\"key\":\"observer-1\",\"name\":\"\xc3\x84nn\",\"role\":\"observer\"}",
    b"{\"key\":\"observer-1\",\"name\":\"\\u00c4nn\",\"role\":\"observer\"}",
    // Other ranks.
    b"{\"key\":\"observer-1\",\"name\":\"Ann\",\"role\":\"Officer\"}",
    b"{\"key\":\"observer-1\",\"name\":\"Ann\",\"role\":\"officers\"}",
    b"{\"key\":\"observer-1\",\"name\":\"Ann\",\"role\":\"\"}",
];

fn is_the_caller(found: &Enrol, row: &Row) -> bool {
    found.key.text() == row.1 && found.name.as_slice() == row.2 && found.role == row.3
}

fn is_read(alloc: Global, row: &Row) -> bool {
    match read_enrol(alloc, row.0) {
        Ok(found) => is_the_caller(&found, row),
        Err(_) => false,
    }
}

/// The first row that is read as something else, counted from 0; None where there is none.
fn wrong_read(alloc: Global) -> Option<usize> {
    for (place, row) in READ.iter().enumerate() {
        if !is_read(alloc, row) {
            return Some(place);
        }
    }
    None
}

#[test]
fn enrolments_are_read(rt: HostRuntime) {
    let wrong = wrong_read(rt.alloc());
    expect_none_wrong(&rt, wrong);
}

/// The first row that is read, counted from 0; None where there is none.
fn wrong_unread(alloc: Global) -> Option<usize> {
    for (row, &body) in UNREAD.iter().enumerate() {
        if read_enrol(alloc, body).err() != Some(BodyFault::Unread) {
            return Some(row);
        }
    }
    None
}

#[test]
fn other_bodies_enrol_nobody(rt: HostRuntime) {
    let wrong = wrong_unread(rt.alloc());
    expect_none_wrong(&rt, wrong);
}
