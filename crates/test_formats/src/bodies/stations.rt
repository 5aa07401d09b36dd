//! Tests of the bodies that enter stations.

use crate::tables::expect_none_wrong;
use act_bodies::{BodyFault, Station, read_station};
use std::alloc::Global;

/// A body, and the code, the name and the days that it stands for.
type Row = (&'static [u8], [u8; 3], &'static [u8], i32, i32);

const READ: &[Row] = &[
    (
        b"{\"code\":\"703\",\"from\":\"1998-01-01\",\"name\":\"Catalina\",\"to\":\"2199-12-31\"}",
        *b"703",
        b"Catalina",
        10_227,
        84_005,
    ),
    // In another order, with white space.
    (
        b"{ \"to\" : \"1970-01-02\",\n\"name\":\"A\",\"from\":\"1969-12-31\", \"code\":\"W84\" }\n",
        *b"W84",
        b"A",
        -1,
        1,
    ),
    // One day.
    (
        b"{\"code\":\"a0Z\",\"name\":\"A, B\",\"from\":\"2000-02-29\",\"to\":\"2000-02-29\"}",
        *b"a0Z",
        b"A, B",
        11_016,
        11_016,
    ),
    // The first day of all, and the last.
    (
        b"{\"code\":\"000\",\"name\":\"A\",\"from\":\"1800-01-01\",\"to\":\"2199-12-31\"}",
        *b"000",
        b"A",
        -62_091,
        84_005,
    ),
    // Escapes.
    (
        b"{\"code\":\"7\\u00303\",\"name\":\"A\",\"from\":\"1970-01-0\\u0031\",\"to\":\"1970-01-01\"}",
        *b"703",
        b"A",
        0,
        0,
    ),
    // A member twice.
    (
        b"{\"code\":\"703\",\"name\":\"A\",\"from\":\"1998-01-01\",\"to\":\"1970-01-01\",\"from\":\"1970-01-01\"}",
        *b"703",
        b"A",
        0,
        0,
    ),
];

const UNREAD: &[&[u8]] = &[
    // One member too many, one too few, another in the place of one.
    b"{\"code\":\"703\",\"name\":\"A\",\"from\":\"1970-01-01\",\"to\":\"1970-01-01\",\"more\":[]}",
    b"{\"code\":\"703\",\"name\":\"A\",\"from\":\"1970-01-01\"}",
    b"{\"code\":\"703\",\"name\":\"A\",\"from\":\"1970-01-01\",\"until\":\"1970-01-01\"}",
    // Codes of 2 and 4 characters, and of others than letters and digits.
    b"{\"code\":\"70\",\"name\":\"A\",\"from\":\"1970-01-01\",\"to\":\"1970-01-01\"}",
    b"{\"code\":\"7030\",\"name\":\"A\",\"from\":\"1970-01-01\",\"to\":\"1970-01-01\"}",
    b"{\"code\":\"7-3\",\"name\":\"A\",\"from\":\"1970-01-01\",\"to\":\"1970-01-01\"}",
    b"{\"code\":\"7 3\",\"name\":\"A\",\"from\":\"1970-01-01\",\"to\":\"1970-01-01\"}",
    b"{\"code\":703,\"name\":\"A\",\"from\":\"1970-01-01\",\"to\":\"1970-01-01\"}",
    // No name.
    b"{\"code\":\"703\",\"name\":\"\",\"from\":\"1970-01-01\",\"to\":\"1970-01-01\"}",
    // The first day after the last.
    b"{\"code\":\"703\",\"name\":\"A\",\"from\":\"1970-01-02\",\"to\":\"1970-01-01\"}",
    b"{\"code\":\"703\",\"name\":\"A\",\"from\":\"1970-01-01\",\"to\":\"1969-12-31\"}",
    // Dates that don't exist, and years out of range.
    b"{\"code\":\"703\",\"name\":\"A\",\"from\":\"1999-02-29\",\"to\":\"2199-12-31\"}",
    b"{\"code\":\"703\",\"name\":\"A\",\"from\":\"1970-01-01\",\"to\":\"1998-04-31\"}",
    b"{\"code\":\"703\",\"name\":\"A\",\"from\":\"1799-12-31\",\"to\":\"1970-01-01\"}",
    b"{\"code\":\"703\",\"name\":\"A\",\"from\":\"1970-01-01\",\"to\":\"2200-01-01\"}",
    // Dates in other forms.
    b"{\"code\":\"703\",\"name\":\"A\",\"from\":\"1970-1-1\",\"to\":\"1970-01-01\"}",
    b"{\"code\":\"703\",\"name\":\"A\",\"from\":\"1970-01-01\",\"to\":\"1970-01-01 \"}",
    b"{\"code\":\"703\",\"name\":\"A\",\"from\":\"1970 01 01\",\"to\":\"1970-01-01\"}",
    b"{\"code\":\"703\",\"name\":\"A\",\"from\":0,\"to\":\"1970-01-01\"}",
    b"{\"code\":\"703\",\"name\":\"A\",\"from\":\"1970-01-01\",\"to\":\"\"}",
];

fn is_the_station(found: &Station, row: &Row) -> bool {
    found.code == row.1
        && found.name.as_slice() == row.2
        && found.from == row.3
        && found.to == row.4
}

fn is_read(alloc: Global, row: &Row) -> bool {
    match read_station(alloc, row.0) {
        Ok(found) => is_the_station(&found, row),
        Err(_) => false,
    }
}

/// The first row that is read as something else, counted from 0; None where there is none.
fn wrong_read(alloc: Global) -> Option<usize> {
    for (place, row) in READ.iter().enumerate() {
        if !is_read(alloc, row) {
            return Some(place);
        }
    }
    None
}

#[test]
fn stations_are_read(rt: HostRuntime) {
    let wrong = wrong_read(rt.alloc());
    expect_none_wrong(&rt, wrong);
}

/// The first row that is read, counted from 0; None where there is none.
fn wrong_unread(alloc: Global) -> Option<usize> {
    for (row, &body) in UNREAD.iter().enumerate() {
        if read_station(alloc, body).err() != Some(BodyFault::Unread) {
            return Some(row);
        }
    }
    None
}

#[test]
fn other_bodies_enter_no_station(rt: HostRuntime) {
    let wrong = wrong_unread(rt.alloc());
    expect_none_wrong(&rt, wrong);
}
