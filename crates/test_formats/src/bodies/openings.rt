//! Tests of the bodies by which half-months are taken over.

use crate::tables::expect_none_wrong;
use act_bodies::{BodyFault, read_opening};
use std::alloc::Global;

/// The half-month's year and index, how many were given, how many are carried, and the last of these, 0 for none.
type Said = (u16, u8, u32, u64, u64);

const READ: &[(&[u8], Said)] = &[
    // The least count and the greatest one before the year 2000, with none carried, and with the last order.
    (
        b"{\"half\":\"1998 S\",\"given\":1,\"carried\":[]}",
        (1998, 17, 1, 0, 0),
    ),
    (
        b"{\"half\":\"1998 S\",\"given\":15500,\"carried\":[15500]}",
        (1998, 17, 15_500, 1, 15_500),
    ),
    // In another order, with white space.
    (
        b" { \"carried\" : [1, 3], \"given\" : 14791835, \"half\" : \"2024 E\" }",
        (2024, 4, 14_791_835, 2, 3),
    ),
    // From 2000 to 2061 a half-month has more.
    (
        b"{\"half\":\"2024 E\",\"given\":1,\"carried\":[1]}",
        (2024, 4, 1, 1, 1),
    ),
    (
        b"{\"half\":\"2024 E\",\"given\":15500,\"carried\":[]}",
        (2024, 4, 15_500, 0, 0),
    ),
    (
        b"{\"half\":\"2024 E\",\"given\":15501,\"carried\":[15501,7]}",
        (2024, 4, 15_501, 2, 7),
    ),
    (
        b"{\"half\":\"2024 E\",\"given\":14791836,\"carried\":[3,14791836]}",
        (2024, 4, 14_791_836, 2, 14_791_836),
    ),
    (
        b"{\"half\":\"2000 A\",\"given\":14791836,\"carried\":[]}",
        (2000, 0, 14_791_836, 0, 0),
    ),
    (
        b"{\"half\":\"2061 Y\",\"given\":14791836,\"carried\":[]}",
        (2061, 23, 14_791_836, 0, 0),
    ),
    // The years beside those, and the first and the last one.
    (
        b"{\"half\":\"1999 Y\",\"given\":15500,\"carried\":[]}",
        (1999, 23, 15_500, 0, 0),
    ),
    (
        b"{\"half\":\"2062 A\",\"given\":1,\"carried\":[]}",
        (2062, 0, 1, 0, 0),
    ),
    (
        b"{\"half\":\"2062 A\",\"given\":15500,\"carried\":[]}",
        (2062, 0, 15_500, 0, 0),
    ),
    (
        b"{\"half\":\"1925 H\",\"given\":7,\"carried\":[]}",
        (1925, 7, 7, 0, 0),
    ),
    (
        b"{\"half\":\"2099 J\",\"given\":7,\"carried\":[7]}",
        (2099, 8, 7, 1, 7),
    ),
    // A member twice.
    (
        b"{\"half\":\"2024 I\",\"half\":\"2024 E\",\"given\":1,\"carried\":[]}",
        (2024, 4, 1, 0, 0),
    ),
    // As many carried as there may be.
    (
        b"{\"half\":\"1998 S\",\"given\":101,\"carried\":[1,2,3,4,5,6,7,8,9,10,11,12,13,14,15,16,17,18,19,20,21,22,23,\
          24,25,26,27,28,29,30,31,32,33,34,35,36,37,38,39,40,41,42,43,44,45,46,47,48,49,50,51,52,53,54,55,56,\
          57,58,59,60,61,62,63,64,65,66,67,68,69,70,71,72,73,74,75,76,77,78,79,80,81,82,83,84,85,86,87,88,89,90,\
          91,92,93,94,95,96,97,98,99,100]}",
        (1998, 17, 101, 100, 100),
    ),
];

const UNREAD: &[&[u8]] = &[
    // None given, and one more than the half-month has.
    b"{\"half\":\"1998 S\",\"given\":0,\"carried\":[]}",
    b"{\"half\":\"2024 E\",\"given\":0,\"carried\":[]}",
    b"{\"half\":\"2062 A\",\"given\":0,\"carried\":[]}",
    b"{\"half\":\"1998 S\",\"given\":15501,\"carried\":[]}",
    b"{\"half\":\"1999 Y\",\"given\":15501,\"carried\":[]}",
    b"{\"half\":\"2062 A\",\"given\":15501,\"carried\":[]}",
    b"{\"half\":\"1998 S\",\"given\":14791836,\"carried\":[]}",
    b"{\"half\":\"2062 A\",\"given\":14791836,\"carried\":[]}",
    b"{\"half\":\"1998 S\",\"given\":14791837,\"carried\":[]}",
    b"{\"half\":\"2000 A\",\"given\":14791837,\"carried\":[]}",
    b"{\"half\":\"2024 E\",\"given\":14791837,\"carried\":[]}",
    b"{\"half\":\"2061 Y\",\"given\":14791837,\"carried\":[]}",
    b"{\"half\":\"2062 A\",\"given\":14791837,\"carried\":[]}",
    b"{\"half\":\"2024 E\",\"given\":4294967297,\"carried\":[]}",
    // Others than a whole number.
    b"{\"half\":\"2024 E\",\"given\":-1,\"carried\":[]}",
    b"{\"half\":\"2024 E\",\"given\":1.0,\"carried\":[]}",
    b"{\"half\":\"2024 E\",\"given\":\"1\",\"carried\":[]}",
    // The same order twice, 0, one above those given, and others than whole numbers.
    b"{\"half\":\"2024 E\",\"given\":9,\"carried\":[1,2,1]}",
    b"{\"half\":\"2024 E\",\"given\":9,\"carried\":[0]}",
    b"{\"half\":\"2024 E\",\"given\":9,\"carried\":[9,10]}",
    b"{\"half\":\"2024 E\",\"given\":9,\"carried\":[4294967297]}",
    b"{\"half\":\"2024 E\",\"given\":9,\"carried\":[1.5]}",
    b"{\"half\":\"2024 E\",\"given\":9,\"carried\":[\"1\"]}",
    b"{\"half\":\"2024 E\",\"given\":9,\"carried\":[1,null]}",
    b"{\"half\":\"2024 E\",\"given\":9,\"carried\":1}",
    b"{\"half\":\"2024 E\",\"given\":9,\"carried\":null}",
    // Others than a half-month, and those of other years.
    b"{\"half\":\"2024 I\",\"given\":1,\"carried\":[]}",
    b"{\"half\":\"2024 Z\",\"given\":1,\"carried\":[]}",
    b"{\"half\":\"1924 A\",\"given\":1,\"carried\":[]}",
    b"{\"half\":\"2100 A\",\"given\":1,\"carried\":[]}",
    b"{\"half\":\"2024e\",\"given\":1,\"carried\":[]}",
    b"{\"half\":\"2024 e\",\"given\":1,\"carried\":[]}",
    b"{\"half\":\"2024E\",\"given\":1,\"carried\":[]}",
    b"{\"half\":\"2024 EA\",\"given\":1,\"carried\":[]}",
    b"{\"half\":\" 2024 E\",\"given\":1,\"carried\":[]}",
    b"{\"half\":\"\",\"given\":1,\"carried\":[]}",
    b"{\"half\":2024,\"given\":1,\"carried\":[]}",
    // A member too few, one too many, another in the place of one; no object.
    b"{\"given\":1,\"carried\":[]}",
    b"{\"half\":\"2024 E\",\"carried\":[]}",
    b"{\"half\":\"2024 E\",\"given\":1}",
    b"{}",
    b"{\"half\":\"2024 E\",\"given\":1,\"carried\":[],\"more\":1}",
    b"{\"half\":\"2024 E\",\"given\":1,\"carry\":[]}",
    b"{\"half\":\"2024 E\",\"given\":1,\"carried\":[]",
    b"[\"2024 E\",1,[]]",
    // 101 carried.
    b"{\"half\":\"1998 S\",\"given\":101,\"carried\":[1,2,3,4,5,6,7,8,9,10,11,12,13,14,15,16,17,18,19,20,21,22,23,\
          24,25,26,27,28,29,30,31,32,33,34,35,36,37,38,39,40,41,42,43,44,45,46,47,48,49,50,51,52,53,54,55,56,\
          57,58,59,60,61,62,63,64,65,66,67,68,69,70,71,72,73,74,75,76,77,78,79,80,81,82,83,84,85,86,87,88,89,90,\
          91,92,93,94,95,96,97,98,99,100,101]}",
];

fn said(alloc: Global, body: &[u8]) -> Result<Said, BodyFault> {
    let opening = read_opening(alloc, body)?;
    let half = opening.half;
    let last = opening.carried.iter().last().copied().unwrap_or(0);
    Ok((
        half.year,
        half.index,
        opening.given,
        opening.carried.len(),
        last,
    ))
}

/// The first row of which something else is said, counted from 0; None where there is none.
fn wrong_read(alloc: Global) -> Option<usize> {
    for (row, &(body, wanted)) in READ.iter().enumerate() {
        if said(alloc, body) != Ok(wanted) {
            return Some(row);
        }
    }
    None
}

#[test]
fn openings_are_read(rt: HostRuntime) {
    let wrong = wrong_read(rt.alloc());
    expect_none_wrong(&rt, wrong);
}

/// The first row that is read, counted from 0; None where there is none.
fn wrong_unread(alloc: Global) -> Option<usize> {
    for (row, &body) in UNREAD.iter().enumerate() {
        if said(alloc, body).err() != Some(BodyFault::Unread) {
            return Some(row);
        }
    }
    None
}

#[test]
fn other_bodies_open_nothing(rt: HostRuntime) {
    let wrong = wrong_unread(rt.alloc());
    expect_none_wrong(&rt, wrong);
}
