//! Tests of the bodies of acts on observations, tracklets, objects and numbers.

use crate::tables::expect_none_wrong;
use act_bodies::{
    BodyFault, read_attribute, read_designate, read_identify, read_number, read_release,
    read_retract, read_separate, read_verdict,
};
use packed_names::{Designation, HalfMonth, Provisional, Survey};
use std::alloc::Global;

/// The acts whose bodies are whole numbers and designations.
#[derive(Clone, Copy)]
enum Verb {
    Designate,
    Attribute,
    Release,
    Identify,
    Separate,
    Verdict,
    Number,
    Retract,
}

/// The numbers of a body, 0 for one that it hasn't, and its designations.
type Said = (u64, u64, Option<Designation>, Option<Designation>);

/// `2024 EA1`.
const EA1: Designation = Designation::Provisional(Provisional {
    half: HalfMonth {
        year: 2024,
        index: 4,
    },
    order: 26,
});

/// `2040 P-L`.
const SURVEY: Designation = Designation::Survey(Survey::PalomarLeiden, 2040);

const READ: &[(Verb, &[u8], Said)] = &[
    (Verb::Retract, b"{\"observation\":0}", (0, 0, None, None)),
    // The largest whole number, with white space and an escape.
    (
        Verb::Retract,
        b" { \"observ\\u0061tion\" :\n18446744073709551615 } ",
        (18_446_744_073_709_551_615, 0, None, None),
    ),
    // A member twice.
    (
        Verb::Retract,
        b"{\"observation\":1.5,\"observation\":7}",
        (7, 0, None, None),
    ),
    (Verb::Release, b"{\"tracklet\":42}", (42, 0, None, None)),
    (
        Verb::Attribute,
        b"{\"tracklet\":3,\"to\":\"2024 EA1\"}",
        (3, 0, Some(EA1), None),
    ),
    // In another order.
    (
        Verb::Attribute,
        b"{\"to\":\"2040 P-L\",\"tracklet\":3}",
        (3, 0, Some(SURVEY), None),
    ),
    // How many tracklets, and the last one.
    (Verb::Designate, b"{\"tracklets\":[9]}", (1, 9, None, None)),
    (
        Verb::Designate,
        b"{\"tracklets\":[3,0,18446744073709551615]}",
        (3, 18_446_744_073_709_551_615, None, None),
    ),
    // As many as there may be.
    (
        Verb::Designate,
        b"{\"tracklets\":[1,2,3,4,5,6,7,8,9,10,11,12,13,14,15,16,17,18,19,20,21,22,23,24,25,26,27,28,29,30,31,\
          32,33,34,35,36,37,38,39,40,41,42,43,44,45,46,47,48,49,50,51,52,53,54,55,56,57,58,59,60,61,62,63,64,\
          65,66,67,68,69,70,71,72,73,74,75,76,77,78,79,80,81,82,83,84,85,86,87,88,89,90,91,92,93,94,95,96,97,\
          98,99,100]}",
        (100, 100, None, None),
    ),
    (
        Verb::Identify,
        b"{\"principal\":\"2024 EA1\",\"secondary\":\"2040 P-L\"}",
        (0, 0, Some(EA1), Some(SURVEY)),
    ),
    (
        Verb::Separate,
        b"{\"secondary\":\"2040 P-L\"}",
        (0, 0, Some(SURVEY), None),
    ),
    // The least and the greatest numbers.
    (
        Verb::Verdict,
        b"{\"object\":\"2024 EA1\",\"u\":0,\"oppositions\":1}",
        (0, 1, Some(EA1), None),
    ),
    (
        Verb::Verdict,
        b"{\"object\":\"2024 EA1\",\"u\":9,\"oppositions\":255}",
        (9, 255, Some(EA1), None),
    ),
    (
        Verb::Number,
        b"{\"first\":1,\"most\":1}",
        (1, 1, None, None),
    ),
    (
        Verb::Number,
        b"{\"first\":15396335,\"most\":1000}",
        (15_396_335, 1_000, None, None),
    ),
];

const UNREAD: &[(Verb, &[u8])] = &[
    // No member, one too many, another in the place of one.
    (Verb::Retract, b"{}"),
    (Verb::Release, b"{\"tracklet\":1,\"more\":1}"),
    (Verb::Release, b"{\"observation\":1}"),
    (Verb::Attribute, b"{\"tracklet\":1}"),
    (Verb::Identify, b"{\"principal\":\"2024 EA1\"}"),
    (
        Verb::Verdict,
        b"{\"object\":\"2024 EA1\",\"u\":1,\"opposition\":1}",
    ),
    (Verb::Number, b"{\"first\":1,\"most\":1,\"last\":1}"),
    // The last value of a member that stands twice.
    (Verb::Retract, b"{\"observation\":7,\"observation\":\"7\"}"),
    // Numbers with a sign, a point or an exponent, and one that is too large.
    (Verb::Retract, b"{\"observation\":-1}"),
    (Verb::Retract, b"{\"observation\":-0}"),
    (Verb::Release, b"{\"tracklet\":1.0}"),
    (Verb::Release, b"{\"tracklet\":1e0}"),
    (Verb::Retract, b"{\"observation\":18446744073709551616}"),
    // Others than a number; no object.
    (Verb::Retract, b"{\"observation\":\"1\"}"),
    (Verb::Release, b"{\"tracklet\":[1]}"),
    (Verb::Number, b"{\"first\":null,\"most\":1}"),
    (Verb::Retract, b"1"),
    // No tracklet, 101, the same one twice, others than whole numbers, no list.
    (Verb::Designate, b"{\"tracklets\":[]}"),
    (
        Verb::Designate,
        b"{\"tracklets\":[1,2,3,4,5,6,7,8,9,10,11,12,13,14,15,16,17,18,19,20,21,22,23,24,25,26,27,28,29,30,31,\
          32,33,34,35,36,37,38,39,40,41,42,43,44,45,46,47,48,49,50,51,52,53,54,55,56,57,58,59,60,61,62,63,64,\
          65,66,67,68,69,70,71,72,73,74,75,76,77,78,79,80,81,82,83,84,85,86,87,88,89,90,91,92,93,94,95,96,97,\
          98,99,100,101]}",
    ),
    (Verb::Designate, b"{\"tracklets\":[1,2,1]}"),
    (Verb::Designate, b"{\"tracklets\":[1,2.0]}"),
    (Verb::Designate, b"{\"tracklets\":[\"1\"]}"),
    (Verb::Designate, b"{\"tracklets\":1}"),
    // A designation in packed form, one out of range, a number, and others than a string.
    (Verb::Attribute, b"{\"tracklet\":1,\"to\":\"K24E01A\"}"),
    (Verb::Attribute, b"{\"tracklet\":1,\"to\":\"2100 EA\"}"),
    (
        Verb::Identify,
        b"{\"principal\":\"2024 EA1\",\"secondary\":\"1234\"}",
    ),
    (Verb::Separate, b"{\"secondary\":\"PLS2040\"}"),
    (Verb::Separate, b"{\"secondary\":\" 2040 P-L\"}"),
    (Verb::Separate, b"{\"secondary\":2040}"),
    // Out of their ranges.
    (
        Verb::Verdict,
        b"{\"object\":\"2024 EA1\",\"u\":10,\"oppositions\":1}",
    ),
    (
        Verb::Verdict,
        b"{\"object\":\"2024 EA1\",\"u\":0,\"oppositions\":0}",
    ),
    (
        Verb::Verdict,
        b"{\"object\":\"2024 EA1\",\"u\":0,\"oppositions\":256}",
    ),
    (Verb::Number, b"{\"first\":0,\"most\":1}"),
    (Verb::Number, b"{\"first\":15396336,\"most\":1}"),
    (Verb::Number, b"{\"first\":1,\"most\":0}"),
    (Verb::Number, b"{\"first\":1,\"most\":1001}"),
    (Verb::Number, b"{\"first\":4294967297,\"most\":1}"),
];

/// What a body says. Of the tracklets of `designate`, how many there are, and the last.
fn said(alloc: Global, verb: Verb, body: &[u8]) -> Result<Said, BodyFault> {
    match verb {
        Verb::Designate => designate(alloc, body),
        Verb::Attribute => attribute(alloc, body),
        Verb::Release => release(alloc, body),
        Verb::Identify => identify(alloc, body),
        Verb::Separate => separate(alloc, body),
        Verb::Verdict => verdict(alloc, body),
        Verb::Number => number(alloc, body),
        Verb::Retract => retract(alloc, body),
    }
}

fn designate(alloc: Global, body: &[u8]) -> Result<Said, BodyFault> {
    let tracklets = read_designate(alloc, body)?.tracklets;
    let last = tracklets.iter().last().copied().unwrap_or(0);
    Ok((tracklets.len(), last, None, None))
}

fn attribute(alloc: Global, body: &[u8]) -> Result<Said, BodyFault> {
    let found = read_attribute(alloc, body)?;
    Ok((found.tracklet, 0, Some(found.to), None))
}

fn release(alloc: Global, body: &[u8]) -> Result<Said, BodyFault> {
    Ok((read_release(alloc, body)?.tracklet, 0, None, None))
}

fn identify(alloc: Global, body: &[u8]) -> Result<Said, BodyFault> {
    let found = read_identify(alloc, body)?;
    Ok((0, 0, Some(found.principal), Some(found.secondary)))
}

fn separate(alloc: Global, body: &[u8]) -> Result<Said, BodyFault> {
    Ok((0, 0, Some(read_separate(alloc, body)?.secondary), None))
}

fn verdict(alloc: Global, body: &[u8]) -> Result<Said, BodyFault> {
    let found = read_verdict(alloc, body)?;
    Ok((
        u64::from(found.u),
        u64::from(found.oppositions),
        Some(found.object),
        None,
    ))
}

fn number(alloc: Global, body: &[u8]) -> Result<Said, BodyFault> {
    let found = read_number(alloc, body)?;
    Ok((u64::from(found.first), u64::from(found.most), None, None))
}

fn retract(alloc: Global, body: &[u8]) -> Result<Said, BodyFault> {
    Ok((read_retract(alloc, body)?.observation, 0, None, None))
}

/// The first row of which something else is said, counted from 0; None where there is none.
fn wrong_read(alloc: Global) -> Option<usize> {
    for (row, &(verb, body, wanted)) in READ.iter().enumerate() {
        if said(alloc, verb, body) != Ok(wanted) {
            return Some(row);
        }
    }
    None
}

#[test]
fn numbers_and_designations_are_read(rt: HostRuntime) {
    let wrong = wrong_read(rt.alloc());
    expect_none_wrong(&rt, wrong);
}

/// The first row that is read, counted from 0; None where there is none.
fn wrong_unread(alloc: Global) -> Option<usize> {
    for (row, &(verb, body)) in UNREAD.iter().enumerate() {
        if said(alloc, verb, body).err() != Some(BodyFault::Unread) {
            return Some(row);
        }
    }
    None
}

#[test]
fn other_bodies_are_no_acts(rt: HostRuntime) {
    let wrong = wrong_unread(rt.alloc());
    expect_none_wrong(&rt, wrong);
}
