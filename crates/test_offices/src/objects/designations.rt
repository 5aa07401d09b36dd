//! Tests of the rows of designations, beside a plain list of them.

ghost use Rattle.packed_names.specs.Ranges.{IsHalfMonth};

mod openings;
mod plain;

use designate_core::*;
use item_list::NoMemory;
use packed_names::{Designation, HalfMonth, Name, read, read_half};
use plain::Plain;
use std::alloc::Global;

// The order of the designation that is given in the half-month, or 0 where it is full.
fn order_given(rows: &mut Rows, half: HalfMonth, discovery: u64) -> Result<u32, NoMemory>
    requires { IsHalfMonth half }
{
    rows.reserve()?;
    match rows.next(half) {
        Some(_) => Ok(rows.take(half, discovery).order),
        None => Ok(0),
    }
}

// The same, in the half-month with this printed form.
fn order_given_in(rows: &mut Rows, half: &[u8], discovery: u64) -> Result<u32, NoMemory> {
    match read_half(half) {
        Ok(half) => order_given(rows, half, discovery),
        Err(_) => Ok(0),
    }
}

// The discovery observation of the designation with this printed form, or 0 where there is none.
fn discovery(rows: &Rows, name: &[u8]) -> u64 {
    match read(name) {
        Ok(Name::Designation(d)) => rows.find(d).unwrap_or(0),
        _ => 0,
    }
}

// The same in the plain form.
fn plain_order_given_in(plain: &mut Plain, half: &[u8], discovery: u64) -> Result<u32, NoMemory> {
    match read_half(half) {
        Ok(half) => plain.take(half, discovery),
        Err(_) => Ok(0),
    }
}

fn plain_discovery(plain: &Plain, name: &[u8]) -> u64 {
    match read(name) {
        Ok(Name::Designation(d)) => plain.find(d).unwrap_or(0),
        _ => 0,
    }
}

/// A half-month, a discovery observation, and the order that is given to it there.
const TAKES: &[(&[u8], u64, u32)] = &[
    (b"2024 E", 7, 1),
    (b"2024 F", 3, 1),
    (b"2024 E", 9, 2),
    (b"2023 E", 4, 1),
    (b"2024 E", 2, 3),
    (b"2024 F", 8, 2),
];

// Whether that order is given, in both forms.
fn are_given(rows: &mut Rows, plain: &mut Plain, half: &[u8], discovery: u64, order: u32) -> bool {
    order_given_in(rows, half, discovery).ok() == Some(order)
        && plain_order_given_in(plain, half, discovery).ok() == Some(order)
}

// The first of them that is given another order, counted from 0; None where there is none.
fn wrong_take(rows: &mut Rows, plain: &mut Plain) -> Option<usize> {
    for (row, &(half, discovery, order)) in TAKES.iter().enumerate() {
        if !are_given(rows, plain, half, discovery, order) {
            return Some(row);
        }
    }
    None
}

/// Designations and their discovery observations, 0 where there is none.
const DISCOVERIES: &[(&[u8], u64)] = &[
    (b"2024 EA", 7),
    (b"2024 EB", 9),
    (b"2024 EC", 2),
    (b"2024 ED", 0),
    (b"2024 FA", 3),
    (b"2024 FB", 8),
    (b"2023 EA", 4),
    (b"2023 EB", 0),
    (b"1 P-L", 0),
];

// The first of them that has another one, counted from 0; None where there is none.
fn wrong_discovery(rows: &Rows, plain: &Plain) -> Option<usize> {
    for (row, &(name, wanted)) in DISCOVERIES.iter().enumerate() {
        if discovery(rows, name) != wanted || plain_discovery(plain, name) != wanted {
            return Some(row);
        }
    }
    None
}

// The first wrong take and the first wrong discovery; None where memory was refused.
fn wrong_rows(alloc: Global) -> Option<[Option<usize>; 2]> {
    let mut rows = Rows::new(alloc).ok()?;
    let mut plain = Plain::new(alloc);
    let taken = wrong_take(&mut rows, &mut plain);
    Some([taken, wrong_discovery(&rows, &plain)])
}

#[test]
fn half_months_have_rows_of_their_own(rt: HostRuntime) {
    let wrong = wrong_rows(rt.alloc());
    assert_eq!(rt; wrong, Some([None; 2]));
}

// The first order that isn't the next one in 1998 S, up to 15,500; 0 where there is none.
fn wrong_order(rows: &mut Rows) -> u32 {
    for order in 1..=15_500u32 {
        if order_given_in(rows, b"1998 S", u64::from(order)).ok() != Some(order) {
            return order;
        }
    }
    0
}

// How many designations a half-month of 1998 has, and whether there may be a further one.
fn in_1998(rows: &Rows, index: u8) -> (u32, bool) {
    if index > 23 {
        return (0, false);
    }
    let half = HalfMonth { year: 1998, index };
    (rows.given(half), rows.next(half).is_some())
}

// The first wrong order of 1998 S, what it and 1998 T have then, and the last designation's discovery observation.
fn full(alloc: Global) -> Option<(u32, (u32, bool), (u32, bool), u64)> {
    let mut rows = Rows::new(alloc).ok()?;
    let wrong = wrong_order(&mut rows);
    Some((
        wrong,
        in_1998(&rows, 17),
        in_1998(&rows, 18),
        discovery(&rows, b"1998 SZ619"),
    ))
}

#[test]
fn a_half_month_before_2000_has_15500(rt: HostRuntime) {
    let found = full(rt.alloc());
    assert_eq!(rt; found, Some((0, (15_500, false), (0, true), 15_500)));
}
