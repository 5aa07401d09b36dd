//! Half-months in which designations were given elsewhere: they are opened with a count, and counted on from there.

ghost use Rattle.packed_names.specs.Ranges.{IsHalfMonth};

use super::plain::Plain;
use super::{discovery, order_given, plain_discovery};
use designate_core::*;
use item_list::NoMemory;
use packed_names::{HalfMonth, limit, read_half};
use std::alloc::Global;

/// What is asked of a half-month. Each is answered by a number; yes is 1, and no is 0.
#[derive(Clone, Copy)]
enum Asked {
    /// To be opened with the number as its count: whether it may be.
    Open,
    /// To give a designation by the number as discovery observation: its order, or 0 where the half-month is full.
    Take,
    /// Whether it is begun.
    Begun,
    /// How many were given.
    Given,
    /// The order that comes next, or 0 where the half-month is full.
    Next,
}

fn opened(rows: &mut Rows, half: HalfMonth, given: u32) -> Result<bool, NoMemory>
    requires { IsHalfMonth half }
{
    rows.reserve()?;
    if rows.begun(half) {
        return Ok(false);
    }
    if given == 0 || given > limit(half) {
        return Ok(false);
    }
    rows.open(half, given);
    Ok(true)
}

fn answer(rows: &mut Rows, half: HalfMonth, asked: Asked, number: u32) -> Result<u32, NoMemory>
    requires { IsHalfMonth half }
{
    match asked {
        Asked::Open => Ok(u32::from(opened(rows, half, number)?)),
        Asked::Take => order_given(rows, half, u64::from(number)),
        Asked::Begun => Ok(u32::from(rows.begun(half))),
        Asked::Given => Ok(rows.given(half)),
        Asked::Next => Ok(rows.next(half).map_or(0, |next| next.order)),
    }
}

// The same in the plain form.

fn plain_opened(plain: &mut Plain, half: HalfMonth, given: u32) -> Result<bool, NoMemory>
    requires { IsHalfMonth half }
{
    if plain.begun(half) || given == 0 || given > limit(half) {
        return Ok(false);
    }
    plain.open(half, given)?;
    Ok(true)
}

fn plain_next(plain: &Plain, half: HalfMonth) -> u32
    requires { IsHalfMonth half }
{
    if plain.given(half) < limit(half) {
        plain.given(half).saturating_add(1)
    } else {
        0
    }
}

fn plain_taken(plain: &mut Plain, half: HalfMonth, discovery: u64) -> Result<u32, NoMemory>
    requires { IsHalfMonth half }
{
    if plain_next(plain, half) == 0 {
        return Ok(0);
    }
    plain.take(half, discovery)
}

fn plain_answer(
    plain: &mut Plain,
    half: HalfMonth,
    asked: Asked,
    number: u32,
) -> Result<u32, NoMemory>
    requires { IsHalfMonth half }
{
    match asked {
        Asked::Open => Ok(u32::from(plain_opened(plain, half, number)?)),
        Asked::Take => plain_taken(plain, half, u64::from(number)),
        Asked::Begun => Ok(u32::from(plain.begun(half))),
        Asked::Given => Ok(plain.given(half)),
        Asked::Next => Ok(plain_next(plain, half)),
    }
}

/// A half-month, what is asked of it with a number, and the answer.
type Row = (&'static [u8], Asked, u32, u32);

/// Two half-months that are opened, one that is begun by a take, and others beside them.
const BESIDE: &[Row] = &[
    (b"2024 E", Asked::Begun, 0, 0),
    (b"2024 E", Asked::Given, 0, 0),
    (b"2024 E", Asked::Next, 0, 1),
    (b"2024 E", Asked::Open, 0, 0),
    (b"2024 E", Asked::Open, 3, 1),
    (b"2024 E", Asked::Begun, 0, 1),
    (b"2024 E", Asked::Given, 0, 3),
    (b"2024 E", Asked::Next, 0, 4),
    (b"2024 E", Asked::Open, 9, 0),
    (b"2024 E", Asked::Take, 7, 4),
    (b"2024 E", Asked::Given, 0, 4),
    (b"2024 F", Asked::Begun, 0, 0),
    (b"2024 F", Asked::Next, 0, 1),
    (b"2024 F", Asked::Take, 3, 1),
    (b"2024 F", Asked::Begun, 0, 1),
    (b"2024 F", Asked::Open, 5, 0),
    (b"2024 F", Asked::Given, 0, 1),
    (b"2023 E", Asked::Begun, 0, 0),
    (b"2023 E", Asked::Given, 0, 0),
    (b"2023 E", Asked::Open, 26, 1),
    (b"2023 E", Asked::Take, 4, 27),
    (b"2024 E", Asked::Take, 9, 5),
    (b"2024 E", Asked::Next, 0, 6),
    (b"2024 F", Asked::Next, 0, 2),
    (b"2024 D", Asked::Begun, 0, 0),
    (b"2024 D", Asked::Next, 0, 1),
];

/// Orders 1 to 3 of 2024 E and 1 to 26 of 2023 E were given elsewhere, so that no observation here discovered them.
const BESIDE_FOUND: &[(&[u8], u64)] = &[
    (b"2024 EA", 0),
    (b"2024 EC", 0),
    (b"2024 ED", 7),
    (b"2024 EE", 9),
    (b"2024 EF", 0),
    (b"2024 FA", 3),
    (b"2024 FB", 0),
    (b"2023 EA", 0),
    (b"2023 EA1", 0),
    (b"2023 EB1", 4),
    (b"2023 EC1", 0),
    (b"1 P-L", 0),
];

/// Half-months that are opened to their limits, to one less and beyond: 14,791,836 from 2000 to 2061, else 15,500.
const EDGES: &[Row] = &[
    (b"1998 S", Asked::Open, 15_501, 0),
    (b"1998 S", Asked::Begun, 0, 0),
    (b"1998 S", Asked::Open, 15_500, 1),
    (b"1998 S", Asked::Given, 0, 15_500),
    (b"1998 S", Asked::Next, 0, 0),
    (b"1998 S", Asked::Take, 2, 0),
    (b"1998 T", Asked::Open, 15_499, 1),
    (b"1998 T", Asked::Next, 0, 15_500),
    (b"1998 T", Asked::Take, 5, 15_500),
    (b"1998 T", Asked::Next, 0, 0),
    (b"1998 T", Asked::Given, 0, 15_500),
    (b"2024 E", Asked::Open, 14_791_837, 0),
    (b"2024 E", Asked::Open, 14_791_835, 1),
    (b"2024 E", Asked::Next, 0, 14_791_836),
    (b"2024 E", Asked::Take, 1, 14_791_836),
    (b"2024 E", Asked::Given, 0, 14_791_836),
    (b"2024 E", Asked::Next, 0, 0),
    (b"2024 F", Asked::Open, 14_791_836, 1),
    (b"2024 F", Asked::Next, 0, 0),
    (b"1999 Y", Asked::Open, 15_500, 1),
    (b"1999 Y", Asked::Next, 0, 0),
    (b"2000 A", Asked::Open, 15_500, 1),
    (b"2000 A", Asked::Next, 0, 15_501),
    (b"2061 Y", Asked::Open, 15_500, 1),
    (b"2061 Y", Asked::Next, 0, 15_501),
    (b"2062 A", Asked::Open, 15_501, 0),
    (b"2062 A", Asked::Open, 15_500, 1),
    (b"2062 A", Asked::Next, 0, 0),
    (b"1925 A", Asked::Open, 1, 1),
    (b"1925 A", Asked::Next, 0, 2),
];

/// The last designation of each half-month, the one before it, and the first.
const EDGES_FOUND: &[(&[u8], u64)] = &[
    (b"1998 SZ619", 0),
    (b"1998 TY619", 0),
    (b"1998 TZ619", 5),
    (b"2024 EA", 0),
    (b"2024 EK591673", 0),
    (b"2024 EL591673", 1),
    (b"2024 FL591673", 0),
];

// Whether that is the answer, in both forms.
fn is_answered(rows: &mut Rows, plain: &mut Plain, row: Row) -> bool {
    let (half, asked, number, wanted) = row;
    match read_half(half) {
        Ok(half) => {
            answer(rows, half, asked, number).ok() == Some(wanted)
                && plain_answer(plain, half, asked, number).ok() == Some(wanted)
        }
        Err(_) => false,
    }
}

// The first row that is answered otherwise, counted from 0; None where there is none.
fn wrong_answer(rows: &mut Rows, plain: &mut Plain, table: &[Row]) -> Option<usize> {
    for (place, row) in table.iter().enumerate() {
        if !is_answered(rows, plain, *row) {
            return Some(place);
        }
    }
    None
}

// The first designation that another observation discovered, counted from 0; None where there is none.
fn wrong_found(rows: &Rows, plain: &Plain, found: &[(&[u8], u64)]) -> Option<usize> {
    for (place, &(name, wanted)) in found.iter().enumerate() {
        if discovery(rows, name) != wanted || plain_discovery(plain, name) != wanted {
            return Some(place);
        }
    }
    None
}

// The first wrong row of each table; None where memory was refused.
fn wrong_rows(alloc: Global, table: &[Row], found: &[(&[u8], u64)]) -> Option<[Option<usize>; 2]> {
    let mut rows = Rows::new(alloc).ok()?;
    let mut plain = Plain::new(alloc);
    let answered = wrong_answer(&mut rows, &mut plain, table);
    Some([answered, wrong_found(&rows, &plain, found)])
}

#[test]
fn a_half_month_is_counted_on_from_its_opening(rt: HostRuntime) {
    let wrong = wrong_rows(rt.alloc(), BESIDE, BESIDE_FOUND);
    assert_eq!(rt; wrong, Some([None; 2]));
}

#[test]
fn half_months_are_opened_to_their_limits(rt: HostRuntime) {
    let wrong = wrong_rows(rt.alloc(), EDGES, EDGES_FOUND);
    assert_eq!(rt; wrong, Some([None; 2]));
}

// What is asked of the nth half-month from 1925 on.
fn asked_of(rows: &mut Rows, n: u32, asked: Asked, number: u32) -> Option<u32> {
    let year = u16::try_from(n / 24).ok()?.checked_add(1925)?;
    let index = u8::try_from(n % 24).ok()?;
    if year > 2099 {
        return None;
    }
    answer(rows, HalfMonth { year, index }, asked, number).ok()
}

// The first of all half-months that can't be opened, the nth with the count 3 n + 1; 4,200 where there is none.
fn wrong_opening(rows: &mut Rows) -> u32 {
    for step in 0..4_200u32 {
        let n = step * 1_009 % 4_200;
        if asked_of(rows, n, Asked::Open, 3 * n + 1) != Some(1) {
            return n;
        }
    }
    4_200
}

// The first of all half-months that doesn't give the order after its count; 4,200 where there is none.
fn wrong_next(rows: &mut Rows) -> u32 {
    for n in 0..4_200u32 {
        if asked_of(rows, n, Asked::Take, n) != Some(3 * n + 2) {
            return n;
        }
    }
    4_200
}

// The first of all half-months that doesn't have one more then; 4,200 where there is none.
fn wrong_count(rows: &mut Rows) -> u32 {
    for n in 0..4_200u32 {
        if asked_of(rows, n, Asked::Given, 0) != Some(3 * n + 2) {
            return n;
        }
    }
    4_200
}

fn all_half_months(alloc: Global) -> Option<[u32; 3]> {
    let mut rows = Rows::new(alloc).ok()?;
    let opening = wrong_opening(&mut rows);
    let next = wrong_next(&mut rows);
    Some([opening, next, wrong_count(&mut rows)])
}

#[test]
fn all_half_months_are_opened_beside_each_other(rt: HostRuntime) {
    let found = all_half_months(rt.alloc());
    assert_eq!(rt; found, Some([4_200; 3]));
}
