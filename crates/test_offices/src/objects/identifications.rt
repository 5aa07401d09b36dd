//! Tests of links between designations, beside a plain list of them.

ghost use Rattle.std.specs.Prelude.{◌≡◌, ◌↔◌, ◌+◌, ◌≤◌, IsTrue};
ghost use Rattle.identify_core.specs.Principals.{principal_of, IsPrincipal};

mod plain;

use crate::objects::orders::given;
use identify_core::*;
use item_list::NoMemory;
use packed_names::Designation;
use plain::Plain;
use std::test::Fail;

fn is_same(one: Designation, other: Designation) -> bool
    ensures { IsTrue result ↔ (one ≡ other) }
{
    one == other
}

fn is_principal(links: &Links, d: Designation) -> bool
    ensures { IsTrue result ↔ IsPrincipal links.now.links d }
{
    match links.principal(d) {
        Some(p) => is_same(p, d),
        None => false,
    }
}

// Each of these does what it is asked where it may be done, in both forms, and tells whether it was.

fn added(links: &mut Links, plain: &mut Plain, order: u32) -> Result<bool, NoMemory> {
    let d = given(order);
    links.reserve()?;
    if links.principal(d).is_some() {
        return Ok(false);
    }
    links.add(d);
    plain.add(d)?;
    Ok(true)
}

fn joined(links: &mut Links, plain: &mut Plain, principal: u32, secondary: u32) -> bool {
    let p = given(principal);
    let s = given(secondary);
    if is_same(p, s) {
        return false;
    }
    if is_principal(links, p) && is_principal(links, s) {
        links.join(p, s);
        plain.join(p, s);
        return true;
    }
    false
}

fn parted(links: &mut Links, plain: &mut Plain, secondary: u32) -> bool {
    let s = given(secondary);
    if is_principal(links, s) {
        return false;
    }
    links.part(s);
    plain.part(s);
    true
}

// What is asked of links, by orders.
#[derive(Clone, Copy)]
enum Call {
    Add(u32),
    Join(u32, u32),
    Part(u32),
}

fn done(links: &mut Links, plain: &mut Plain, call: Call) -> bool {
    match call {
        Call::Add(order) => matches!(added(links, plain, order), Ok(true)),
        Call::Join(principal, secondary) => joined(links, plain, principal, secondary),
        Call::Part(secondary) => parted(links, plain, secondary),
    }
}

// The orders after those that these digits have.
fn with_digit(digits: u32, d: Designation) -> u32 {
    match d {
        Designation::Provisional(given) => digits.wrapping_mul(10).wrapping_add(given.order),
        Designation::Survey(_, _) => 0,
    }
}

// The orders of a principal's members, in the order of the links, as the digits of a number.
fn members(links: &Links, principal: u32) -> u32 {
    let mut digits = 0;
    for link in links.members(given(principal)) {
        digits = with_digit(digits, link.member);
    }
    digits
}

// The orders of all principals, in the order of the links, as the digits of a number.
fn principals(links: &Links) -> u32 {
    let mut digits = 0;
    for link in links.as_slice() {
        if link.is_own() {
            digits = with_digit(digits, link.member);
        }
    }
    digits
}

// Whether each designation has the same principal in both forms.
fn are_alike(links: &Links, plain: &Plain) -> bool {
    for order in 1..=4 {
        let d = given(order);
        if links.principal(d) != plain.principal(d) {
            return false;
        }
    }
    true
}

// A call, whether it may be done, and then all principals and the members of the first three designations.
const CALLS: [(Call, bool, u32, [u32; 3]); 12] = [
    (Call::Part(1), true, 0, [0, 0, 0]),
    (Call::Add(3), true, 3, [0, 0, 3]),
    (Call::Add(1), true, 13, [1, 0, 3]),
    (Call::Add(2), true, 123, [1, 2, 3]),
    (Call::Add(2), false, 123, [1, 2, 3]),
    (Call::Join(2, 3), true, 12, [1, 23, 0]),
    (Call::Join(1, 2), true, 1, [123, 0, 0]),
    (Call::Part(2), true, 12, [13, 2, 0]),
    (Call::Part(2), false, 12, [13, 2, 0]),
    (Call::Join(1, 3), false, 12, [13, 2, 0]),
    (Call::Join(1, 1), false, 12, [13, 2, 0]),
    (Call::Join(2, 1), true, 2, [0, 123, 0]),
];

fn told(links: &Links) -> (u32, [u32; 3]) {
    let of = [members(links, 1), members(links, 2), members(links, 3)];
    (principals(links), of)
}

// How many of the calls do in both forms what is told beside them.
fn right_calls(links: &mut Links, plain: &mut Plain) -> usize {
    let mut count: usize = 0;
    for (call, may, all, of) in CALLS {
        if done(links, plain, call) == may && told(links) == (all, of) && are_alike(links, plain) {
            count = count.saturating_add(1);
        }
    }
    count
}

#[test]
fn identified_and_separated(rt: HostRuntime) -> Result<(), Fail> {
    let mut links = Links::new(rt.alloc())?;
    let mut plain = Plain::new(rt.alloc());
    assert_eq!(rt; right_calls(&mut links, &mut plain), CALLS.len());
    Ok(())
}

// Adds the designation in room that was taken before. It takes no memory.
fn added_in_room(links: &mut Links, d: Designation) -> bool
    requires { 1 ≤ links.old.spare }
    ensures { links.old.spare ≤ links.new.spare + 1 }
{
    if links.principal(d).is_some() {
        return false;
    }
    links.add(d);
    true
}

// Takes room for three designations at once and adds them, out of their order. How many were added.
fn added_at_once(links: &mut Links) -> Result<u32, NoMemory> {
    links.reserve_many(3)?;
    let mut count: u32 = 0;
    if added_in_room(links, given(3)) {
        count = count.saturating_add(1);
    }
    if added_in_room(links, given(1)) {
        count = count.saturating_add(1);
    }
    if added_in_room(links, given(2)) {
        count = count.saturating_add(1);
    }
    Ok(count)
}

#[test]
fn room_for_many_at_once(rt: HostRuntime) -> Result<(), Fail> {
    let mut links = Links::new(rt.alloc())?;
    links.reserve_many(0)?;
    assert_eq!(rt; added_at_once(&mut links)?, 3);
    assert_eq!(rt; told(&links), (123, [1, 2, 3]));
    Ok(())
}
