//! Tests of verdicts and numbers, beside plain lists of them.

ghost use Rattle.std.specs.Prelude.{◌≡◌, ◌↔◌, [], IsTrue, IfSome};
ghost use Rattle.numbering_core.specs.Numbers.{next_number};

mod plain;

use crate::objects::orders::given;
use numbering_core::*;
use packed_names::{Designation, Number};
use plain::Plain;
use std::test::Fail;

fn is_next(register: &Register, n: u32) -> bool
    ensures { IsTrue result ↔ IfSome (next_number register.now.numbered) (λ next. n ≡ next) }
{
    match register.next() {
        Some(next) => n == next,
        None => true,
    }
}

// Sets the verdict on the designation in both forms, or voids it; false where memory was refused.
fn change(
    register: &mut Register,
    plain: &mut Plain,
    order: u32,
    verdict: Option<(u8, u8)>,
) -> bool {
    let principal = given(order);
    match verdict {
        Some((u, oppositions)) => {
            if register.reserve(1).is_err() {
                return false;
            }
            register.set(principal, u, oppositions);
            plain
                .set(Verdict {
                    principal,
                    u,
                    oppositions,
                })
                .is_ok()
        }
        None => {
            register.void(principal);
            plain.void(principal);
            true
        }
    }
}

fn is_open(register: &Register, order: u32) -> bool {
    register.open().find(&given(order)).is_some()
}

// Of designations without a number those are open that have a good verdict.
fn is_good(register: &Register, plain: &Plain, order: u32, good: bool) -> bool {
    register.good(given(order)) == good
        && plain.good(given(order)) == good
        && is_open(register, order) == good
}

// A designation, its verdict or None where that is voided, and of which designations the verdicts then are good.
const VERDICTS: [(u32, Option<(u8, u8)>, [bool; 4]); 9] = [
    (1, Some((2, 4)), [true, false, false, false]),
    (1, Some((3, 4)), [false, false, false, false]),
    (1, Some((2, 3)), [false, false, false, false]),
    (1, Some((0, 40)), [true, false, false, false]),
    (2, Some((9, 1)), [true, false, false, false]),
    (2, Some((1, 5)), [true, true, false, false]),
    (4, None, [true, true, false, false]),
    (2, None, [true, false, false, false]),
    (3, None, [true, false, false, false]),
];

// After how many of the changes the verdicts are good that are told beside them.
fn right_verdicts(register: &mut Register, plain: &mut Plain) -> usize {
    let mut count: usize = 0;
    for (order, verdict, good) in VERDICTS {
        if change(register, plain, order, verdict)
            && is_good(register, plain, 1, good[0])
            && is_good(register, plain, 2, good[1])
            && is_good(register, plain, 3, good[2])
            && is_good(register, plain, 4, good[3])
        {
            count = count.saturating_add(1);
        }
    }
    count
}

#[test]
fn verdicts_until_they_are_voided(rt: HostRuntime) -> Result<(), Fail> {
    let mut register = Register::new(rt.alloc())?;
    let mut plain = Plain::new(rt.alloc());
    assert_eq!(rt; right_verdicts(&mut register, &mut plain), VERDICTS.len());
    Ok(())
}

// Gives the number in both forms where it may be given, and tells whether it was; None where memory was refused.
fn numbered(register: &mut Register, plain: &mut Plain, order: u32, n: u32) -> Option<bool> {
    let d = given(order);
    if n < 1 || n > 15_396_335 || !is_next(register, n) || register.number_of(d).is_some() {
        return Some(false);
    }
    if register.reserve(1).is_err() {
        return None;
    }
    register.take(d, Number(n));
    plain.take(d, Number(n)).ok()?;
    Some(true)
}

// Whether four designations have the same numbers in both forms, and four numbers the same designations.
fn are_alike(register: &Register, plain: &Plain) -> bool {
    for order in 1..=4u32 {
        let d = given(order);
        let n = Number(619_998 + order);
        if register.number_of(d) != plain.number_of(d) || register.named(n) != plain.named(n) {
            return false;
        }
    }
    true
}

// A designation, a number, and whether it is given.
const NUMBERS: [(u32, u32, bool); 7] = [
    (1, 0, false),
    (1, 15_396_336, false),
    (1, 620_000, true),
    (2, 620_000, false),
    (2, 620_002, false),
    (1, 620_001, false),
    (2, 620_001, true),
];

// How many of the numbers are given as is told beside them, with both forms alike.
fn right_numbers(register: &mut Register, plain: &mut Plain) -> usize {
    let mut count: usize = 0;
    for (order, n, is_given) in NUMBERS {
        if numbered(register, plain, order, n) == Some(is_given) && are_alike(register, plain) {
            count = count.saturating_add(1);
        }
    }
    count
}

// What stands after the last number, and what the last designation and the last number stand for.
fn newest(register: &Register) -> (Option<u32>, Option<Number>, Option<Designation>) {
    (
        register.next(),
        register.number_of(given(2)),
        register.named(Number(620_001)),
    )
}

#[test]
fn numbers_in_a_row(rt: HostRuntime) -> Result<(), Fail> {
    let mut register = Register::new(rt.alloc())?;
    assert_eq!(rt; register.next(), None);
    let mut plain = Plain::new(rt.alloc());
    assert_eq!(rt; right_numbers(&mut register, &mut plain), NUMBERS.len());
    let last = (Some(620_002), Some(Number(620_001)), Some(given(2)));
    assert_eq!(rt; newest(&register), last);
    Ok(())
}

// Whether each of two designations with good verdicts is open, of which the second one got a number.
fn open_after(register: &mut Register) -> Option<(bool, bool)>
    requires { register.old.numbered ≡ [] }
{
    register.reserve(3).ok()?;
    register.set(given(1), 2, 4);
    register.set(given(2), 0, 9);
    register.take(given(2), Number(620_000));
    Some((is_open(register, 1), is_open(register, 2)))
}

#[test]
fn open_until_numbered(rt: HostRuntime) -> Result<(), Fail> {
    let mut register = Register::new(rt.alloc())?;
    assert_eq!(rt; open_after(&mut register), Some((true, false)));
    Ok(())
}
