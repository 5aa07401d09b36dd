//! Digits, decimals and numbers that are read, and texts that are written.

use crate::tables::expect_none_wrong;
use arrayvec::ArrayVec;
use ascii_text::blanks::{are_blanks, trimmed};
use ascii_text::digits::Radix;
use ascii_text::numbers::decimal_number;
use ascii_text::reading::{Decimals, decimals_at, decimals_within, digits_at, number_at};
use ascii_text::writing::{put_blanks, put_decimal, put_decimals, put_digits};

/// The value of the digits that were read, without the text after them.
fn value_of(found: Option<(u64, &[u8])>) -> Option<u64> {
    match found {
        Some((value, _)) => Some(value),
        None => None,
    }
}

fn three_digits(text: &[u8]) -> Option<u64> {
    value_of(digits_at(Radix::Ten, 3, text))
}

fn two_digits(text: &[u8]) -> Option<u64> {
    value_of(digits_at(Radix::Ten, 2, text))
}

fn one_of_sixty_two(text: &[u8]) -> Option<u64> {
    value_of(digits_at(Radix::SixtyTwo, 1, text))
}

fn four_of_sixty_two(text: &[u8]) -> Option<u64> {
    value_of(digits_at(Radix::SixtyTwo, 4, text))
}

/// The numbers of the Minor Planet Center's page on packed designations: `z` is 61, `zzzz` is 62^4 - 1.
fn digits() -> [Option<u64>; 5] {
    [
        three_digits(b"007."),
        two_digits(b"1a"),
        one_of_sixty_two(b"z"),
        four_of_sixty_two(b"zzzz"),
        four_of_sixty_two(b"zzz"),
    ]
}

/// A text, the count and the value of the decimals at its front, and how many bytes stand after them.
const DECIMALS: &[(&[u8], Option<(usize, u64, usize)>)] = &[
    (b".567", Some((3, 567, 0))),
    (b"   ", Some((0, 0, 3))),
    (b".05 ", Some((2, 5, 1))),
    (b". ", None),
];

fn decimals_in(text: &[u8]) -> Option<(usize, u64, usize)> {
    if text.len() > 18 {
        return None;
    }
    let (decimals, rest) = decimals_at(text)?;
    Some((decimals.count, decimals.value, rest.len()))
}

/// The first row that is read as something else, counted from 0; None where there is none. So are those below.
fn wrong_decimals() -> Option<usize> {
    for (row, &(text, wanted)) in DECIMALS.iter().enumerate() {
        if decimals_in(text) != wanted {
            return Some(row);
        }
    }
    None
}

/// A text, how many decimals of at most nine are taken at its front, and how many bytes stand after all its decimals.
const FEW_DECIMALS: &[(&[u8], Option<(Option<usize>, usize)>)] = &[
    (b".123456Z", Some((Some(6), 1))),
    (b".0000000000000000000001Z", Some((None, 1))),
];

fn wrong_few_decimals() -> Option<usize> {
    for (row, &(text, wanted)) in FEW_DECIMALS.iter().enumerate() {
        let found = decimals_within(9, text).map(|x| (x.0.map(|d| d.count), x.1.len()));
        if found != wanted {
            return Some(row);
        }
    }
    None
}

/// A text, and the number of at most three digits without a leading zero at its front.
const NUMBERS: &[(&[u8], Option<u64>)] = &[
    (b"0|", Some(0)),
    (b"703 ", Some(703)),
    (b"07", None),
    (b"1000", None),
    (b"", None),
];

fn wrong_number() -> Option<usize> {
    for (row, &(text, wanted)) in NUMBERS.iter().enumerate() {
        if number_at(3, text).map(|x| x.0) != wanted {
            return Some(row);
        }
    }
    None
}

#[test]
fn reads(rt: HostRuntime) {
    let found = digits();
    assert_eq!(rt; found, [Some(7), None, Some(61), Some(14_776_335), None]);
    expect_none_wrong(&rt, wrong_decimals());
    expect_none_wrong(&rt, wrong_few_decimals());
    expect_none_wrong(&rt, wrong_number());
}

/// What a decimal number is: how many digits stand before its point, their value, and the count and the value of its
/// decimals; nothing inside where these are too many.
type Parts = Option<Option<(usize, u64, usize, u64)>>;

/// A right ascension of ADES in degrees has at most three digits before its point; here three decimals are taken.
const DECIMAL_NUMBERS: &[(&[u8], Parts)] = &[
    (b"007", Some(Some((3, 7, 0, 0)))),
    (b"7.050", Some(Some((1, 7, 3, 50)))),
    (b"7.0505", Some(None)),
    (b"1000", None),
    (b"7.", None),
    (b".5", None),
    (b"7.5 ", None),
    (b"", None),
];

fn parts_of(text: &[u8]) -> Parts {
    match decimal_number(3, 3, text) {
        Some(Some(n)) => { Some(Some((n.digits, n.whole, n.decimals.count, n.decimals.value))) }
        Some(None) => Some(None),
        None => None,
    }
}

fn wrong_decimal_number() -> Option<usize> {
    for (row, &(text, wanted)) in DECIMAL_NUMBERS.iter().enumerate() {
        if parts_of(text) != wanted {
            return Some(row);
        }
    }
    None
}

#[test]
fn reads_decimal_numbers(rt: HostRuntime) {
    expect_none_wrong(&rt, wrong_decimal_number());
}

/// Three digits, two decimals, a blank, a number and four digits to the base 62, one after the other.
#[tactic(auto, using(crate::proofs::Lengths::length_decimal_u64))]
fn written() -> ArrayVec<u8, 40> {
    let mut out = ArrayVec::<u8, 40>::new();
    put_digits(&mut out, Radix::Ten, 3, 7);
    put_decimals(&mut out, Decimals { count: 2, value: 5 });
    put_blanks(&mut out, 1);
    put_decimal(&mut out, 703);
    put_digits(&mut out, Radix::SixtyTwo, 4, 14_776_335);
    out
}

#[test]
fn trims_and_writes(rt: HostRuntime) {
    assert_eq!(rt; trimmed(b"  a b "), b"a b".as_slice());
    assert_eq!(rt; trimmed(b"   "), b"".as_slice());
    let blank = (are_blanks(b"  "), are_blanks(b" \t"));
    assert_eq!(rt; blank, (true, false));
    let out = written();
    assert_eq!(rt; out.as_slice(), b"007.05 703zzzz".as_slice());
}
