//! Texts that are no comets, and their faults.

use super::tables::expect_none_wrong;
use comet_names::{read_comet, unpack_comet};
use packed_names::NameFault;

/// Packed texts out of range: the years 1895, 1924 and 1899, and the number 0.
const PACKED_OUT: &[&[u8]] = &[
    b"CI95O010",
    b"CJ24Y010",
    b"CJ95O000",
    b"PI99Y990",
    b"PK00A000",
];

/// Printed texts out of range: years before 1925 and after 2099, and numbers that aren't 1 to 99.
const PRINTED_OUT: &[&[u8]] = &[
    b"C/1924 Y1",
    b"C/2100 A1",
    b"C/2024 E0",
    b"C/2024 E100",
    b"C/2024 E999",
    b"P/0000 A1",
    b"P/9999 Y999",
];

/// Texts that spell no packed comet.
const NOT_PACKED: &[&[u8]] = &[
    b"XJ95O010",
    b"DJ95O010",
    b"cJ95O010",
    b"CJ95I010",
    b"CJ95Z010",
    b"CL95O010",
    b"CJ95O01a",
    b"CJ95O011",
    b"CJ95O01",
    b"CJ95O0100",
    b"CJ9 O010",
    b"",
    b"Cj95O010",
    b"CJ95o010",
    b"CJ95O0a0",
    b"CJ95O 10",
    b" CJ95O01",
    b"J95O010",
    b"C/1995 O1",
    // what is out of range and misspelt is misspelt
    b"CJ95O001",
    b"CI95I010",
];

/// Texts that spell no printed comet.
const NOT_PRINTED: &[&[u8]] = &[
    b"C/2024 E01",
    b"C/2024 E1000",
    b"C/2024 E",
    b"C/2024E1",
    b"C2024 E1",
    b"C/2024 I1",
    b"C/2024 E1 ",
    b"",
    b"c/2024 E1",
    b"X/2024 E1",
    b"C/2024 e1",
    b"C/2024 Z1",
    b"C/2024 E1-A",
    b"C/2024  E1",
    b"C/ 2024 E1",
    b"C/224 E1",
    b"C/02024 E1",
    b"C-2024 E1",
    b"2024 E1",
    b"C/",
    b"CJ95O010",
    // what is out of range and misspelt is misspelt
    b"C/2024 E00",
    b"C/1924 Y01",
];

/// The first text that has another fault or none, counted from 0; None where there is none. So are those below.
fn wrong_packed(texts: &[&[u8]], fault: NameFault) -> Option<usize> {
    for (row, &text) in texts.iter().enumerate() {
        if unpack_comet(text) != Err(fault) {
            return Some(row);
        }
    }
    None
}

fn wrong_printed(texts: &[&[u8]], fault: NameFault) -> Option<usize> {
    for (row, &text) in texts.iter().enumerate() {
        if read_comet(text) != Err(fault) {
            return Some(row);
        }
    }
    None
}

#[test]
fn texts_are_out_of_range(rt: HostRuntime) {
    expect_none_wrong(&rt, wrong_packed(PACKED_OUT, NameFault::OutOfRange));
    expect_none_wrong(&rt, wrong_printed(PRINTED_OUT, NameFault::OutOfRange));
}

#[test]
fn texts_are_misspelt(rt: HostRuntime) {
    expect_none_wrong(&rt, wrong_packed(NOT_PACKED, NameFault::Spelling));
    expect_none_wrong(&rt, wrong_printed(NOT_PRINTED, NameFault::Spelling));
}

/// The first place at which a byte of 200 leaves the packed text a comet's or out of range.
fn wrong_byte_in_packed() -> Option<usize> {
    for place in 0..8 {
        let mut text = *b"CJ95O010";
        text[place] = 200;
        if unpack_comet(&text) != Err(NameFault::Spelling) {
            return Some(place);
        }
    }
    None
}

fn wrong_byte_in_printed() -> Option<usize> {
    for place in 0..9 {
        let mut text = *b"C/1995 O1";
        text[place] = 200;
        if read_comet(&text) != Err(NameFault::Spelling) {
            return Some(place);
        }
    }
    None
}

#[test]
fn a_byte_of_200_is_misspelt_in_each_place(rt: HostRuntime) {
    expect_none_wrong(&rt, wrong_byte_in_packed());
    expect_none_wrong(&rt, wrong_byte_in_printed());
}

/// Whether a text of 1,000 bytes, all of them this one, is misspelt in both forms; so is it where a comet stands at its
/// front.
fn is_long_misspelt(byte: u8) -> bool {
    let mut text = [byte; 1000];
    if !is_misspelt(&text) {
        return false;
    }
    let (front, _) = text.split_at_mut(8);
    front.copy_from_slice(b"CJ95O010");
    if !is_misspelt(&text) {
        return false;
    }
    let (front, _) = text.split_at_mut(9);
    front.copy_from_slice(b"C/1995 O1");
    is_misspelt(&text)
}

fn is_misspelt(text: &[u8]) -> bool {
    unpack_comet(text) == Err(NameFault::Spelling) && read_comet(text) == Err(NameFault::Spelling)
}

#[test]
fn long_texts_are_misspelt(rt: HostRuntime) {
    let misspelt = [
        is_long_misspelt(b'0'),
        is_long_misspelt(b'C'),
        is_long_misspelt(b' '),
    ];
    assert_eq!(rt; misspelt, [true; 3]);
}
