//! Comets with their printed and their packed form, both ways.

use super::tables::expect_none_wrong;
use comet_names::{Comet, CometKind, is_comet, pack_comet, print_comet, read_comet, unpack_comet};
use packed_names::HalfMonth;

/// The kind of a comet, the year and the index of its half-month, and its number.
#[derive(Clone, Copy)]
struct Parts(CometKind, u16, u8, u8);

fn comet_of(parts: Parts) -> Comet {
    let Parts(kind, year, index, number) = parts;
    let half = HalfMonth { year, index };
    Comet { kind, half, number }
}

/// The parts of a comet, its printed and its packed form.
type Row = (Parts, &'static [u8], &'static [u8; 8]);

/// Comets with their printed and their packed form: the ends of the ranges, the letters round I, the turn of the
/// century, numbers of one and of two digits.
const COMETS: &[Row] = &[
    (Parts(CometKind::C, 1995, 13, 1), b"C/1995 O1", b"CJ95O010"),
    (Parts(CometKind::P, 2024, 4, 2), b"P/2024 E2", b"PK24E020"),
    (Parts(CometKind::C, 1925, 0, 1), b"C/1925 A1", b"CJ25A010"),
    (
        Parts(CometKind::P, 2099, 23, 99),
        b"P/2099 Y99",
        b"PK99Y990",
    ),
    (Parts(CometKind::C, 2024, 4, 99), b"C/2024 E99", b"CK24E990"),
    (Parts(CometKind::P, 1999, 7, 9), b"P/1999 H9", b"PJ99H090"),
    (Parts(CometKind::P, 1999, 8, 10), b"P/1999 J10", b"PJ99J100"),
    (
        Parts(CometKind::C, 2000, 22, 40),
        b"C/2000 X40",
        b"CK00X400",
    ),
];

/// The first row whose parts aren't a comet's, or whose comet has another printed or packed form, or isn't read from
/// these, counted from 0; None where there is none. So is that below.
fn wrong_comet() -> Option<usize> {
    for (row, &(parts, printed, packed)) in COMETS.iter().enumerate() {
        let comet = comet_of(parts);
        if !has_forms(comet, printed, packed) || !is_read(comet, printed, packed) {
            return Some(row);
        }
    }
    None
}

fn has_forms(comet: Comet, printed: &[u8], packed: &[u8; 8]) -> bool {
    if !is_comet(comet) {
        return false;
    }
    print_comet(comet).as_slice() == printed && pack_comet(comet) == *packed
}

fn is_read(comet: Comet, printed: &[u8], packed: &[u8; 8]) -> bool {
    read_comet(printed) == Ok(comet) && unpack_comet(packed) == Ok(comet)
}

#[test]
fn comets_have_these_texts(rt: HostRuntime) {
    expect_none_wrong(&rt, wrong_comet());
}

/// Whether the label of a comet has this length and these bytes.
fn has_label(parts: Parts, len: u8, bytes: [u8; 10]) -> bool {
    let comet = comet_of(parts);
    if !is_comet(comet) {
        return false;
    }
    let label = print_comet(comet);
    label.len == len && label.bytes == bytes
}

#[test]
fn labels_end_in_zeros(rt: HostRuntime) {
    let short = has_label(Parts(CometKind::C, 1995, 13, 1), 9, *b"C/1995 O1\0");
    let long = has_label(Parts(CometKind::P, 2099, 23, 99), 10, *b"P/2099 Y99");
    assert_eq!(rt; [short, long], [true; 2]);
}

/// Parts of no comet.
const NO_COMETS: &[Parts] = &[
    Parts(CometKind::C, 2024, 4, 0),
    Parts(CometKind::C, 2024, 4, 100),
    Parts(CometKind::P, 2024, 4, 255),
    Parts(CometKind::C, 1924, 23, 1),
    Parts(CometKind::P, 2100, 0, 1),
    Parts(CometKind::C, 2024, 24, 1),
];

fn wrong_part() -> Option<usize> {
    for (row, &parts) in NO_COMETS.iter().enumerate() {
        if is_comet(comet_of(parts)) {
            return Some(row);
        }
    }
    None
}

#[test]
fn other_values_are_no_comets(rt: HostRuntime) {
    expect_none_wrong(&rt, wrong_part());
}
