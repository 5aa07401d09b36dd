//! Names with their printed and their packed form, and texts that are no names.

use crate::tables::expect_none_wrong;
use packed_names::{
    Designation, HalfMonth, Name, NameFault, Number, Provisional, Survey, is_name, limit, pack,
    print, read, read_half, unpack,
};

/// What a name is made of.
#[derive(Clone, Copy)]
enum Parts {
    Number(u32),
    Given(u16, u8, u32),
    Found(Survey, u16),
}

fn name_of(parts: Parts) -> Name {
    match parts {
        Parts::Number(number) => Name::Number(Number(number)),
        Parts::Given(year, index, order) => {
            let half = HalfMonth { year, index };
            Name::Designation(Designation::Provisional(Provisional { half, order }))
        }
        Parts::Found(survey, number) => Name::Designation(Designation::Survey(survey, number)),
    }
}

/// The parts of a name, its printed and its packed form.
type Row = (Parts, &'static [u8], &'static [u8]);

/// Names with their printed and their packed form: examples of the Minor Planet Center's pages, and the ends of ranges.
const NAMES: &[Row] = &[
    (Parts::Number(1), b"1", b"00001"),
    (Parts::Number(99_999), b"99999", b"99999"),
    (Parts::Number(100_000), b"100000", b"A0000"),
    (Parts::Number(619_999), b"619999", b"z9999"),
    (Parts::Number(620_000), b"620000", b"~0000"),
    (Parts::Number(3_140_113), b"3140113", b"~AZaz"),
    (Parts::Number(15_396_335), b"15396335", b"~zzzz"),
    (Parts::Given(1995, 22, 1), b"1995 XA", b"J95X00A"),
    (Parts::Given(1998, 17, 2716), b"1998 SQ108", b"J98SA8Q"),
    (Parts::Given(2007, 18, 10_451), b"2007 TA418", b"K07Tf8A"),
    (Parts::Given(2026, 2, 15_501), b"2026 CA620", b"_QC0000"),
    (Parts::Given(2026, 2, 154_775), b"2026 CZ6190", b"_QC0aEM"),
    (
        Parts::Given(2026, 2, 14_791_836),
        b"2026 CL591673",
        b"_QCzzzz",
    ),
    (Parts::Given(2024, 4, 1), b"2024 EA", b"K24E00A"),
    (Parts::Given(2024, 4, 25), b"2024 EZ", b"K24E00Z"),
    (Parts::Given(2024, 4, 26), b"2024 EA1", b"K24E01A"),
    (Parts::Given(2024, 4, 15_500), b"2024 EZ619", b"K24Ez9Z"),
    (Parts::Given(2024, 4, 15_501), b"2024 EA620", b"_OE0000"),
    (
        Parts::Given(2024, 4, 14_791_836),
        b"2024 EL591673",
        b"_OEzzzz",
    ),
    (Parts::Given(2050, 4, 15_501), b"2050 EA620", b"_oE0000"),
    (Parts::Given(1998, 17, 15_500), b"1998 SZ619", b"J98Sz9Z"),
    (Parts::Given(1925, 0, 1), b"1925 AA", b"J25A00A"),
    (Parts::Given(1925, 0, 15_500), b"1925 AZ619", b"J25Az9Z"),
    (Parts::Given(1999, 23, 15_500), b"1999 YZ619", b"J99Yz9Z"),
    (Parts::Given(2000, 8, 1), b"2000 JA", b"K00J00A"),
    (Parts::Given(2000, 8, 15_501), b"2000 JA620", b"_0J0000"),
    (Parts::Given(2061, 7, 15_500), b"2061 HZ619", b"K61Hz9Z"),
    (
        Parts::Given(2061, 7, 14_791_836),
        b"2061 HL591673",
        b"_zHzzzz",
    ),
    (Parts::Given(2062, 7, 1), b"2062 HA", b"K62H00A"),
    (Parts::Given(2062, 7, 15_500), b"2062 HZ619", b"K62Hz9Z"),
    (Parts::Given(2099, 23, 9), b"2099 YJ", b"K99Y00J"),
    (Parts::Given(2099, 23, 15_500), b"2099 YZ619", b"K99Yz9Z"),
    (Parts::Found(Survey::PalomarLeiden, 1), b"1 P-L", b"PLS0001"),
    (
        Parts::Found(Survey::PalomarLeiden, 2040),
        b"2040 P-L",
        b"PLS2040",
    ),
    (
        Parts::Found(Survey::PalomarLeiden, 9999),
        b"9999 P-L",
        b"PLS9999",
    ),
    (Parts::Found(Survey::T1, 1), b"1 T-1", b"T1S0001"),
    (Parts::Found(Survey::T1, 3138), b"3138 T-1", b"T1S3138"),
    (Parts::Found(Survey::T1, 9999), b"9999 T-1", b"T1S9999"),
    (Parts::Found(Survey::T2, 1), b"1 T-2", b"T2S0001"),
    (Parts::Found(Survey::T2, 1010), b"1010 T-2", b"T2S1010"),
    (Parts::Found(Survey::T2, 9999), b"9999 T-2", b"T2S9999"),
    (Parts::Found(Survey::T3, 1), b"1 T-3", b"T3S0001"),
    (Parts::Found(Survey::T3, 4101), b"4101 T-3", b"T3S4101"),
    (Parts::Found(Survey::T3, 9999), b"9999 T-3", b"T3S9999"),
];

/// The first row whose name isn't one, or has another printed or packed form, counted from 0; None where there is none.
/// So are those below. Only the tests name the long table: as an argument it costs its proof next to nothing.
fn wrong_form(rows: &[Row]) -> Option<usize> {
    for (row, &(parts, printed, packed)) in rows.iter().enumerate() {
        if !has_forms(name_of(parts), printed, packed) {
            return Some(row);
        }
    }
    None
}

fn has_forms(name: Name, printed: &[u8], packed: &[u8]) -> bool {
    is_printed(name, printed) && is_packed(name, packed)
}

fn is_printed(name: Name, text: &[u8]) -> bool {
    if !is_name(name) {
        return false;
    }
    let label = print(name);
    &label.bytes[..label.len as usize] == text
}

fn is_packed(name: Name, text: &[u8]) -> bool {
    if !is_name(name) {
        return false;
    }
    let label = pack(name);
    &label.bytes[..label.len as usize] == text
}

/// Parts of no name.
const NO_NAMES: &[Parts] = &[
    Parts::Number(0),
    Parts::Number(15_396_336),
    Parts::Given(1924, 4, 1),
    Parts::Given(2100, 4, 1),
    Parts::Given(2024, 24, 1),
    Parts::Given(2024, 4, 0),
    Parts::Given(2024, 4, 14_791_837),
    Parts::Given(1999, 4, 15_501),
    Parts::Given(2062, 4, 15_501),
    Parts::Found(Survey::PalomarLeiden, 0),
    Parts::Found(Survey::T1, 10_000),
];

fn wrong_part() -> Option<usize> {
    for (row, &parts) in NO_NAMES.iter().enumerate() {
        if is_name(name_of(parts)) {
            return Some(row);
        }
    }
    None
}

/// A year, and the last order in one of its half-months.
const LIMITS: &[(u16, u32)] = &[
    (1925, 15_500),
    (1999, 15_500),
    (2000, 14_791_836),
    (2061, 14_791_836),
    (2062, 15_500),
];

fn wrong_limit() -> Option<usize> {
    for (row, &(year, most)) in LIMITS.iter().enumerate() {
        if limit(HalfMonth { year, index: 4 }) != most {
            return Some(row);
        }
    }
    None
}

#[test]
fn names_have_these_texts(rt: HostRuntime) {
    expect_none_wrong(&rt, wrong_form(NAMES));
    expect_none_wrong(&rt, wrong_part());
    expect_none_wrong(&rt, wrong_limit());
}

/// The first row whose printed or packed form is read as something else.
fn wrong_name(rows: &[Row]) -> Option<usize> {
    for (row, &(parts, printed, packed)) in rows.iter().enumerate() {
        let name = name_of(parts);
        if read(printed) != Ok(name) || unpack(packed) != Ok(name) {
            return Some(row);
        }
    }
    None
}

/// Packed texts out of range.
const PACKED_OUT: &[&[u8]] = &[
    b"00000", b"J24E00A", b"I99E00A", b"J00A00A", b"PLS0000", b"T1S0000", b"T2S0000", b"T3S0000",
];

/// Texts that spell no packed name.
const NOT_PACKED: &[&[u8]] = &[
    b"", b"K24e00A", b"_Oe0000", b"~000", b"~00000", b"K24I00A", b"K24Z00A", b"K24E00I",
    b"K24E00a", b"K24E0AA", b"L00E00A", b"T4S0001", b"PLS001", b"000001", b"2024 EA", b"_OE000-",
];

/// Printed texts out of range.
const PRINTED_OUT: &[&[u8]] = &[
    b"0",
    b"15396336",
    b"9999999999",
    b"1924 EA",
    b"2100 EA",
    b"0000 AA",
    b"1998 SA620",
    b"1999 EA620",
    b"2062 EA620",
    b"2024 EM591673",
    b"2061 EM591673",
    b"2024 EA9999999",
    b"0 P-L",
    b"10000 T-1",
    b"99999 T-3",
];

/// Texts that spell no printed name.
const NOT_PRINTED: &[&[u8]] = &[
    b"",
    b"01",
    b"10000000000",
    b"12a",
    b"2024 EA0",
    b"2024 EA01",
    b"2024 EA10000000",
    b"2024 eA",
    b"2024 Ea",
    b"2024 IA",
    b"2024 ZA",
    b"2024 EI",
    b"2024 E",
    b"24 EA",
    b"2024 EA ",
    b"02040 P-L",
    b"100000 P-L",
    b"1 T-4",
];

fn wrong_packed(texts: &[&[u8]], fault: NameFault) -> Option<usize> {
    for (row, &text) in texts.iter().enumerate() {
        if unpack(text) != Err(fault) {
            return Some(row);
        }
    }
    None
}

fn wrong_printed(texts: &[&[u8]], fault: NameFault) -> Option<usize> {
    for (row, &text) in texts.iter().enumerate() {
        if read(text) != Err(fault) {
            return Some(row);
        }
    }
    None
}

#[test]
fn texts_are_these_names(rt: HostRuntime) {
    expect_none_wrong(&rt, wrong_name(NAMES));
    expect_none_wrong(&rt, wrong_packed(PACKED_OUT, NameFault::OutOfRange));
    expect_none_wrong(&rt, wrong_packed(NOT_PACKED, NameFault::Spelling));
    expect_none_wrong(&rt, wrong_printed(PRINTED_OUT, NameFault::OutOfRange));
    expect_none_wrong(&rt, wrong_printed(NOT_PRINTED, NameFault::Spelling));
}

/// A text, and the year and the index of the half-month that it is, or its fault.
const HALVES: &[(&[u8], Result<(u16, u8), NameFault>)] = &[
    (b"1925 A", Ok((1925, 0))),
    (b"2024 E", Ok((2024, 4))),
    (b"2024 H", Ok((2024, 7))),
    (b"2024 J", Ok((2024, 8))),
    (b"2099 Y", Ok((2099, 23))),
    (b"1924 Y", Err(NameFault::OutOfRange)),
    (b"2100 A", Err(NameFault::OutOfRange)),
    (b"2024 I", Err(NameFault::Spelling)),
    (b"2024 Z", Err(NameFault::Spelling)),
    (b"2024 e", Err(NameFault::Spelling)),
    (b"2024 EA", Err(NameFault::Spelling)),
];

fn wrong_half() -> Option<usize> {
    for (row, &(text, half)) in HALVES.iter().enumerate() {
        if read_half(text).map(|found| (found.year, found.index)) != half {
            return Some(row);
        }
    }
    None
}

#[test]
fn half_months_are_read(rt: HostRuntime) {
    expect_none_wrong(&rt, wrong_half());
}
