//! Tests of the office's tables.

use obs_record::Short;
use station_tables::*;
use std::alloc::Global;

// Days since 1970-01-01 of the dates beside them.
const BEFORE_1998: i32 = 10_226; // 1997-12-31

const FROM_1998: i32 = 10_227; // 1998-01-01

const TO_2199: i32 = 84_005; // 2199-12-31

const FROM_2012: i32 = 15_340; // 2012-01-01

const TO_2014: i32 = 16_435; // 2014-12-31

const AFTER_2014: i32 = 16_436; // 2015-01-01

const BEFORE_2016: i32 = 16_800; // 2015-12-31

const FROM_2016: i32 = 16_801; // 2016-01-01

const TO_2020: i32 = 18_627; // 2020-12-31

// The tables with a station row more; None where it may not be entered or memory was refused.
fn stationed(tables: &Tables, code: [u8; 3], from: i32, to: i32) -> Option<Tables> {
    if from > to || tables.overlaps(code, from, to) {
        return None;
    }
    tables.with_station(code, from, to).ok()
}

// Takes the tables with a row more in place of those without it; false where there are none.
fn replace(tables: &mut Tables, more: Option<Tables>) -> bool {
    match more {
        Some(more) => {
            *tables = more;
            true
        }
        None => false,
    }
}

fn enter(tables: &mut Tables, code: [u8; 3], from: i32, to: i32) -> bool {
    let more = stationed(tables, code, from, to);
    replace(tables, more)
}

// One station with one span of days, and one with two.
fn enter_spans(tables: &mut Tables) -> bool {
    enter(tables, *b"W84", FROM_2012, TO_2014)
        && enter(tables, *b"703", FROM_1998, TO_2199)
        && enter(tables, *b"W84", FROM_2016, TO_2020)
}

// The tables with a code row more; None where it may not be entered or memory was refused.
fn coded(tables: &Tables, kind: Kind, letter: u8, word: &[u8]) -> Option<Tables> {
    let word = Short::new(word);
    if tables.has_code(kind, letter, word) {
        return None;
    }
    tables.with_code(kind, letter, word).ok()
}

fn enter_code(tables: &mut Tables, kind: Kind, letter: u8, word: &[u8]) -> bool {
    let more = coded(tables, kind, letter, word);
    replace(tables, more)
}

// A row of each kind.
fn enter_codes(tables: &mut Tables) -> bool {
    enter_code(tables, Kind::Catalogue, b'V', b"Gaia2")
        && enter_code(tables, Kind::Band, b'V', b"Vj")
        && enter_code(tables, Kind::Mode, b'C', b"CCD")
}

// The tables with these rows.
fn filled(alloc: Global) -> Option<Tables> {
    let mut tables = Tables::new(alloc).ok()?;
    let done = enter_spans(&mut tables) && enter_codes(&mut tables);
    done.then_some(tables)
}

const DAYS: &[(&[u8], i32, Serving)] = &[
    (b"703", BEFORE_1998, Serving::Outside),
    (b"703", FROM_1998, Serving::Serving),
    (b"703", TO_2199, Serving::Serving),
    (b"W84", TO_2014, Serving::Serving),
    (b"W84", AFTER_2014, Serving::Outside),
    (b"W84", BEFORE_2016, Serving::Outside),
    (b"W84", FROM_2016, Serving::Serving),
    (b"W85", FROM_2016, Serving::Unknown),
    (b"70", FROM_2016, Serving::Unknown),
    (b"W841", FROM_2016, Serving::Unknown),
];

// The first of these cases that the tables answer otherwise, counted from 0; None where there is none. So are those
// below.
fn wrong_day(tables: &Tables) -> Option<usize> {
    for (place, &(code, date, want)) in DAYS.iter().enumerate() {
        if tables.station(Short::new(code), date) != want {
            return Some(place);
        }
    }
    None
}

const SPANS: &[([u8; 3], i32, i32, bool)] = &[
    (*b"W84", AFTER_2014, BEFORE_2016, false),
    (*b"W84", TO_2014, BEFORE_2016, true),
    (*b"W84", AFTER_2014, FROM_2016, true),
    (*b"W84", FROM_1998, TO_2199, true),
    (*b"W85", FROM_1998, TO_2199, false),
];

fn wrong_span(tables: &Tables) -> Option<usize> {
    for (place, &(code, from, to, want)) in SPANS.iter().enumerate() {
        if tables.overlaps(code, from, to) != want {
            return Some(place);
        }
    }
    None
}

// A kind with a letter and its word, or with an empty word where no row has the letter.
const LETTERS: &[(Kind, u8, &[u8])] = &[
    (Kind::Catalogue, b'V', b"Gaia2"),
    (Kind::Band, b'V', b"Vj"),
    (Kind::Mode, b'V', b""),
    (Kind::Mode, b'C', b"CCD"),
    (Kind::Band, b'C', b""),
];

fn word_wanted(word: &[u8]) -> Option<Short> {
    if word.is_empty() {
        None
    } else {
        Some(Short::new(word))
    }
}

fn wrong_word(tables: &Tables) -> Option<usize> {
    for (place, &(kind, letter, word)) in LETTERS.iter().enumerate() {
        if tables.word(kind, letter) != word_wanted(word) {
            return Some(place);
        }
    }
    None
}

// A kind with a word and its letter, or with 0 where no row has the word.
const WORDS: &[(Kind, &[u8], u8)] = &[
    (Kind::Band, b"Vj", b'V'),
    (Kind::Mode, b"Vj", 0),
    (Kind::Mode, b"CCD", b'C'),
    (Kind::Mode, b"CC", 0),
];

fn wrong_letter(tables: &Tables) -> Option<usize> {
    for (place, &(kind, word, letter)) in WORDS.iter().enumerate() {
        if tables.letter(kind, Short::new(word)).unwrap_or(0) != letter {
            return Some(place);
        }
    }
    None
}

const CODES: &[(Kind, u8, &[u8], bool)] = &[
    (Kind::Band, b'V', b"CCD", true),
    (Kind::Band, b'R', b"Vj", true),
    (Kind::Band, b'R', b"CCD", false),
    (Kind::Mode, b'V', b"Vj", false),
];

fn wrong_code(tables: &Tables) -> Option<usize> {
    for (place, &(kind, letter, word, want)) in CODES.iter().enumerate() {
        if tables.has_code(kind, letter, Short::new(word)) != want {
            return Some(place);
        }
    }
    None
}

// The first wrong case of each table of cases, those of stations, of spans, of letters, of words and of codes.
fn wrong_in(tables: &Tables) -> [Option<usize>; 5] {
    [
        wrong_day(tables),
        wrong_span(tables),
        wrong_word(tables),
        wrong_letter(tables),
        wrong_code(tables),
    ]
}

// The same of the tables with these rows; None where memory was refused.
fn wrong_cases(alloc: Global) -> Option<[Option<usize>; 5]> {
    let tables = filled(alloc)?;
    Some(wrong_in(&tables))
}

#[test]
fn tables_answer_by_their_rows(rt: HostRuntime) {
    let wrong = wrong_cases(rt.alloc());
    assert_eq!(rt; wrong, Some([None; 5]));
}

// Whether the first tables are without a row that the others have.
fn is_without(before: &Tables, after: &Tables) -> bool {
    let word = Short::new(b"Vj");
    after.has_code(Kind::Band, b'V', word) && !before.has_code(Kind::Band, b'V', word)
}

// Whether an addition leaves the tables that it was made from without the row, and has it itself.
fn leaves_the_old(before: &Tables) -> bool {
    match coded(before, Kind::Band, b'V', b"Vj") {
        Some(after) => is_without(before, &after),
        None => false,
    }
}

// Whether an addition leaves tables without rows so; None where memory was refused.
fn leaves_the_new(alloc: Global) -> Option<bool> {
    let before = Tables::new(alloc).ok()?;
    Some(leaves_the_old(&before))
}

#[test]
fn additions_leave_the_old_rows(rt: HostRuntime) {
    let left = leaves_the_new(rt.alloc());
    assert_eq!(rt; left, Some(true));
}
