//! A list in the order of keys.

use crate::tables::expect_none_wrong;
use ordered_list::{NoMemory, OrderedList};
use std::test::Fail;

/// An entry of an index, ordered by its key alone.
#[derive(Clone, Copy)]
#[derive_where(Debug, PartialEq, Eq, PartialOrd, Ord)]
struct Entry {
    key: u32,
    #[derive_where(skip(EqHashOrd))]
    number: u32,
}

fn insert(list: &mut OrderedList<Entry>, key: u32, number: u32) -> Result<(), NoMemory> {
    list.reserve(1)?;
    list.insert(Entry { key, number });
    Ok(())
}

fn number_of(list: &OrderedList<Entry>, key: u32) -> Option<u32> {
    list.find(&Entry { key, number: 0 })
        .map(|entry| entry.number)
}

fn next_key(list: &OrderedList<Entry>, key: u32) -> Option<u32> {
    list.next_above(&Entry { key, number: 0 })
        .map(|entry| entry.key)
}

fn key_at(list: &OrderedList<Entry>, place: u64) -> Option<u32> {
    list.get(place).map(|entry| entry.key)
}

fn removed(list: &mut OrderedList<Entry>, key: u32) -> Option<u32> {
    list.remove(&Entry { key, number: 9 })
        .map(|entry| entry.number)
}

/// Inserts entries with these keys and numbers.
fn insert_all(list: &mut OrderedList<Entry>, entries: &[(u32, u32)]) -> Result<(), NoMemory> {
    for &(key, number) in entries {
        insert(list, key, number)?;
    }
    Ok(())
}

/// The first row with a key whose number is another one, counted from 0; None where there is none. So are those below.
fn wrong_number(list: &OrderedList<Entry>, rows: &[(u32, Option<u32>)]) -> Option<usize> {
    for (row, &(key, wanted)) in rows.iter().enumerate() {
        if number_of(list, key) != wanted {
            return Some(row);
        }
    }
    None
}

fn wrong_next(list: &OrderedList<Entry>, rows: &[(u32, Option<u32>)]) -> Option<usize> {
    for (row, &(key, wanted)) in rows.iter().enumerate() {
        if next_key(list, key) != wanted {
            return Some(row);
        }
    }
    None
}

fn wrong_place(list: &OrderedList<Entry>, rows: &[(u64, Option<u32>)]) -> Option<usize> {
    for (row, &(place, wanted)) in rows.iter().enumerate() {
        if key_at(list, place) != wanted {
            return Some(row);
        }
    }
    None
}

/// The keys and the numbers of four entries, of which two have one key.
const ENTRIES: &[(u32, u32)] = &[(30, 1), (10, 2), (20, 3), (10, 4)];

const NUMBERS: &[(u32, Option<u32>)] = &[(10, Some(4)), (15, None), (20, Some(3)), (30, None)];

const NEXT: &[(u32, Option<u32>)] = &[(5, Some(10)), (10, Some(20)), (15, Some(20)), (20, None)];

#[test]
fn the_last_item_with_a_key_stands(rt: HostRuntime) -> Result<(), Fail> {
    let mut list = OrderedList::new(rt.alloc())?;
    insert_all(&mut list, ENTRIES)?;
    assert_eq!(rt; list.len(), 3);
    assert_eq!(rt; removed(&mut list, 30), Some(1));
    expect_none_wrong(&rt, wrong_number(&list, NUMBERS));
    expect_none_wrong(&rt, wrong_next(&list, NEXT));
    Ok(())
}

/// Inserts the keys from 0 to 10,006 but one, 1,009 after the one before, so that each vector of the list has some.
fn insert_ten_thousand(list: &mut OrderedList<Entry>) -> Result<(), NoMemory> {
    for number in 0..10_006 {
        insert(list, number * 1_009 % 10_007, number)?;
    }
    Ok(())
}

const NUMBERS_OF_MANY: &[(u32, Option<u32>)] = &[
    (0, Some(0)),
    (1_009, Some(1)),
    (2_018, Some(2)),
    (83, Some(10)),
    (9_980, Some(4_096)),
    (4_651, Some(9_000)),
    (2_861, Some(9_990)),
    (7_989, Some(10_005)),
    (8_998, None),
];

const PLACES: &[(u64, Option<u32>)] = &[
    (0, Some(0)),
    (8_997, Some(8_997)),
    (8_998, Some(8_999)),
    (10_005, Some(10_006)),
    (10_006, None),
];

const NEXT_OF_MANY: &[(u32, Option<u32>)] = &[
    (0, Some(1)),
    (8_997, Some(8_999)),
    (4_651, Some(4_652)),
    (10_006, None),
];

#[test]
fn ten_thousand_items(rt: HostRuntime) -> Result<(), Fail> {
    let mut list = OrderedList::new(rt.alloc())?;
    insert_ten_thousand(&mut list)?;
    assert_eq!(rt; list.len(), 10_006);
    expect_none_wrong(&rt, wrong_number(&list, NUMBERS_OF_MANY));
    expect_none_wrong(&rt, wrong_place(&list, PLACES));
    expect_none_wrong(&rt, wrong_next(&list, NEXT_OF_MANY));
    Ok(())
}
