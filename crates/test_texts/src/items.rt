//! A list of items, in the order in which they came.

use crate::tables::expect_none_wrong;
use item_list::{ItemList, NoMemory};
use std::alloc::Global;
use std::test::Fail;

/// 7, 8 and 9, which came one by one, and then 1 and 2 at once. The list had room for one.
fn five_items(alloc: Global) -> Result<ItemList<u16>, NoMemory> {
    let mut list = ItemList::with_capacity(alloc, 1)?;
    for item in [7, 8, 9] {
        list.push(item)?;
    }
    list.extend_from_slice(&[1, 2])?;
    Ok(list)
}

const PLACES: &[(u64, Option<u16>)] = &[(0, Some(7)), (2, Some(9)), (4, Some(2)), (5, None)];

/// The first row with a place at which another item stands, or none.
fn wrong_place(list: &ItemList<u16>, rows: &[(u64, Option<u16>)]) -> Option<usize> {
    for (row, &(place, wanted)) in rows.iter().enumerate() {
        if list.get(place).copied() != wanted {
            return Some(row);
        }
    }
    None
}

/// How many items are left of a list of which so many are kept.
fn count_kept(list: &mut ItemList<u16>, count: u64) -> u64 {
    list.truncate(count);
    list.len()
}

/// The first item of the list that isn't handed over in its turn, counted from 0; or one that is handed over beyond.
fn wrong_turn(list: ItemList<u16>, items: &[u16]) -> Option<usize> {
    let mut handed_over = list.into_iter();
    for (turn, &wanted) in items.iter().enumerate() {
        if handed_over.next() != Some(wanted) {
            return Some(turn);
        }
    }
    handed_over.next().map(|_| items.len())
}

/// The greatest item of a copy; how many a new list has, and whether it is empty.
fn copied(alloc: Global, items: &[u16]) -> Result<(Option<u16>, usize, bool), NoMemory> {
    let copy = ItemList::from_slice(alloc, items)?;
    let none: ItemList<u16> = ItemList::new(alloc);
    Ok((
        copy.iter().copied().max(),
        none.as_slice().len(),
        none.is_empty(),
    ))
}

#[test]
fn items_keep_their_order(rt: HostRuntime) -> Result<(), Fail> {
    let mut list = five_items(rt.alloc())?;
    expect_none_wrong(&rt, wrong_place(&list, PLACES));
    assert!(rt; !list.is_empty());
    assert_eq!(rt;
        (count_kept(&mut list, 9), count_kept(&mut list, 2)),
        (5, 2)
    );
    assert_eq!(rt; list.as_slice(), [7, 8].as_slice());
    list.extend_from_slice(&[9, 1, 2])?;
    assert_eq!(rt; copied(rt.alloc(), list.as_slice())?, (Some(9), 0, true));
    expect_none_wrong(&rt, wrong_turn(list, &[7, 8, 9, 1, 2]));
    Ok(())
}
