//! Searches by halving in one vector that is in order.

ghost use Rattle.std.specs.Prelude.{◌≡◌, ◌+◌, ◌<◌, ◌≤◌, ◌^◌, None, IfOk, IfErr, length, slice_get};
ghost use Rattle.std.specs.Bool.{OnTrue};
ghost use Rattle.ordered_list.specs.Orders.{IsStrictlySorted, FoundAt, BelongsAt, found, merged, next_above};
ghost use Rattle.ordered_list.specs.Orders.{lower_of};
ghost use Rattle.ordered_list.specs.Contents.{IsPair};

/// Whether the key is above all items.
fn is_past<T: Ord>(items: &[T], key: &T) -> bool
    requires { IsStrictlySorted T.cmp items.now }
    ensures { OnTrue result (BelongsAt T.cmp key.now items.now (length items.now)) }
{
    let len = items.len();
    len == 0 || items[len - 1].cmp(key).is_lt()
}

/// The place of the item that ties with the key, or else the place where the key belongs.
pub(crate) fn place_of<T: Ord>(items: &[T], key: &T) -> Result<usize, usize>
    requires { IsStrictlySorted T.cmp items.now }
    ensures found { IfOk result (FoundAt T.cmp key.now items.now) }
    ensures gap { IfErr result (BelongsAt T.cmp key.now items.now) }
{
    // Items often come in their order, so the end is looked at first.
    if is_past(items, key) {
        return Err(items.len());
    }
    items.binary_search(key)
}

/// The item that ties with the key.
pub(crate) fn find_in<T: Ord + Copy>(items: &[T], key: &T) -> Option<T>
    requires { IsStrictlySorted T.cmp items.now }
    ensures { result ≡ found T.cmp key.now items.now }
{
    match place_of(items, key) {
        Ok(place) => Some(items[place]),
        Err(_) => None,
    }
}

/// The item of either list that ties with the key.
pub(crate) fn find_older<T: Ord + Copy>(settled: &[T], recent: &[T], key: &T) -> Option<T>
    requires { IsPair T.cmp settled.now recent.now }
    ensures { result ≡ found T.cmp key.now (merged T.cmp settled.now recent.now) }
{
    match find_in(recent, key) {
        Some(item) => Some(item),
        None => find_in(settled, key),
    }
}

/// The place where a key belongs that isn't found.
pub(crate) fn gap_for<T: Ord>(items: &[T], key: &T) -> usize
    requires sorted { IsStrictlySorted T.cmp items.now }
    requires missing { found T.cmp key.now items.now ≡ None }
    ensures { BelongsAt T.cmp key.now items.now result }
{
    match place_of(items, key) {
        Ok(place) | Err(place) => place,
    }
}

/// The place where a key belongs in a merged list, in which it isn't found.
pub(crate) fn gap_below<T: Ord>(settled: &[T], recent: &[T], key: &T) -> usize
    requires pair { IsPair T.cmp settled.now recent.now }
    requires missing { found T.cmp key.now (merged T.cmp settled.now recent.now) ≡ None }
    requires fits { length settled.now + length recent.now < 2 ^ 64 }
    ensures belongs { BelongsAt T.cmp key.now (merged T.cmp settled.now recent.now) result }
    ensures within { result ≤ length settled.now + length recent.now }
{
    gap_for(settled, key) + gap_for(recent, key)
}

/// The place of the first item above the key.
fn place_above<T: Ord>(items: &[T], key: &T) -> usize
    requires { IsStrictlySorted T.cmp items.now }
    ensures { slice_get items.now result ≡ next_above T.cmp key.now items.now }
{
    match place_of(items, key) {
        Ok(place) => place + 1,
        Err(place) => place,
    }
}

/// The first item above the key.
pub(crate) fn next_in<T: Ord + Copy>(items: &[T], key: &T) -> Option<T>
    requires { IsStrictlySorted T.cmp items.now }
    ensures { result ≡ next_above T.cmp key.now items.now }
{
    items.get(place_above(items, key)).copied()
}

/// The lower of two items, where there are two.
pub(crate) fn lower_of<T: Ord + Copy>(one: Option<T>, other: Option<T>) -> Option<T>
    ensures { result ≡ lower_of T.cmp one other }
{
    match (one, other) {
        (None, _) => other,
        (_, None) => one,
        (Some(first), Some(second)) => Some(if first.cmp(&second).is_lt() {
            first
        } else {
            second
        }),
    }
}
