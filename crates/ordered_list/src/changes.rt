//! Changes of vectors that are in order; none of them takes memory.

ghost use Rattle.std.specs.Prelude.{◌≡◌, ◌+◌, ◌<◌, ◌≤◌, None, IsSome, IsNone, OnOk, IfErr, OnErr, vec_len, vec_capacity};
ghost use Rattle.std.specs.Bool.{OnTrue, OnFalse};
ghost use Rattle.ordered_list.specs.Orders.{IsStrictlySorted, BelongsAt, found, inserted, removed, merged};
ghost use Rattle.ordered_list.specs.Contents.{IsPair};

use crate::searches::place_of;

/// Puts the item in place of the one that ties with it, or else says where it belongs.
pub(crate) fn replace<T: Ord + Copy>(items: &mut Vec<T>, item: T) -> Result<(), usize>
    requires { IsStrictlySorted T.cmp items.old.items }
    ensures replaced { OnOk result (items.new.items ≡ inserted T.cmp item items.old.items) }
    ensures there { OnOk result (IsSome (found T.cmp item items.old.items)) }
    ensures gap { IfErr result (BelongsAt T.cmp item items.old.items) }
    ensures missing { OnErr result (found T.cmp item items.old.items ≡ None) }
    ensures stays { OnErr result (items.new.items ≡ items.old.items) }
    ensures len { vec_len items.new ≡ vec_len items.old }
    ensures capacity { vec_capacity items.new ≡ vec_capacity items.old }
{
    match place_of(items.as_slice(), &item) {
        Ok(place) => {
            items[place] = item;
            Ok(())
        }
        Err(place) => Err(place),
    }
}

/// Puts the item in place of the one of either vector that ties with it. Says whether there was one.
pub(crate) fn replace_older<T: Ord + Copy>(
    settled: &mut Vec<T>,
    recent: &mut Vec<T>,
    item: T,
) -> bool
    requires { IsPair T.cmp settled.old.items recent.old.items }
    ensures pair { IsPair T.cmp settled.new.items recent.new.items }
    ensures replaced { OnTrue result (merged T.cmp settled.new.items recent.new.items
        ≡ inserted T.cmp item (merged T.cmp settled.old.items recent.old.items)) }
    ensures missing { OnFalse result (found T.cmp item (merged T.cmp settled.old.items recent.old.items) ≡ None) }
    ensures stays { OnFalse result (merged T.cmp settled.new.items recent.new.items
        ≡ merged T.cmp settled.old.items recent.old.items) }
    ensures settled_len { vec_len settled.new ≡ vec_len settled.old }
    ensures recent_len { vec_len recent.new ≡ vec_len recent.old }
    ensures capacity { vec_capacity settled.new ≡ vec_capacity settled.old }
{
    if let Ok(()) = replace(recent, item) {
        return true;
    }
    match replace(settled, item) {
        Ok(()) => true,
        Err(_) => false,
    }
}

/// Puts an item in the place where it belongs, where there is room for it.
pub(crate) fn put_at<T: Ord + Copy>(items: &mut Vec<T>, place: usize, item: T)
    requires gap { BelongsAt T.cmp item items.old.items place }
    requires room { vec_len items.old < vec_capacity items.old }
    ensures inserted { items.new.items ≡ inserted T.cmp item items.old.items }
    ensures len { vec_len items.new ≡ vec_len items.old + 1 }
    ensures capacity { vec_capacity items.new ≡ vec_capacity items.old }
{
    let inserted = items.insert(place, item).is_ok();
    prove!(inserted);
}

/// Takes out the item that ties with the key, and gives it.
pub(crate) fn take_out<T: Ord + Copy>(items: &mut Vec<T>, key: &T) -> Option<T>
    requires { IsStrictlySorted T.cmp items.old.items }
    ensures gives { result ≡ found T.cmp key.now items.old.items }
    ensures removed { items.new.items ≡ removed T.cmp key.now items.old.items }
    ensures len { vec_len items.new ≤ vec_len items.old }
    ensures fewer { IsSome result → vec_len items.new + 1 ≡ vec_len items.old }
    ensures as_many { IsNone result → vec_len items.new ≡ vec_len items.old }
    ensures capacity { vec_capacity items.new ≡ vec_capacity items.old }
{
    match place_of(items.as_slice(), key) {
        Ok(place) => Some(items.remove(place)),
        Err(_) => None,
    }
}

/// Takes out the item of either vector that ties with the key, and gives it.
pub(crate) fn take_out_older<T: Ord + Copy>(
    settled: &mut Vec<T>,
    recent: &mut Vec<T>,
    key: &T,
) -> Option<T>
    requires { IsPair T.cmp settled.old.items recent.old.items }
    ensures pair { IsPair T.cmp settled.new.items recent.new.items }
    ensures gives { result ≡ found T.cmp key.now (merged T.cmp settled.old.items recent.old.items) }
    ensures removed { merged T.cmp settled.new.items recent.new.items
        ≡ removed T.cmp key.now (merged T.cmp settled.old.items recent.old.items) }
    ensures len { vec_len settled.new + vec_len recent.new ≤ vec_len settled.old + vec_len recent.old }
    ensures fewer { IsSome result
        → vec_len settled.new + vec_len recent.new + 1 ≡ vec_len settled.old + vec_len recent.old }
    ensures as_many { IsNone result
        → vec_len settled.new + vec_len recent.new ≡ vec_len settled.old + vec_len recent.old }
    ensures capacity { vec_capacity settled.new ≡ vec_capacity settled.old }
{
    if let Some(item) = take_out(recent, key) {
        return Some(item);
    }
    take_out(settled, key)
}
