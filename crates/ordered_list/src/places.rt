//! Places in vectors that are merged, without merging them.

ghost use Rattle.std.specs.Prelude.{◌≡◌, ◌+◌, ◌^◌, ◌<◌, Some, IfOk, IfErr, length, slice_get};
ghost use Rattle.ordered_list.specs.Orders.{merged};
ghost use Rattle.ordered_list.specs.Contents.{IsPair};
ghost use Rattle.ordered_list.specs.Places.{IsPassed};

use crate::searches::gap_below;

/// How many of the newest items stand before a place of the merged list, found by halving.
fn passed_at<T: Ord + Copy>(settled: &[T], recent: &[T], newest: &[T], place: usize) -> usize
    requires older { IsPair T.cmp settled.now recent.now }
    requires pair { IsPair T.cmp (merged T.cmp settled.now recent.now) newest.now }
    requires fits { length settled.now + length recent.now + length newest.now < 2 ^ 64 }
    ensures { IsPassed T.cmp (merged T.cmp settled.now recent.now) newest.now place result }
{
    let mut low = 0;
    let mut high = newest.len();
    while low < high {
        let middle = low + (high - low) / 2;
        if middle + gap_below(settled, recent, &newest[middle]) < place {
            low = middle + 1;
        } else {
            high = middle;
        }
    }
    low
}

/// The item at a place.
fn read_at<T: Copy>(items: &[T], place: usize) -> Option<T>
    ensures { result ≡ slice_get items.now place }
{
    items.get(place).copied()
}

/// The item at a place of the merged list where it is one of the newest, or else the place of that item among the
/// others.
fn newest_at<T: Ord + Copy>(
    settled: &[T],
    recent: &[T],
    newest: &[T],
    place: usize,
) -> Result<T, usize>
    requires older { IsPair T.cmp settled.now recent.now }
    requires pair { IsPair T.cmp (merged T.cmp settled.now recent.now) newest.now }
    requires fits { length settled.now + length recent.now + length newest.now < 2 ^ 64 }
    ensures newest { IfOk result
        (λ item. slice_get (merged T.cmp (merged T.cmp settled.now recent.now) newest.now) place ≡ Some item) }
    ensures older { IfErr result
        (λ other. slice_get (merged T.cmp (merged T.cmp settled.now recent.now) newest.now) place
        ≡ slice_get (merged T.cmp settled.now recent.now) other) }
{
    let passed = passed_at(settled, recent, newest, place);
    if passed >= newest.len() {
        return Err(place - passed);
    }
    let item = newest[passed];
    if passed + gap_below(settled, recent, &item) == place {
        return Ok(item);
    }
    Err(place - passed)
}

/// The item at a place of the merged list, counted from 0.
pub(crate) fn item_at<T: Ord + Copy>(
    settled: &[T],
    recent: &[T],
    newest: &[T],
    place: usize,
) -> Option<T>
    requires older { IsPair T.cmp settled.now recent.now }
    requires pair { IsPair T.cmp (merged T.cmp settled.now recent.now) newest.now }
    requires fits { length settled.now + length recent.now + length newest.now < 2 ^ 64 }
    ensures { result ≡ slice_get (merged T.cmp (merged T.cmp settled.now recent.now) newest.now) place }
{
    match newest_at(settled, recent, newest, place) {
        Ok(item) => Some(item),
        Err(older) => match newest_at(settled, &[], recent, older) {
            Ok(item) => Some(item),
            Err(oldest) => read_at(settled, oldest),
        },
    }
}
