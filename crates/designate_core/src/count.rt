//! How many designations were given in each half-month.

ghost use Rattle.std.specs.Prelude.{◌≡◌};
ghost use Rattle.ordered_list.specs.Orders.{found};
ghost use Rattle.designate_core.specs.Indexes.{count_of, given_by};

use ordered_list::OrderedList;
use packed_names::HalfMonth;

/// A half-month, by which it is ordered, and how many designations were given in it.
#[derive(Clone, Copy)]
#[derive_where(Debug, PartialEq, Eq, PartialOrd, Ord)]
pub struct Count {
    /// The half-month.
    pub half: HalfMonth,
    /// How many were given.
    #[derive_where(skip(EqHashOrd))]
    pub given: u32,
}

/// How many designations of a half-month were given.
pub(crate) fn given_in(counts: &OrderedList<Count>, half: HalfMonth) -> u32
    ensures { result ≡ given_by (found ⟦<Count as Ord>⟧.cmp (count_of half 0) counts.now.items) }
{
    match counts.find(&Count { half, given: 0 }) {
        Some(count) => count.given,
        None => 0,
    }
}
