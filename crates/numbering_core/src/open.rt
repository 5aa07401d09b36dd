//! The designations that have a good verdict and no number, in their order.

ghost use Rattle.std.specs.Prelude.{◌≡◌, ◌+◌, ◌≤◌, ◌<◌, ◌&&◌, false, Some, is_none};
ghost use Rattle.ordered_list.specs.Orders.{IsStrictlySorted, found};
ghost use Rattle.numbering_core.specs.Indexes.{entry_key, number_by};
ghost use Rattle.numbering_core.specs.Open.{FindsBeside};
ghost use Rattle.numbering_core.specs.Verdicts.{is_good};

use crate::entry::NumberEntry;
use crate::lists::{is_good, number_of};
use crate::verdict::Verdict;
use ordered_list::OrderedList;
use packed_names::{Designation, HalfMonth, Provisional};

/// Any designation.
const ANY: Designation = Designation::Provisional(Provisional {
    half: HalfMonth { year: 0, index: 0 },
    order: 0,
});

/// Whether a designation with this verdict has no number, and the verdict is good.
pub fn is_open(entries: &OrderedList<NumberEntry>, verdict: Verdict) -> bool
    ensures { result ≡ (is_none (number_by (found ⟦<NumberEntry as Ord>⟧.cmp (entry_key verdict.principal)
        entries.now.items)) && is_good (Some verdict)) }
{
    number_of(entries, verdict.principal).is_none() && is_good(Some(verdict))
}

/// Puts a designation among others, or takes it from them. There is room for it.
pub fn keep(open: &mut OrderedList<Designation>, d: Designation, is_open: bool)
    requires { 0 < open.old.room }
    ensures finds { FindsBeside ⟦<Designation as Ord>⟧.cmp d is_open open.old.items open.new.items }
    ensures room { open.old.room ≤ open.new.room + 1 }
    ensures no_more { open.new.room ≤ open.old.room + 1 }
{
    if is_open {
        open.insert(d);
    } else {
        close(open, d);
    }
}

/// Takes a designation from others, where it is among them.
pub fn close(open: &mut OrderedList<Designation>, d: Designation)
    ensures finds { FindsBeside ⟦<Designation as Ord>⟧.cmp d false open.old.items open.new.items }
    ensures room { open.old.room ≤ open.new.room }
    ensures no_more { open.new.room ≤ open.old.room + 1 }
{
    let _ = open.remove(&d);
}

/// What an ordered list has is in order, as a search of it tells.
pub fn in_order(open: &OrderedList<Designation>)
    ensures { IsStrictlySorted ⟦<Designation as Ord>⟧.cmp open.now.items }
{
    let _ = open.find(&ANY);
}
