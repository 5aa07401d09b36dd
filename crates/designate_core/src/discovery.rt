//! By which observation the object of each designation was discovered.

ghost use Rattle.std.specs.Prelude.{◌≡◌};
ghost use Rattle.ordered_list.specs.Orders.{found};
ghost use Rattle.designate_core.specs.Indexes.{entry_of, observation_by};

use ordered_list::OrderedList;
use packed_names::Designation;

/// A designation that was given, by which it is ordered, and the observation by which its object was discovered.
#[derive(Clone, Copy)]
#[derive_where(Debug, PartialEq, Eq, PartialOrd, Ord)]
pub struct Discovery {
    /// The designation.
    pub designation: Designation,
    /// The number of the observation.
    #[derive_where(skip(EqHashOrd))]
    pub observation: u64,
}

/// The observation by which the object of a designation was discovered, or None where the designation wasn't given.
pub(crate) fn discovery_of(discoveries: &OrderedList<Discovery>, d: Designation) -> Option<u64>
    ensures { result ≡ observation_by (found ⟦<Discovery as Ord>⟧.cmp (entry_of d 0) discoveries.now.items) }
{
    let key = Discovery {
        designation: d,
        observation: 0,
    };
    discoveries.find(&key).map(|entry| entry.observation)
}
