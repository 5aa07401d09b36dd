//! The names that lines state.

ghost use Rattle.std.specs.Prelude.{◌≡◌};
ghost use Rattle.std.specs.Ordering.{eq_by_cmp};
ghost use Rattle.packed_names.specs.Order.{designation_cmp};
ghost use Rattle.act_model.specs.BatchRules.{number_of, designation_of};

use obs_record::Sighting;
use packed_names::laws::designations_in_order;
use packed_names::{Designation, Name};

/// Whether two designations are the same.
pub(crate) fn is_same(one: Designation, other: Designation) -> bool
    ensures { result ≡ eq_by_cmp designation_cmp one other }
{
    designations_in_order(one, other).is_eq()
}

/// The number of a line, as a name.
pub(crate) fn number_of(s: &Sighting) -> Option<Name>
    ensures { result ≡ number_of s.now }
{
    match s.perm {
        Some(number) => Some(Name::Number(number)),
        None => None,
    }
}

/// The designation of a line, as a name.
pub(crate) fn designation_of(s: &Sighting) -> Option<Name>
    ensures { result ≡ designation_of s.now }
{
    match s.prov {
        Some(designation) => Some(Name::Designation(designation)),
        None => None,
    }
}
