//! The names that observations go by.

ghost use Rattle.std.specs.Prelude.{◌≡◌};
ghost use Rattle.obs_record.specs.declared.name.TrackName.{TrackName};
ghost use Rattle.obs_record.specs.Names.{HasName, IsNameOf};

use crate::short::Short;
use crate::sighting::Sighting;
use packed_names::{Designation, Number};

/// The name that an observation goes by.
#[derive(Clone, Copy, Debug, PartialEq, Eq)]
pub enum TrackName {
    /// The number of the minor planet.
    Number(Number),
    /// The designation.
    Designation(Designation),
    /// The observer's temporary designation.
    Sub(Short),
}

/// The name that the observation goes by: the number if there is one, else the designation, else the temporary
/// designation. One of the three is there.
pub fn track_name(s: &Sighting) -> TrackName
    requires { HasName s.now }
    ensures name { IsNameOf s.now result }
    ensures only { (other : TrackName) → IsNameOf s.now other → other ≡ result }
{
    if let Some(number) = s.perm {
        return TrackName::Number(number);
    }
    if let Some(designation) = s.prov {
        return TrackName::Designation(designation);
    }
    TrackName::Sub(s.sub.unwrap())
}
