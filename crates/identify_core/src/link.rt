//! Links, each from a designation to its principal.

ghost use Rattle.std.specs.Prelude.{◌≡◌};
ghost use Rattle.identify_core.specs.Principals.{is_own};

use crate::searches;
use packed_names::Designation;

/// A designation that was given, and the principal designation of its object.
///
/// Links are in the order of their principals, and those of one principal in the order of their members.
#[derive(Clone, Copy, Debug, PartialEq, Eq, PartialOrd, Ord)]
pub struct Link {
    /// The principal designation of the member's object.
    pub principal: Designation,
    /// The designation.
    pub member: Designation,
}

impl Link {
    /// Whether the member is its own principal.
    pub fn is_own(self) -> bool
        ensures { result ≡ is_own self }
    {
        searches::is_same(self.member, self.principal)
    }
}
