//! The index from a designation to its principal.

use packed_names::Designation;

/// A designation, by which it is ordered, and the principal designation of its object.
#[derive(Clone, Copy)]
#[derive_where(Debug, PartialEq, Eq, PartialOrd, Ord)]
pub struct PrincipalEntry {
    /// The designation.
    pub designation: Designation,
    /// The principal designation of its object.
    #[derive_where(skip(EqHashOrd))]
    pub principal: Designation,
}
