//! The index entries of verdicts and numbers.

use packed_names::{Designation, Number};

/// A principal designation, by which it is ordered, and the verdict on it.
#[derive(Clone, Copy)]
#[derive_where(Debug, PartialEq, Eq, PartialOrd, Ord)]
pub struct VerdictEntry {
    /// The principal designation.
    pub principal: Designation,
    /// The uncertainty parameter U, 0 to 9.
    #[derive_where(skip(EqHashOrd))]
    pub u: u8,
    /// The number of oppositions at which the object was observed.
    #[derive_where(skip(EqHashOrd))]
    pub oppositions: u8,
}

/// A designation, by which it is ordered, and its number.
#[derive(Clone, Copy)]
#[derive_where(Debug, PartialEq, Eq, PartialOrd, Ord)]
pub struct NumberEntry {
    /// The designation.
    pub designation: Designation,
    /// The number.
    #[derive_where(skip(EqHashOrd))]
    pub number: Number,
}
