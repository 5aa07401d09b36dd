//! What the comets of a register are found by.

use comet_names::Comet;
use packed_names::{Designation, HalfMonth};

/// A half-month, by which it is ordered, and how many comets it has, C and P together.
#[derive(Clone, Copy)]
#[derive_where(Debug, PartialEq, Eq, PartialOrd, Ord)]
pub struct Count {
    /// The half-month.
    pub half: HalfMonth,
    /// How many comets.
    #[derive_where(skip(EqHashOrd))]
    pub comets: u32,
}

/// A designation beside which a name was given, by which it is ordered, and the name.
#[derive(Clone, Copy)]
#[derive_where(Debug, PartialEq, Eq, PartialOrd, Ord)]
pub struct KnownObject {
    /// The designation.
    pub object: Designation,
    /// The name.
    #[derive_where(skip(EqHashOrd))]
    pub comet: Comet,
}
