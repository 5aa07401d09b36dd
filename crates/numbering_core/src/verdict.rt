//! Verdicts on orbits.

use packed_names::Designation;

/// What an officer stated of the orbit of a principal designation's object.
#[derive(Clone, Copy, Debug)]
pub struct Verdict {
    /// The principal designation.
    pub principal: Designation,
    /// The uncertainty parameter U, 0 to 9.
    pub u: u8,
    /// The number of oppositions at which the object was observed.
    pub oppositions: u8,
}
