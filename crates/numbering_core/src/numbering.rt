//! Numbers that were given.

use packed_names::{Designation, Number};

/// A number, and the designation of the object that it was given to.
#[derive(Clone, Copy, Debug)]
pub struct Numbering {
    /// The designation under which the object was numbered.
    pub designation: Designation,
    /// The number.
    pub number: Number,
}
