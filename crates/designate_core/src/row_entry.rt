//! What came to the rows.

use packed_names::{HalfMonth, Provisional};

/// A half-month that was opened, or a designation that an object took.
#[derive(Clone, Copy, Debug)]
pub enum RowEntry {
    /// The half-month was opened.
    Opened {
        /// The half-month.
        half: HalfMonth,
        /// How many designations were given in it elsewhere.
        given: u32,
    },
    /// An object took the designation.
    Took {
        /// The designation.
        given: Provisional,
        /// The number of the observation by which the object was discovered.
        discovery: u64,
    },
}
