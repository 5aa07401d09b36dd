//! Observations on file.

use obs_record::Sighting;

/// An observation that the office accepted.
#[derive(Clone, Copy, Debug, PartialEq, Eq)]
pub struct Observation {
    /// The number of its tracklet.
    pub track: u64,
    /// What was observed.
    pub sighting: Sighting,
    /// The number of the entry that brought it.
    pub entry: u64,
    /// Whether it stands. A retracted one keeps its number and its tracklet.
    pub live: bool,
}
