//! Tracklets on file.

use obs_record::{Short, TrackName};
use packed_names::Designation;

/// A tracklet: observations of one batch that were given as of one object, from one station.
#[derive(Clone, Copy, Debug, PartialEq, Eq)]
pub struct Tracklet {
    /// The name that its lines go by.
    pub name: TrackName,
    /// The code of the station.
    pub station: Short,
    /// The designation that it was given to; none for an isolated tracklet.
    pub home: Option<Designation>,
}
