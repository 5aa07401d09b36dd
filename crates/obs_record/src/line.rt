//! The lines of a batch that were read.

use crate::rule::RuleCode;
use crate::sighting::Sighting;
use item_list::ItemList;

/// A line of a batch that is an observation or data line.
#[derive(Clone, Copy, Debug, PartialEq, Eq)]
pub struct Line {
    /// The number of the line, counted from 1 over all lines of the batch.
    pub number: u32,
    /// What the line says: the observation, or the first rule that the line breaks.
    pub read: Result<Sighting, RuleCode>,
}

/// The observation lines of a batch, in their order.
pub type Lines = ItemList<Line>;
