//! What becomes of a line of a batch.

use obs_record::RuleCode;

/// The ruling on a line of a batch.
#[derive(Clone, Copy, Debug, PartialEq, Eq)]
pub struct Ruling {
    /// The line's number in the batch, counted from 1.
    pub line: u32,
    /// The first rule that the line breaks, or None for a line that is accepted.
    pub fault: Option<RuleCode>,
    /// The group of an accepted line, by name and station. Groups count from 0 in the order of their first accepted
    /// lines. For a line that isn't accepted it is 0 and means nothing.
    pub group: u32,
}
