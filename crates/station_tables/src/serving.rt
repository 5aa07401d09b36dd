//! How a station stands on a day.

/// How a station code stands on a day.
#[derive(Clone, Copy, Debug, PartialEq, Eq)]
pub enum Serving {
    /// No row has the code.
    Unknown,
    /// Rows have the code, and none of them holds the day.
    Outside,
    /// A row of the code holds the day.
    Serving,
}
