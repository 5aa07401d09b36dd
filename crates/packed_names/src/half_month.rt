//! Half-months, by which provisional designations are given.

/// A half of a month: the days 1 to 15, or the rest.
///
/// The Minor Planet Center gives each half-month of a year a letter: A and B to January, C and D to February, and so
/// on to X and Y for December. The letter I is left out.
#[derive(Clone, Copy, Debug, PartialEq, Eq, PartialOrd, Ord)]
pub struct HalfMonth {
    /// The year, 1925 to 2099 in a name.
    pub year: u16,
    /// 0 to 23: 0 is the first half of January, letter A, and 23 the second half of December, letter Y.
    pub index: u8,
}
