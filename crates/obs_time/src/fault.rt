//! Why a text stands for no moment or date.

use std::error::Error;
use std::fmt;
use std::fmt::{Display, Formatter};

/// What is wrong with a text of a date or a moment. The first that holds is answered, in the order `Spelling`,
/// `Decimals`, `Range`, `NoSuchDate`.
#[derive(Clone, Copy, Debug, PartialEq, Eq)]
pub enum TimeFault {
    /// The text has not the shape of a date or a moment, whatever the number of its decimals.
    Spelling,
    /// The calendar has no such date.
    NoSuchDate,
    /// The year lies outside 1800 to 2199, the hour outside 0 to 23, or the minute or the second outside 0 to 59.
    Range,
    /// There are more decimals than are read.
    Decimals,
}

impl Display for TimeFault {
    fn fmt<W: fmt::Write>(&self, f: &mut Formatter<W>) -> fmt::Result {
        f.pad(match self {
            TimeFault::Spelling => "no spelling of a date or a moment",
            TimeFault::NoSuchDate => "a date that the calendar has not",
            TimeFault::Range => "a year, an hour, a minute or a second out of range",
            TimeFault::Decimals => "too many decimals",
        })
    }
}

impl Error for TimeFault {}
