//! Why a text is no angle.

use std::error::Error;
use std::fmt;
use std::fmt::{Display, Formatter};

/// Why a text is no angle. Where several hold, the first in the order Spelling, Decimals, Range is answered.
#[derive(Clone, Copy, Debug, PartialEq, Eq)]
pub enum AngleFault {
    /// The text has not the shape, whatever the number of decimals.
    Spelling,
    /// A part or the value is out of range.
    Range,
    /// There are too many decimals.
    Decimals,
}

impl Display for AngleFault {
    fn fmt<W: fmt::Write>(&self, f: &mut Formatter<W>) -> fmt::Result {
        f.pad(match self {
            AngleFault::Spelling => "no spelling of an angle",
            AngleFault::Range => "an angle out of range",
            AngleFault::Decimals => "too many decimals",
        })
    }
}

impl Error for AngleFault {}
