//! Why a body is not read.

use std::error::Error;
use std::fmt;
use std::fmt::{Display, Formatter};

/// Why a body was not read.
#[derive(Clone, Copy, Debug, PartialEq, Eq)]
pub enum BodyFault {
    /// It isn't the body of such an act.
    Unread,
    /// Out of memory.
    NoMemory,
}

impl Display for BodyFault {
    fn fmt<W: fmt::Write>(&self, f: &mut Formatter<W>) -> fmt::Result {
        f.pad(match self {
            BodyFault::Unread => "not the body of such an act",
            BodyFault::NoMemory => "out of memory",
        })
    }
}

impl Error for BodyFault {}
